// The one function of the programs `replay`, `replay_most` and `replay_long`: it reads an input, a table and the choices
// behind it, from standard input and writes its printed run to standard output.
//
// All that matters is in the crate report. The input may arrive in pieces. No more than one byte past the longest input
// that is run is read: that byte tells that the input is longer. No contract says what standard input gives and standard
// output takes, so what the three print is held to stored files: a short input, the longest that is run, and one byte
// more. `replay_from` does the same between any reader and any writer, whose bytes its contract names.
#![tactic(auto)]

ghost use Rattle.std.specs.Prelude.{◌≡◌, ◌+◌, ◌≤◌, length, take, IfOk, OnOk, IfSome};
ghost use Rattle.std.specs.Io.KnownBytes.{Appends};
ghost use Rattle.semantics.specs.Definitions.Layout.{max_input};
ghost use Rattle.semantics.specs.Definitions.Report.{printed_run};

use print_report::{MAX_INPUT, OUTPUT};
use std::io;
use std::io::{Input, Read, Write};

// One byte more than the longest input that is run.
const READ: usize = MAX_INPUT + 1;

// Reads until the buffer is full or the reader has no more, however many bytes come at a time. The answer is how many
// bytes were read. After an error some of the buffer may be written.
pub fn read_full<I: Read>(input: &mut I, buffer: &mut [u8]) -> io::Result<usize>
    ensures count { IfOk result (λ n. n ≤ length buffer.new) }
    ensures bytes { IfOk result (λ n. IfSome (I.remaining input.old)
        (λ xs. take n buffer.new ≡ take (length buffer.old) xs)) }
{
    let mut n = 0;
    while n < buffer.len() {
        let some = input.read(&mut buffer[n..])?;
        if some == 0 {
            return Ok(n);
        }
        n += some;
    }
    Ok(n)
}

// The same as `replay_from`, by way of a lent buffer.
fn replay_by<I: Read, O: Write>(input: &mut I, bytes: &mut [u8], output: &mut O) -> io::Result<()>
    requires { length bytes.old ≡ max_input + 1 }
    ensures { OnOk result (IfSome (I.remaining input.old)
        (λ known. Appends (O.contents output.old) (O.contents output.new) (printed_run known))) }
{
    let n = read_full(input, bytes)?;
    let mut text = [0u8; OUTPUT];
    let length = print_report::report(&bytes[..n], &mut text);
    output.write_all(&text[..length])
}

// Appends the printed run of all that the reader has to what the writer holds. After an error, of reading or of writing,
// some of it may be written.
pub fn replay_from<I: Read, O: Write>(input: &mut I, output: &mut O) -> io::Result<()>
    ensures { OnOk result (IfSome (I.remaining input.old)
        (λ known. Appends (O.contents output.old) (O.contents output.new) (printed_run known))) }
{
    let mut bytes = [0u8; READ];
    replay_by(input, &mut bytes, output)
}

pub fn replay(rt: &(impl Input + Print)) -> io::Result<()> {
    replay_from(&mut rt.reader(), &mut io::writer(rt))
}
