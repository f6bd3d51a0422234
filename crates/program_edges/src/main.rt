// The edges of document 01, one by one, through the proved library. Standard input is the list of them, the file
// `stdin`; the file `stdout` is what the second implementation prints on the same list:
//
//     cargo run --release --offline --manifest-path reference/Cargo.toml --bin edges < crates/program_edges/stdin > crates/program_edges/stdout
//
// A line of the list is a name, a colon, and bytes in decimal. `3x1,0` stands for `1 0 1 0 1 0`. The program prints the
// name and below it the printed run of the bytes. Where `/` cuts the bytes in three they are a table, a stored hall and
// choices, and the answers of the calls on a stored hall are printed (calls.rt); a fourth part is the tally that these
// begin with, four bytes a counter, the highest first. Bytes that are cut in two have no answer, but where the first part
// is empty. A line without a colon is a heading.
#![tactic(auto)]

mod calls;
mod lines;

use lines::{EdgeLine, Part};
use print_report::OUTPUT;
use std::io;
use std::io::{Input, Write};

// No list is longer.
const TEXT: usize = 65536;

fn print_report(out: &mut impl Write, input: &[u8]) -> io::Result<()> {
    let mut output = [0u8; OUTPUT];
    let length = print_report::report(input, &mut output);
    out.write_all(&output[..length])
}

// What a whole line asks for.
fn print_answers(out: &mut impl Write, line: &EdgeLine) -> io::Result<()> {
    if line.part() == Part::Input {
        return print_report(out, line.input());
    }
    if !line.is_whole() {
        return Ok(());
    }
    calls::print_calls(out, line.table(), line.hall(), line.choices(), line.tally())
}

// One character of a name.
fn take_name(out: &mut impl Write, line: &mut EdgeLine, c: u8) -> io::Result<()> {
    if c == b':' {
        line.end_name();
        return out.write_all(b"\n");
    }
    out.write_all(&[c])
}

// One character of the list.
fn take(out: &mut impl Write, line: &mut EdgeLine, c: u8) -> io::Result<()> {
    if line.part() == Part::Name {
        return take_name(out, line, c);
    }
    match c {
        b'0'..=b'9' => line.digit(c),
        b'x' => line.times(),
        b',' => line.end_number(),
        b' ' => line.end_word(),
        b'/' => line.end_part(),
        b'\n' => {
            line.end();
            print_answers(out, line)?;
            line.restart();
        }
        _ => {}
    }
    Ok(())
}

fn run_list(out: &mut impl Write, text: &[u8]) -> io::Result<()> {
    let mut line = EdgeLine::new();
    for c in text {
        take(out, &mut line, *c)?;
    }
    Ok(())
}

fn main(rt: HostRuntime) -> io::Result<()> {
    let mut text = [0u8; TEXT];
    let n = program_stdin::read_full(&mut rt.reader(), &mut text)?;
    run_list(&mut io::writer(&rt), &text[..n])
}
