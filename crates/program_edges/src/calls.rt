// The answers of the calls on a table, a stored hall and choices. Each call gets the hall as it was stored:
//
//     H number place            checking the hall
//     O number place            opening the table in it
//     M number place rule tray by
//                               the first choice alone; the tray that was short and by how many, 0 0 where none was
//     R number place done       running the choices
//     C commits failed retries  the tally then
//     B byte ..                 the hall then, up to its last byte that is not 0
//     S number place kind position node
//                               suggesting then; kind 0 where nothing is suggested
//
// A missing byte of the first choice counts as 0, and so does one of the tally that step and run begin with.
ghost use Rattle.std.specs.Prelude.{◌≤◌, ◌<◌, length};

use crate::lines::BYTES;
use answers::{Counters, Entry, Refusal, choice_words, outcome_number, shortage_words};
use buffer::byte_at;
use std::io;
use std::io::Write;

fn print_number(out: &mut impl Write, n: usize) -> io::Result<()> {
    write!(out, " {n}")
}

// A letter and numbers.
fn print_line(out: &mut impl Write, letter: u8, numbers: &[usize]) -> io::Result<()> {
    out.write_all(&[letter])?;
    for n in numbers {
        print_number(out, *n)?;
    }
    out.write_all(b"\n")
}

fn print_verdict<T: Copy>(
    out: &mut impl Write,
    letter: u8,
    answer: Result<T, Refusal>,
) -> io::Result<()> {
    match answer {
        Ok(_) => print_line(out, letter, &[0, 0]),
        Err(refusal) => print_line(
            out,
            letter,
            &[usize::from(refusal.reason.number()), refusal.place],
        ),
    }
}

fn print_step(
    out: &mut impl Write,
    table: &[u8],
    hall: &mut [u8],
    choices: &[u8],
    first: Counters,
) -> io::Result<()> {
    let kind = byte_at(choices, 0);
    let position = byte_at(choices, 1);
    let node = byte_at(choices, 2);
    match call_step::step(table, hall, kind, position, node, first) {
        Ok(step) => {
            let [tray, by] = shortage_words(step.made.short);
            let rule = usize::from(step.made.rule.number());
            print_line(
                out,
                b'M',
                &[0, step.place, rule, usize::from(tray), usize::from(by)],
            )
        }
        Err(refusal) => {
            let number = usize::from(refusal.reason.number());
            print_line(out, b'M', &[number, refusal.place, 0, 0, 0])
        }
    }
}

// The bytes up to the last that is not 0.
fn used(hall: &[u8]) -> usize
    ensures { result ≤ length hall.now }
{
    for i in (0..hall.len()).rev() {
        if hall[i] != 0 {
            return i + 1;
        }
    }
    0
}

fn print_bytes(out: &mut impl Write, hall: &[u8]) -> io::Result<()> {
    out.write_all(b"B")?;
    for byte in &hall[..used(hall)] {
        print_number(out, usize::from(*byte))?;
    }
    out.write_all(b"\n")
}

// A suggestion: its number and place, and the choice as kind, position and node, what is not said being 0.
fn print_suggested(
    out: &mut impl Write,
    number: u8,
    place: usize,
    choice: [u8; 3],
) -> io::Result<()> {
    let [kind, position, node] = choice;
    print_line(
        out,
        b'S',
        &[
            usize::from(number),
            place,
            usize::from(kind),
            usize::from(position),
            usize::from(node),
        ],
    )
}

fn print_suggestion(out: &mut impl Write, table: &[u8], hall: &[u8]) -> io::Result<()> {
    match call_suggest::suggest(table, hall) {
        Ok(Some(entry)) => print_suggested(out, 0, 0, choice_words(entry)),
        Ok(None) => print_suggested(out, 0, 0, [0, 0, 0]),
        Err(refusal) => { print_suggested(out, refusal.reason.number(), refusal.place, [0, 0, 0]) }
    }
}

fn print_run(
    out: &mut impl Write,
    table: &[u8],
    hall: &mut [u8],
    choices: &[u8],
    first: Counters,
) -> io::Result<()> {
    let answer = call_run::run(table, hall, choices, first);
    let number = usize::from(outcome_number(answer.outcome));
    print_line(out, b'R', &[number, answer.place, answer.done])?;
    let counters = answer.counters;
    print_line(
        out,
        b'C',
        &[
            counters.commits as usize,
            counters.failed as usize,
            counters.retries as usize,
        ],
    )?;
    print_bytes(out, hall)?;
    print_suggestion(out, table, hall)
}

// Two bytes as a number.
fn word(high: u8, low: u8) -> u32
    ensures { result < 65536 }
{
    u32::from(high) * 256 + u32::from(low)
}

// The counter whose four bytes begin at an offset.
fn counter_at(tally: &[u8], at: usize) -> u32
    requires { at ≤ 8 }
{
    let high = word(byte_at(tally, at), byte_at(tally, at + 1));
    let low = word(byte_at(tally, at + 2), byte_at(tally, at + 3));
    high * 65536 + low
}

// All answers. Each call that writes to the hall gets a copy of it.
pub fn print_calls(
    out: &mut impl Write,
    table: &[u8],
    hall: &[u8],
    choices: &[u8],
    tally: &[u8],
) -> io::Result<()> {
    let first = Counters {
        commits: counter_at(tally, 0),
        failed: counter_at(tally, 4),
        retries: counter_at(tally, 8),
    };
    print_verdict(out, b'H', call_check::check_hall(table, hall))?;
    let n = hall.len();
    if BYTES < n {
        return Ok(());
    }
    let mut bytes = [0u8; BYTES];
    let copy = &mut bytes[..n];
    copy.copy_from_slice(hall);
    print_verdict(out, b'O', call_open::open_hall(table, copy))?;
    copy.copy_from_slice(hall);
    print_step(out, table, copy, choices, first)?;
    copy.copy_from_slice(hall);
    print_run(out, table, copy, choices, first)
}
