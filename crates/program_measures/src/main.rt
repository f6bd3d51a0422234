// The measures of the terms of six tables, by the walk over the unfolded term: `table_terms::measures_of` with no term's
// measures stored. Reading a table makes the same call with those of all earlier terms stored: it looks them up
// and walks no further.
//
// Each table has a line `N` with how many terms it has, then for each term a line `T` with these columns: its number,
// its kind, its breadth (a process's width, an expression's branches), its length (0 for a process), both as walked,
// and `=` where the decoded table keeps the same two measures for it, else `#`. A refused table has one line instead,
// `R` with the number and the place. The lines in the file `stdout` come from document 01's definition of the measures,
// by another program.
//
// The tables are written a record to a line.
#![tactic(auto)]

ghost use Rattle.table_terms.specs.TermMeasures.{CanMeasure};
ghost use Rattle.table_read.specs.RecordTests.{DecodedSoFar};

use answers::Refusal;
use std::io;
use table_read::Accepted;
use table_terms::{DECODED, Measures};

// Every kind of term, with two tokens records between them.
const EVERY_KIND: [u8; 42] = *b"\
    \x07\
    \x08\
    \x09\x03\x00\
    \x0a\x0f\x02\
    \x0c\x03\xff\
    \x0b\x03\x01\
    \x06\x04\
    \x01\
    \x02\x00\
    \x05\x06\x07\
    \x03\x05\x08\
    \x0c\x0f\x01\
    \x04\x06\x08\
    \x05\x08\x09\
    \x05\x0b\x0a\
    \x09\x00\x04\
    \x0d\x0c\
    ";

// Width 64, by doubling and by sides of unequal width.
const WIDTH_64: [u8; 34] = *b"\
    \x02\x09\
    \x05\x00\x00\
    \x05\x01\x01\
    \x05\x02\x02\
    \x05\x03\x03\
    \x05\x04\x04\
    \x05\x05\x05\
    \x05\x05\x04\
    \x05\x03\x07\
    \x05\x08\x03\
    \x03\x00\x06\
    \x0d\x06\
    ";

// Branches 8, by doubling and by sides of unequal branches.
const BRANCHES_8: [u8; 30] = *b"\
    \x07\
    \x0b\x00\x00\
    \x0b\x01\x01\
    \x0b\x02\x02\
    \x08\
    \x0b\x04\x00\
    \x0b\x05\x02\
    \x0b\x06\x04\
    \x0b\x00\x07\
    \x09\x01\x08\
    \x06\x09\
    \x0d\x0a\
    ";

// Length 16.
const LENGTH_16: [u8; 57] = *b"\
    \x07\
    \x09\x00\x00\
    \x0a\x01\x01\
    \x09\x02\x02\
    \x0a\x03\x03\
    \x09\x04\x04\
    \x0a\x05\x05\
    \x09\x06\x06\
    \x0a\x07\x07\
    \x09\x08\x08\
    \x0a\x09\x09\
    \x09\x0a\x0a\
    \x0a\x0b\x0b\
    \x09\x0c\x0c\
    \x0a\x0d\x0d\
    \x09\x0e\x0e\
    \x0a\x0f\x0f\
    \x06\x10\
    \x08\
    \x0a\x00\x12\
    \x0d\x11\
    ";

// orElse with the longer side at the left and at the right.
const UNEQUAL_SIDES: [u8; 45] = *b"\
    \x07\
    \x08\
    \x09\x00\x00\
    \x0a\x01\x02\
    \x0a\x02\x03\
    \x0b\x04\x02\
    \x0b\x02\x04\
    \x0b\x01\x05\
    \x09\x07\x06\
    \x0b\x08\x05\
    \x0b\x05\x08\
    \x0b\x00\x01\
    \x0b\x0b\x03\
    \x0b\x09\x0c\
    \x0a\x0f\x0d\
    \x06\x0e\
    \x0d\x0f\
    ";

// Subterms that many terms share.
const SHARED: [u8; 64] = *b"\
    \x07\
    \x09\x00\x00\
    \x0b\x01\x01\
    \x0a\x04\x02\
    \x0b\x03\x03\
    \x09\x05\x04\
    \x0b\x05\x05\
    \x06\x06\
    \x06\x03\
    \x05\x07\x07\
    \x05\x09\x09\
    \x03\x02\x0a\
    \x04\x03\x0a\
    \x05\x0a\x0a\
    \x05\x0b\x0d\
    \x05\x0e\x0e\
    \x05\x0f\x0f\
    \x05\x10\x0e\
    \x05\x11\x0f\
    \x05\x12\x0c\
    \x0a\x06\x05\
    \x0b\x14\x04\
    \x0d\x13\
    ";

fn print_count(rt: &impl Print, terms: usize) -> io::Result<()> {
    println!(rt; "N {terms}")
}

fn print_refusal(rt: &impl Print, refusal: Refusal) -> io::Result<()> {
    let number = refusal.reason.number();
    let place = refusal.place;
    println!(rt; "R {number} {place}")
}

// A term's line, by the walk with none stored.
fn print_term(rt: &impl Print, decoded: &[u8; DECODED], i: usize) -> io::Result<()>
    requires { CanMeasure decoded.now 0 i }
{
    let kind = table_terms::kind_at(decoded, i);
    let walked = table_terms::measures_of(decoded, 0, i);
    let stored = Measures {
        breadth: table_terms::breadth_at(decoded, i),
        length: table_terms::length_at(decoded, i),
    };
    let mark = if walked == stored { '=' } else { '#' };
    let Measures { breadth, length } = walked;
    println!(rt; "T {i} {kind} {breadth} {length} {mark}")
}

fn print_terms(rt: &impl Print, decoded: &[u8; DECODED], terms: usize) -> io::Result<()>
    requires { DecodedSoFar decoded.now terms }
{
    print_count(rt, terms)?;
    for i in 0..terms {
        print_term(rt, decoded, i)?;
    }
    Ok(())
}

fn print_measures(rt: &impl Print, table: &[u8]) -> io::Result<()> {
    let mut decoded = [0u8; DECODED];
    match table_read::read_table(table, &mut decoded) {
        Ok(Accepted { terms, .. }) => print_terms(rt, &decoded, terms),
        Err(refusal) => print_refusal(rt, refusal),
    }
}

fn main(rt: HostRuntime) -> io::Result<()> {
    print_measures(&rt, &EVERY_KIND)?;
    print_measures(&rt, &WIDTH_64)?;
    print_measures(&rt, &BRANCHES_8)?;
    print_measures(&rt, &LENGTH_16)?;
    print_measures(&rt, &UNEQUAL_SIDES)?;
    print_measures(&rt, &SHARED)
}
