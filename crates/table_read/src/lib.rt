// Reading a rule table: record by record, the tests in number order, the terms decoded on the way.
#![tactic(auto)]

ghost use Rattle.std.specs.Prelude.{◌≡◌, ◌<◌, length, replicate};
ghost use Rattle.semantics.specs.Definitions.Layout.{channels};
ghost use Rattle.semantics.specs.Definitions.Table.{tokens_record, bad_tokens, read_table};
ghost use Rattle.semantics.specs.Definitions.Calls.{check_table};
ghost use Rattle.semantics.specs.Promises.{Promised, OnTables};
ghost use Rattle.table_records.specs.ParsedRecords.{WholeRecord};
ghost use Rattle.table_terms.specs.Decoded.{decoded_bytes, tokens_in};
ghost use Rattle.table_read.specs.RecordTests.{DecodedSoFar, TermLimitTested, CanTestClass, ClassTested, test_number, FieldsTested};
ghost use Rattle.table_read.specs.RecordRead.{start_applied, TokensApplied, CanApplyTerm, TermApplied, RecordRead};
ghost use Rattle.table_read.specs.ReadAnswers.{ReadAnswerIs};
ghost use Rattle.answers.specs.Answers.{verdict_of};

use answers::{Reason, Refusal};
use table_records::{
    ATOM, Class, Field, NoRecord, OR_ELSE, PAR, PUT, RD, REPEATED_TAKE, Record, START, Shape, TAKE,
    TOKENS, WT,
};
use table_terms::{DECODED, TERMS};

// An accepted table: how many terms it has, and the number of its start.
#[derive(Clone, Copy, PartialEq, Eq, Debug)]
pub struct Accepted {
    pub terms: usize,
    pub start: u8,
}

// What a record leads to where it is not refused.
#[derive(Clone, Copy, PartialEq, Eq, Debug)]
pub enum AfterRecord {
    // The offset behind it, and how many terms there are now.
    More { at: usize, terms: usize },
    // It ends the table.
    Done(Accepted),
}

// 3: a term record comes after as many terms as a table may have.
fn too_many_terms(class: Option<Class>, terms: usize) -> bool
    ensures { TermLimitTested class terms result }
{
    class.is_some() && TERMS <= terms
}

// 6, on one field: a reference to a term of the other class.
fn class_mismatch(decoded: &[u8; DECODED], field: Option<Field>, byte: u8) -> bool
    requires { CanTestClass decoded.now field byte }
    ensures { ClassTested decoded.now field byte result }
{
    match field {
        Some(Field::Reference(class)) => {
            let kind = table_terms::kind_at(decoded, usize::from(byte));
            table_records::class_of(kind) != Some(class)
        }
        _ => false,
    }
}

// 8: a count of 0, or a channel that was given tokens before.
fn bad_tokens(decoded: &[u8; DECODED], channel: u8, count: u8) -> bool
    requires { channel < channels }
    ensures { result ≡ bad_tokens (tokens_in decoded.now) (tokens_record channel count) }
{
    count == 0 || table_terms::tokens_at(decoded, usize::from(channel)) != 0
}

// The tests 3 to 6 on a record of this kind, in number order, each on both fields before the next: the first that fails
// refuses it.
fn kind_refusal(
    decoded: &[u8; DECODED],
    terms: usize,
    kind: u8,
    parsed: Record,
) -> Result<(), Reason>
    requires decoded_so_far { DecodedSoFar decoded.now terms }
    requires of_kind { parsed.kind ≡ kind }
    ensures { FieldsTested decoded.now terms parsed (test_number result) }
{
    let Shape {
        class,
        first,
        second,
    } = table_records::shape_of(kind);
    if too_many_terms(class, terms) {
        return Err(Reason::TooManyTerms);
    }
    if table_records::channel_out_of_range(first, parsed.first)
        || table_records::channel_out_of_range(second, parsed.second)
    {
        return Err(Reason::ChannelOutOfRange);
    }
    if table_records::forward_reference(terms, first, parsed.first)
        || table_records::forward_reference(terms, second, parsed.second)
    {
        return Err(Reason::ForwardReference);
    }
    if class_mismatch(decoded, first, parsed.first)
        || class_mismatch(decoded, second, parsed.second)
    {
        return Err(Reason::ClassMismatch);
    }
    Ok(())
}

// The same of any record. The lines say nothing of their kinds: in each the compiler knows the kind, and leaves out the
// tests that its fields do not need. A kind without a line is tested no less.
fn record_refusal(decoded: &[u8; DECODED], terms: usize, parsed: Record) -> Result<(), Reason>
    requires { DecodedSoFar decoded.now terms }
    ensures { FieldsTested decoded.now terms parsed (test_number result) }
{
    let kind = parsed.kind;
    match kind {
        PUT => kind_refusal(decoded, terms, PUT, parsed),
        TAKE => kind_refusal(decoded, terms, TAKE, parsed),
        REPEATED_TAKE => kind_refusal(decoded, terms, REPEATED_TAKE, parsed),
        PAR => kind_refusal(decoded, terms, PAR, parsed),
        ATOM => kind_refusal(decoded, terms, ATOM, parsed),
        RD => kind_refusal(decoded, terms, RD, parsed),
        WT => kind_refusal(decoded, terms, WT, parsed),
        OR_ELSE => kind_refusal(decoded, terms, OR_ELSE, parsed),
        _ => kind_refusal(decoded, terms, kind, parsed),
    }
}

// The start, whose fields passed. It ends the table: 9, a byte follows it.
fn apply_start(table: &[u8], terms: usize, parsed: Record) -> Result<AfterRecord, Refusal>
    ensures { result ≡ start_applied table.now terms parsed }
{
    if parsed.next < table.len() {
        return Err(Reason::WrongEnd.at(parsed.next));
    }
    Ok(AfterRecord::Done(Accepted {
        terms,
        start: parsed.first,
    }))
}

// Tokens, whose fields passed: tested by 8, and given.
fn apply_tokens(
    at: usize,
    terms: usize,
    parsed: Record,
    decoded: &mut [u8; DECODED],
) -> Result<AfterRecord, Refusal>
    requires { (parsed.first < channels) × (length decoded.old ≡ decoded_bytes) }
    ensures { TokensApplied decoded.old at terms parsed result decoded.new }
{
    if bad_tokens(decoded, parsed.first, parsed.second) {
        return Err(Reason::BadTokens.at(at));
    }
    table_terms::put_tokens(decoded, usize::from(parsed.first), parsed.second);
    Ok(AfterRecord::More {
        at: parsed.next,
        terms,
    })
}

// A term, whose fields passed: stored, tested by 7, and kept with its measures.
fn apply_term(
    at: usize,
    terms: usize,
    parsed: Record,
    decoded: &mut [u8; DECODED],
) -> Result<AfterRecord, Refusal>
    requires { CanApplyTerm decoded.old terms parsed }
    ensures { TermApplied decoded.old at terms parsed result decoded.new }
{
    table_terms::put_record(decoded, terms, parsed);
    let measures = table_terms::measures_of(decoded, terms, terms);
    if table_terms::over_limit(parsed.kind, measures) {
        return Err(Reason::OverLimit.at(at));
    }
    table_terms::put_measures(decoded, terms, measures);
    Ok(AfterRecord::More {
        at: parsed.next,
        terms: terms + 1,
    })
}

// A whole record: refused by the first test that fails; the table's end; or stored. Test 7 is on terms alone, 8 on
// tokens alone and 9 on the start alone, so each way through goes by the tests' numbers.
fn apply_record(
    table: &[u8],
    at: usize,
    terms: usize,
    parsed: Record,
    decoded: &mut [u8; DECODED],
) -> Result<AfterRecord, Refusal>
    requires decoded_so_far { DecodedSoFar decoded.old terms }
    requires whole_record { WholeRecord table.now at parsed }
    ensures { RecordRead table.now at terms decoded.old result decoded.new }
{
    if let Err(reason) = record_refusal(decoded, terms, parsed) {
        return Err(reason.at(at));
    }
    match parsed.kind {
        START => apply_start(table, terms, parsed),
        TOKENS => apply_tokens(at, terms, parsed, decoded),
        _ => apply_term(at, terms, parsed, decoded),
    }
}

// What stands at an offset, after some terms.
fn read_record(
    table: &[u8],
    at: usize,
    terms: usize,
    decoded: &mut [u8; DECODED],
) -> Result<AfterRecord, Refusal>
    requires { DecodedSoFar decoded.old terms }
    ensures { RecordRead table.now at terms decoded.old result decoded.new }
{
    match table_records::parse(table, at) {
        Ok(parsed) => apply_record(table, at, terms, parsed, decoded),
        Err(NoRecord::End) => Err(Reason::WrongEnd.at(at)),
        Err(NoRecord::UnknownKind) => Err(Reason::UnknownRecord.at(at)),
        Err(NoRecord::CutShort) => Err(Reason::RecordCutShort.at(at)),
    }
}

// Reads a table into a decoded table that the caller lends, all 0. Where the table is accepted, it holds the table's
// tokens and terms.
pub fn read_table(table: &[u8], decoded: &mut [u8; DECODED]) -> Result<Accepted, Refusal>
    requires { decoded.old ≡ replicate decoded_bytes 0 }
    ensures { ReadAnswerIs result (read_table table.now) decoded.new }
{
    let mut at: usize = 0;
    let mut terms: usize = 0;
    loop {
        match read_record(table, at, terms, decoded)? {
            AfterRecord::More {
                at: next,
                terms: count,
            } => {
                at = next;
                terms = count;
            }
            AfterRecord::Done(accepted) => return Ok(accepted),
        }
    }
}

// Whether a table is accepted; where not, the refusal.
pub fn check_table(table: &[u8]) -> Result<(), Refusal>
    ensures verdict { verdict_of result ≡ check_table table.now }
    ensures promised { Promised OnTables }
{
    let mut decoded = [0u8; DECODED];
    read_table(table, &mut decoded)?;
    Ok(())
}
