// The records of a rule table: their kinds, the class and the fields of each kind, the record at an offset, the reader
// that draws it, and the tests on one field that need no earlier term.
#![tactic(auto)]

mod reader;

ghost use Rattle.std.specs.Prelude.{◌≡◌, List, length};
ghost use Rattle.semantics.specs.Definitions.Terms.{Term};
ghost use Rattle.semantics.specs.Definitions.Table.{channel_out_of_range, forward_reference};
ghost use Rattle.table_records.specs.Shapes.{fails_at, class_of, shape_of};
ghost use Rattle.table_records.specs.ParsedRecords.{RecordBegins, ParsedRecordIs};

use buffer::byte_at;
pub use reader::{Reader, parse};

// The kinds: processes, expressions, and the two that are no terms.
pub const NIL: u8 = 1;

pub const PUT: u8 = 2;

pub const TAKE: u8 = 3;

pub const REPEATED_TAKE: u8 = 4;

pub const PAR: u8 = 5;

pub const ATOM: u8 = 6;

pub const END: u8 = 7;

pub const RETRY: u8 = 8;

pub const RD: u8 = 9;

pub const WT: u8 = 10;

pub const OR_ELSE: u8 = 11;

pub const TOKENS: u8 = 12;

pub const START: u8 = 13;

// No byte past it is a kind.
const LAST_KIND: u8 = START;

// Channels are numbered below it.
pub const CHANNELS: usize = 16;

// The class of a term.
#[derive(Clone, Copy, PartialEq, Eq, Debug)]
pub enum Class {
    Process,
    Expression,
}

// What a byte of a body is.
#[derive(Clone, Copy, PartialEq, Eq, Debug)]
pub enum Field {
    Channel,
    // The number of an earlier term of this class.
    Reference(Class),
    Count,
}

// The class of a kind's records, none where they are no terms, and their fields.
#[derive(Clone, Copy, PartialEq, Eq, Debug)]
pub struct Shape {
    pub class: Option<Class>,
    pub first: Option<Field>,
    pub second: Option<Field>,
}

// What the records of each kind are. A body has a byte for each field: lengths of bodies, classes and
// the tests of fields are made from this.
#[tactic(auto, using(crate::proofs::Shapes::no_shape), unfolding(crate::specs::Shapes::shape_of))]
pub fn shape_of(kind: u8) -> Shape
    ensures { result ≡ shape_of kind }
{
    use Class::{Expression, Process};
    use Field::{Channel, Count, Reference};
    let (class, first, second) = match kind {
        NIL => (Some(Process), None, None),
        PUT => (Some(Process), Some(Channel), None),
        TAKE => (Some(Process), Some(Channel), Some(Reference(Process))),
        REPEATED_TAKE => (Some(Process), Some(Channel), Some(Reference(Process))),
        PAR => (
            Some(Process),
            Some(Reference(Process)),
            Some(Reference(Process)),
        ),
        ATOM => (Some(Process), Some(Reference(Expression)), None),
        END => (Some(Expression), None, None),
        RETRY => (Some(Expression), None, None),
        RD => (Some(Expression), Some(Channel), Some(Reference(Expression))),
        WT => (Some(Expression), Some(Channel), Some(Reference(Expression))),
        OR_ELSE => (
            Some(Expression),
            Some(Reference(Expression)),
            Some(Reference(Expression)),
        ),
        TOKENS => (None, Some(Channel), Some(Count)),
        START => (None, Some(Reference(Process)), None),
        _ => (None, None, None),
    };
    Shape {
        class,
        first,
        second,
    }
}

// The class of a kind's records.
#[tactic(auto, using(crate::proofs::Shapes::shape_class))]
pub fn class_of(kind: u8) -> Option<Class>
    ensures { result ≡ class_of kind }
{
    shape_of(kind).class
}

// A record: its kind, the two bytes behind the kind (0 past the table's end), which are its body where that has as
// many, and the offset behind it.
#[derive(Clone, Copy)]
pub struct Record {
    pub kind: u8,
    pub first: u8,
    pub second: u8,
    pub next: usize,
}

// Why no record stands at an offset of a table's bytes.
#[derive(Clone, Copy, PartialEq, Eq, Debug)]
pub enum NoRecord {
    // No byte is left.
    End,
    UnknownKind,
    // The kind's body runs past the table's end.
    CutShort,
}

// The record of a kind that begins at an offset, with the offset behind it.
fn record_up_to(table: &[u8], at: usize, kind: u8, next: usize) -> Result<Record, NoRecord>
    requires { RecordBegins table.now at kind next }
    ensures { ParsedRecordIs table.now at result }
{
    if table.len() < next {
        return Err(NoRecord::CutShort);
    }
    let first = byte_at(table, at + 1);
    let second = byte_at(table, at + 2);
    Ok(Record {
        kind,
        first,
        second,
        next,
    })
}

// What stands at an offset: the work beneath the reader. Each length of a body has a way of its own, so that where the
// next record begins is foreseen, and need not wait for this one's kind. By `table.get(at)` in a `let .. else` the proof
// did not close.
fn record_at(table: &[u8], at: usize) -> Result<Record, NoRecord>
    ensures { ParsedRecordIs table.now at result }
{
    if table.len() <= at {
        return Err(NoRecord::End);
    }
    let kind = table[at];
    if kind == 0 || LAST_KIND < kind {
        return Err(NoRecord::UnknownKind);
    }
    let shape = shape_of(kind);
    if shape.first.is_none() {
        return record_up_to(table, at, kind, at + 1);
    }
    if shape.second.is_none() {
        return record_up_to(table, at, kind, at + 2);
    }
    record_up_to(table, at, kind, at + 3)
}

// 4, on one field: a channel that no hall has.
#[tactic(auto, unfolding(crate::specs::Shapes::fails_at, semantics::specs::Definitions::Table::channel_out_of_range))]
pub fn channel_out_of_range(field: Option<Field>, byte: u8) -> bool
    ensures { result ≡ fails_at channel_out_of_range field byte }
{
    match field {
        Some(Field::Channel) => CHANNELS <= usize::from(byte),
        _ => false,
    }
}

// 5, on one field: a reference that is not to one of the terms so far.
#[tactic(auto, unfolding(crate::specs::Shapes::fails_at, semantics::specs::Definitions::Table::forward_reference))]
pub fn forward_reference(terms: usize, field: Option<Field>, byte: u8) -> bool
    ensures { (ts : List Term) → length ts ≡ terms → result ≡ fails_at (forward_reference ts) field byte }
{
    match field {
        Some(Field::Reference(_)) => terms <= usize::from(byte),
        _ => false,
    }
}
