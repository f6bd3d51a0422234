// The entry (choice) whose bytes begin at an offset of a schedule (document 01's list of choices).
#![tactic(auto)]

ghost use Rattle.choice_read.specs.Entries.{ParsedIs};

use answers::{Entry, KIND_ACT, KIND_INSIDE, Reason};

// The bytes of an entry of each kind, kind and all.
pub const ACT_SIZE: usize = 2;

pub const INSIDE_SIZE: usize = 3;

// An entry, with the offset behind it.
#[derive(Clone, Copy)]
pub struct Parsed {
    pub entry: Entry,
    pub next: usize,
}

// What stands at an offset of a schedule: an entry, or what is refused there; nothing past the end.
pub fn parse_entry(choices: &[u8], at: usize) -> Option<Result<Parsed, Reason>>
    ensures { ParsedIs choices.now at result }
{
    if choices.len() <= at {
        return None;
    }
    let kind = choices[at];
    let left = choices.len() - at;
    if kind == KIND_ACT {
        if left < ACT_SIZE {
            return Some(Err(Reason::CutShort));
        }
        let position = choices[at + 1];
        return Some(Ok(Parsed {
            entry: Entry::Act { position },
            next: at + ACT_SIZE,
        }));
    }
    if kind == KIND_INSIDE {
        if left < INSIDE_SIZE {
            return Some(Err(Reason::CutShort));
        }
        let position = choices[at + 1];
        let node = choices[at + 2];
        return Some(Ok(Parsed {
            entry: Entry::Inside { position, node },
            next: at + INSIDE_SIZE,
        }));
    }
    Some(Err(Reason::UnknownKind))
}
