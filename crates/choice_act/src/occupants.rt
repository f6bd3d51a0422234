// What stands at a position: what an entry of kind 1 is answered by, and made by. Looks and moves both go by it.
ghost use Rattle.hall_held.specs.Holds.{Running};
ghost use Rattle.choice_act.specs.Occupants.{OccupantRead};

use hall_layout::{COMPONENT_BODY, Index, KIND_OUTPUT, KIND_TRANSACTION};
use table_records::ATOM;
use table_terms::DECODED;

// What stands at a position, by what it does when it acts.
#[derive(Clone, Copy)]
pub enum Occupant {
    Transaction,
    Output { channel: u8 },
    // It waits on a block.
    Block,
    // It waits on the take or repeated take of this number.
    Take { term: u8 },
}

// The occupant of a position; none where no component has it.
pub fn occupant_at(
    decoded: &[u8; DECODED],
    hall: &[u8],
    index: &Index,
    position: usize,
) -> Option<Occupant>
    requires { Running decoded.now hall.now index.now.starts index.now.components }
    ensures { OccupantRead decoded.now hall.now index.now.starts index.now.components position
        result }
{
    if index.components <= position {
        return None;
    }
    let begin = index.starts[position];
    let kind = hall[begin];
    if kind == KIND_TRANSACTION {
        return Some(Occupant::Transaction);
    }
    let body = hall[begin + COMPONENT_BODY];
    if kind == KIND_OUTPUT {
        return Some(Occupant::Output { channel: body });
    }
    if table_terms::kind_at(decoded, usize::from(body)) == ATOM {
        return Some(Occupant::Block);
    }
    Some(Occupant::Take { term: body })
}
