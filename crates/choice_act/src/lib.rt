// Entries of kind 1 (to act): rules 1 to 7, at a position, looked at or made.
//
// Both go by what stands at the position (`occupants`), and by the same tests.
#![tactic(auto)]

mod occupants;

ghost use Rattle.std.specs.Prelude.{Some};
ghost use Rattle.semantics.specs.Definitions.Moves.{act};
ghost use Rattle.hall_held.specs.Holds.{Running};
ghost use Rattle.hall_held.specs.Choices.{EntryLooked, EntryMade};
ghost use Rattle.choice_act.specs.Occupants.{OccupantRead};
ghost use Rattle.choice_act.specs.declared.occupants.Occupant.TheVariants.{Transaction};

use answers::{Move, Reason, Rule};
use hall_layout::Index;
use occupants::{Occupant, occupant_at};
use table_terms::DECODED;

// What the entry is answered, by the occupant of its position. Nothing changes.
pub fn look_act(
    decoded: &[u8; DECODED],
    hall: &[u8],
    index: &Index,
    position: u8,
) -> Result<Move, Reason>
    requires { Running decoded.now hall.now index.now.starts index.now.components }
    ensures { EntryLooked decoded.now hall.now index.now.starts index.now.components
        (act position) result }
{
    let p = usize::from(position);
    let Some(occupant) = occupant_at(decoded, hall, index, p) else {
        return Err(Reason::NoComponent);
    };
    match occupant {
        Occupant::Transaction => move_blocks::look_end(
            decoded,
            hall,
            index.starts[p],
            index.components,
        ),
        Occupant::Output { channel } => move_tokens::look_output(hall, channel),
        Occupant::Block => Ok(Move::by(Rule::Atst)),
        Occupant::Take { term } => move_tokens::look_take(decoded, hall, index.components, term),
    }
}

// The entry made at a transaction, where it is accepted: a commit, or the block stands there again.
fn act_end(
    decoded: &[u8; DECODED],
    hall: &mut [u8],
    index: &mut Index,
    position: usize,
) -> Result<Move, Reason>
    requires running { Running decoded.now hall.old index.old.starts index.old.components }
    requires occupant_read { OccupantRead decoded.now hall.old index.old.starts index.old.components position (Some Transaction) }
    ensures { EntryMade decoded.now hall.old index.old.starts index.old.components
        (act position) result hall.new index.new.starts index.new.components }
{
    let by = move_blocks::look_end(decoded, hall, index.starts[position], index.components)?;
    match by.rule {
        Rule::Atok => {
            move_blocks::commit(hall, index, position);
            Ok(by)
        }
        // Atre and Atfail
        _ => {
            move_blocks::restart(hall, index, position);
            Ok(by)
        }
    }
}

// The entry made, where it is accepted, by the occupant of its position.
pub fn act(
    decoded: &[u8; DECODED],
    hall: &mut [u8],
    index: &mut Index,
    position: u8,
) -> Result<Move, Reason>
    requires { Running decoded.now hall.old index.old.starts index.old.components }
    ensures { EntryMade decoded.now hall.old index.old.starts index.old.components
        (act position) result hall.new index.new.starts index.new.components }
{
    let p = usize::from(position);
    let Some(acting) = occupant_at(decoded, hall, index, p) else {
        return Err(Reason::NoComponent);
    };
    match acting {
        Occupant::Transaction => act_end(decoded, hall, index, p),
        Occupant::Output { channel } => {
            let by = move_tokens::look_output(hall, channel)?;
            move_tokens::put(hall, index, p);
            Ok(by)
        }
        Occupant::Block => {
            move_blocks::begin(decoded, hall, index, p);
            Ok(Move::by(Rule::Atst))
        }
        Occupant::Take { term } => {
            let by = move_tokens::look_take(decoded, hall, index.components, term)?;
            move_tokens::take(decoded, hall, index, p);
            Ok(by)
        }
    }
}
