// The call that shows a turn of a table's opening, for whoever steps through it.
#![tactic(auto)]

ghost use Rattle.semantics.specs.Definitions.Turns.{turn_call};
ghost use Rattle.semantics.specs.Promises.{Promised, OnTurns};
ghost use Rattle.answers.specs.Answers.{TurnIs};

use answers::{Refusal, Turn};
use table_terms::DECODED;

// The turn of this number, counted from 0, of the opening of a table, if there is one. Refused by 1 to 9 alone, with
// the table's place.
pub fn opening_turn(table: &[u8], turn: usize) -> Result<Option<Turn>, Refusal>
    ensures value { TurnIs (turn_call table.now turn) result }
    ensures promised { Promised OnTurns }
{
    let mut decoded = [0u8; DECODED];
    let accepted = table_read::read_table(table, &mut decoded)?;
    Ok(hall_open::show_turn(&decoded, usize::from(accepted.start), turn))
}
