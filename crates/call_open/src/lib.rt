// The call that opens a table in a lent hall.
#![tactic(auto)]

ghost use Rattle.std.specs.Prelude.{◌≡◌};
ghost use Rattle.semantics.specs.Definitions.Calls.{open_hall};
ghost use Rattle.semantics.specs.Promises.{Promised, OnOpenings};
ghost use Rattle.answers.specs.Answers.{opening_of};

use answers::{Counters, Reason, Refusal};
use hall_layout::HALL_SIZE;
use table_terms::DECODED;

// Opens a table in a hall, whatever stood there. Refused, it leaves the hall as it was: by 1 to 9 with the table's
// place, and by 10 where the hall has another length.
pub fn open_hall(table: &[u8], hall: &mut [u8]) -> Result<Counters, Refusal>
    ensures hall_after { opening_of result hall.new ≡ open_hall table.now hall.old }
    ensures promised { Promised OnOpenings }
{
    let mut decoded = [0u8; DECODED];
    let accepted = table_read::read_table(table, &mut decoded)?;
    if hall.len() != HALL_SIZE {
        return Err(Reason::WrongLength.at(0));
    }
    hall_open::write_opening(&decoded, usize::from(accepted.start), hall);
    Ok(Counters::fresh())
}
