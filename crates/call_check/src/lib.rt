// The call that checks a stored hall.
#![tactic(auto)]

ghost use Rattle.std.specs.Prelude.{◌≡◌};
ghost use Rattle.semantics.specs.Definitions.Calls.{check_hall};
ghost use Rattle.semantics.specs.Promises.{Promised, OnHalls};
ghost use Rattle.answers.specs.Answers.{verdict_of};

use answers::Refusal;
use hall_layout::Index;
use table_terms::DECODED;

// Checks a stored hall: refused by 1 to 9 with the table's place, by 10 where the hall has another length, by 11
// where it is not well formed.
pub fn check_hall(table: &[u8], hall: &[u8]) -> Result<(), Refusal>
    ensures verdict { verdict_of result ≡ check_hall table.now hall.now }
    ensures promised { Promised OnHalls }
{
    let mut decoded = [0u8; DECODED];
    let mut index = Index::new();
    call_admit::admit(table, hall, &mut decoded, &mut index)?;
    Ok(())
}
