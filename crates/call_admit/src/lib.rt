// What every call on a table and a stored hall tests first: the table, then the hall's length, then its form. The decoded
// table and the index of an admitted hall are lent.
#![tactic(auto)]

ghost use Rattle.std.specs.Prelude.{◌≡◌, ◌≤◌, length, replicate};
ghost use Rattle.semantics.specs.Definitions.Layout.{max_terms};
ghost use Rattle.semantics.specs.Definitions.Calls.{admission};
ghost use Rattle.table_terms.specs.Decoded.{decoded_bytes};
ghost use Rattle.call_admit.specs.Admissions.{held_by, AdmissionIs, HallAdmitted};

use answers::{Reason, Refusal};
use hall_layout::{HALL_SIZE, Index};
use table_terms::DECODED;

// The tests on a hall, once its table of so many terms is decoded.
fn admit_hall(
    decoded: &[u8; DECODED],
    terms: usize,
    hall: &[u8],
    index: &mut Index,
) -> Result<(), Refusal>
    requires { terms ≤ max_terms }
    ensures { HallAdmitted decoded.now terms hall.now (held_by result index.new) }
{
    if hall.len() != HALL_SIZE {
        return Err(Reason::WrongLength.at(0));
    }
    if !hall_check::well_formed(decoded, terms, hall, index) {
        return Err(Reason::Malformed.at(0));
    }
    Ok(())
}

// Whether a table and a hall are admitted; of an admitted hall the index that is lent is filled. Refused by 1 to 9 with the
// table's place, by 10 where the hall has another length, by 11 where it is not well formed.
pub fn admit(
    table: &[u8],
    hall: &[u8],
    decoded: &mut [u8; DECODED],
    index: &mut Index,
) -> Result<(), Refusal>
    requires { decoded.old ≡ replicate decoded_bytes 0 }
    ensures { AdmissionIs (held_by result index.new) decoded.new hall.now (admission table.now hall.now) }
{
    let accepted = table_read::read_table(table, decoded)?;
    admit_hall(decoded, accepted.terms, hall, index)
}
