// Actions: a read (ARDOK) or a write (AWR) is logged.
ghost use Rattle.std.specs.Prelude.{◌≡◌};
ghost use Rattle.move_inside.specs.LeafBytes.{CanLogAction, logged};

use hall_layout::{LEAF_LOG, LEAF_LOG_LENGTH, LEAF_TERM};
use table_terms::DECODED;

// ARDOK and AWR: the leaf at an offset goes on with what follows its action, and its log has this one more. Nothing
// moves.
pub fn log_action(decoded: &[u8; DECODED], hall: &mut [u8], at: usize, action: u8)
    requires { CanLogAction hall.old at }
    ensures { hall.new ≡ logged decoded.now hall.old at action }
{
    let next = table_terms::second_at(decoded, usize::from(hall[at + LEAF_TERM]));
    let length = hall[at + LEAF_LOG_LENGTH];
    hall[at + LEAF_TERM] = next;
    hall[at + LEAF_LOG_LENGTH] = length + 1;
    hall[at + LEAF_LOG + usize::from(length)] = action;
}
