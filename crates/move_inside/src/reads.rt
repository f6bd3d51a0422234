// Reads: whether ARDOK (rule 8) or ARDF (rule 9), with what is short, and the move of either.
ghost use Rattle.std.specs.Prelude.{◌≡◌, ◌<◌};
ghost use Rattle.hall_layout.specs.Layout.{channels};
ghost use Rattle.move_inside.specs.LeafBytes.{CanLogAction};
ghost use Rattle.move_inside.specs.FoundMoves.{CanTestRead, ReadShortageFound, ReadRuleFound};
ghost use Rattle.move_inside.specs.MadeMoves.{read_move, ReadMade};

use crate::actions::log_action;
use answers::{Move, Rule, Short};
use hall_layout::{LEAF_LOG, LEAF_LOG_LENGTH, LEAF_TERM, NO_TERM, READ_OFFSET};
use table_terms::DECODED;

// What the counts that stand at `snapshot` lack for the log of the leaf at an offset, with one more read, of a channel.
fn read_shortage(hall: &[u8], snapshot: usize, at: usize, channel: u8) -> Option<Short>
    requires { CanTestRead hall.now snapshot at × (channel < channels) }
    ensures { ReadShortageFound hall.now snapshot at channel result }
{
    let size = usize::from(hall[at + LEAF_LOG_LENGTH]);
    move_logs::shortage_with(hall, at + LEAF_LOG, size, channel, snapshot)
}

// The move of a read with what is short: by ARDOK where nothing is, else by ARDF.
fn move_of_read(short: Option<Short>) -> Move
    ensures { result ≡ read_move short }
{
    let rule = if short.is_some() {
        Rule::Ardf
    } else {
        Rule::Ardok
    };
    Move { rule, short }
}

// ARDOK where they lack nothing, else ARDF with what is short.
pub fn read_rule(hall: &[u8], snapshot: usize, at: usize, channel: u8) -> Move
    requires { CanTestRead hall.now snapshot at × (channel < channels) }
    ensures { ReadRuleFound hall.now snapshot at channel result }
{
    move_of_read(read_shortage(hall, snapshot, at, channel))
}

// The read made: logged by ARDOK where nothing is short; else, by ARDF, the leaf becomes the retry that has no record.
pub fn make_read(
    decoded: &[u8; DECODED],
    hall: &mut [u8],
    snapshot: usize,
    at: usize,
    channel: u8,
) -> Move
    requires can_test_read { CanTestRead hall.old snapshot at × (channel < channels) }
    requires can_log_action { CanLogAction hall.old at }
    ensures { ReadMade decoded.now hall.old snapshot at channel result hall.new }
{
    let short = read_shortage(hall, snapshot, at, channel);
    match short {
        None => log_action(decoded, hall, at, READ_OFFSET + channel),
        Some(_) => hall[at + LEAF_TERM] = NO_TERM,
    }
    move_of_read(short)
}
