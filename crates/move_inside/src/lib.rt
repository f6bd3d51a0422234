// Moves inside an open transaction (attempt): rules 8 to 13, at a node of its tree.
//
// `rule_at` only reads and tells the rule with what is short; `move_at` makes the move. Both go by the redex at the node, which redexes
// decides, and try a read against the transaction's snapshot by one test, in reads. The rules of one kind stand in a
// file of their own: reads (ARDOK or ARDF), actions (what ARDOK and AWR store), alternatives (AOI, AOF, AOE).
#![tactic(auto)]

mod actions;
mod alternatives;
mod reads;
mod redexes;

ghost use Rattle.std.specs.Prelude.{◌≡◌};
ghost use Rattle.move_inside.specs.FoundMoves.{CanReadRule, RuleFound};
ghost use Rattle.move_inside.specs.MadeMoves.{CanMoveNode, NodeMoved};

use answers::{Move, Reason, Rule};
use hall_layout::{IDLE_SIZE, Index, WRITE_OFFSET};
use redexes::{Redex, redex_at};
use table_terms::DECODED;

// The rule for the node that begins at an offset, of a transaction with its snapshot at another, and what is short; or
// that there is none.
pub fn rule_at(
    decoded: &[u8; DECODED],
    hall: &[u8],
    snapshot: usize,
    at: usize,
) -> Result<Move, Reason>
    requires { CanReadRule decoded.now hall.now snapshot at }
    ensures { RuleFound decoded.now hall.now snapshot at result }
{
    match redex_at(decoded, hall, at) {
        Some(Redex::Read { channel }) => Ok(reads::read_rule(hall, snapshot, at, channel)),
        Some(Redex::Write { channel: _ }) => Ok(Move::by(Rule::Awr)),
        Some(Redex::OrElse) => Ok(Move::by(Rule::Aoi)),
        Some(Redex::LeftEnds) => Ok(Move::by(Rule::Aoe)),
        Some(Redex::LeftRetries) => Ok(Move::by(Rule::Aof)),
        None => Err(Reason::NoRule),
    }
}

// The node that begins at an offset moves, if there is a rule for it. The answer is what `rule_at` tells of it.
pub fn move_at(
    decoded: &[u8; DECODED],
    hall: &mut [u8],
    index: &mut Index,
    position: usize,
    at: usize,
) -> Result<Move, Reason>
    requires { CanMoveNode decoded.now hall.old index.old.starts index.old.components position at }
    ensures node { NodeMoved decoded.now hall.old index.old.starts index.old.components position at result
        hall.new index.new.starts }
    ensures components { index.new.components ≡ index.old.components }
{
    match redex_at(decoded, hall, at) {
        Some(Redex::Read { channel }) => {
            let snapshot = index.starts[position] + IDLE_SIZE;
            Ok(reads::make_read(decoded, hall, snapshot, at, channel))
        }
        Some(Redex::Write { channel }) => {
            actions::log_action(decoded, hall, at, WRITE_OFFSET + channel);
            Ok(Move::by(Rule::Awr))
        }
        Some(Redex::OrElse) => {
            alternatives::split(decoded, hall, index, position, at);
            Ok(Move::by(Rule::Aoi))
        }
        Some(Redex::LeftEnds) => {
            alternatives::keep_left(hall, index, position, at);
            Ok(Move::by(Rule::Aoe))
        }
        Some(Redex::LeftRetries) => {
            alternatives::drop_left(hall, index, position, at);
            Ok(Move::by(Rule::Aof))
        }
        None => Err(Reason::NoRule),
    }
}
