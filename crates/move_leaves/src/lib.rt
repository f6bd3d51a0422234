// The expressions at the leaves of an open transaction (attempt): their kinds, read from a hall's bytes and a decoded
// table.
#![tactic(auto)]

ghost use Rattle.move_leaves.specs.Leaves.{CanReadKind, ExpressionKindRead, CanReadNode, LeafKindRead};

use hall_layout::{KIND_FORK, LEAF_TERM, NO_TERM};
use table_records::RETRY;
use table_terms::DECODED;

// The kind of the expression that a leaf's byte names. The retry that needs no record is a retry.
pub fn expression_kind(decoded: &[u8; DECODED], term: u8) -> u8
    requires { CanReadKind decoded.now term }
    ensures { ExpressionKindRead decoded.now term result }
{
    if term == NO_TERM {
        return RETRY;
    }
    table_terms::kind_at(decoded, usize::from(term))
}

// The kind of the expression at the node that begins at an offset; none for a fork.
pub fn leaf_kind_at(decoded: &[u8; DECODED], hall: &[u8], at: usize) -> Option<u8>
    requires { CanReadNode decoded.now hall.now at }
    ensures { LeafKindRead decoded.now hall.now at result }
{
    if hall[at] == KIND_FORK {
        return None;
    }
    Some(expression_kind(decoded, hall[at + LEAF_TERM]))
}
