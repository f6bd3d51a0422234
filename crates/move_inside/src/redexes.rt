// Redexes: what can move at a node. A look and a move both go by this; what a read does is tried in reads.
ghost use Rattle.move_leaves.specs.Leaves.{CanReadNode};
ghost use Rattle.move_inside.specs.FoundMoves.{RedexFound};

use hall_layout::{FORK_SIZE, KIND_FORK, LEAF_TERM};
use move_leaves::{expression_kind, leaf_kind_at};
use table_records::{END, OR_ELSE, RD, RETRY, WT};
use table_terms::DECODED;

// What a leaf's expression begins with, or how a fork's left side is done. A fork moves by its left side alone. Nothing
// moves at an end leaf, at a retry leaf, and at a fork whose left side is not done.
#[derive(Clone, Copy)]
pub enum Redex {
    Read { channel: u8 },
    Write { channel: u8 },
    OrElse,
    LeftEnds,
    LeftRetries,
}

// The redex at the node that begins at an offset, if it has one.
pub fn redex_at(decoded: &[u8; DECODED], hall: &[u8], at: usize) -> Option<Redex>
    requires { CanReadNode decoded.now hall.now at }
    ensures { RedexFound decoded.now hall.now at result }
{
    if hall[at] == KIND_FORK {
        return match leaf_kind_at(decoded, hall, at + FORK_SIZE) {
            Some(END) => Some(Redex::LeftEnds),
            Some(RETRY) => Some(Redex::LeftRetries),
            _ => None,
        };
    }
    let byte = hall[at + LEAF_TERM];
    let term = usize::from(byte);
    match expression_kind(decoded, byte) {
        RD => Some(Redex::Read {
            channel: table_terms::first_at(decoded, term),
        }),
        WT => Some(Redex::Write {
            channel: table_terms::first_at(decoded, term),
        }),
        OR_ELSE => Some(Redex::OrElse),
        _ => None,
    }
}
