// A suggestion: the first entry that is accepted, at the lowest position, there at the lowest node (document 02, Q-2).
// Kind 1 and kind 2 are never both accepted at one position, so it does not matter which is looked at first.
#![tactic(auto)]

ghost use Rattle.std.specs.Prelude.{◌<◌};
ghost use Rattle.hall_held.specs.Holds.{Running};
ghost use Rattle.choice_suggest.specs.Suggestions.{FirstFound, FirstFoundInside, FirstFoundAt};

use answers::Entry;
use choice_act::look_act;
use choice_inner::look_inside;
use hall_layout::{Index, KIND_TRANSACTION, MAX_NODES};
use table_terms::DECODED;

// The first entry of kind 2 that is accepted at the position of a transaction, whose tree has at most MAX_NODES nodes.
fn first_inside(decoded: &[u8; DECODED], hall: &[u8], index: &Index, position: u8) -> Option<Entry>
    requires { Running decoded.now hall.now index.now.starts index.now.components }
    ensures { FirstFoundInside decoded.now hall.now index.now.starts index.now.components
        position result }
{
    for node in 0..MAX_NODES {
        if look_inside(decoded, hall, index, position, node).is_ok() {
            return Some(Entry::Inside { position, node });
        }
    }
    None
}

// The first entry that is accepted at a position.
fn first_at(decoded: &[u8; DECODED], hall: &[u8], index: &Index, position: u8) -> Option<Entry>
    requires { Running decoded.now hall.now index.now.starts index.now.components × (position < index.now.components) }
    ensures { FirstFoundAt decoded.now hall.now index.now.starts index.now.components position
        result }
{
    if look_act(decoded, hall, index, position).is_ok() {
        return Some(Entry::Act { position });
    }
    if hall[index.starts[usize::from(position)]] != KIND_TRANSACTION {
        return None;
    }
    first_inside(decoded, hall, index, position)
}

// The first entry that is accepted; none where none is (document 01's still: quiescent).
pub fn first_accepted(decoded: &[u8; DECODED], hall: &[u8], index: &Index) -> Option<Entry>
    requires { Running decoded.now hall.now index.now.starts index.now.components }
    ensures { FirstFound decoded.now hall.now index.now.starts index.now.components result }
{
    for position in 0..index.components as u8 {
        let first = first_at(decoded, hall, index, position);
        if first.is_some() {
            return first;
        }
    }
    None
}
