// The nodes of a stored transaction (document 01, "The stored hall"): whether the bytes at an offset are a fork or a
// leaf that a decoded table allows.
//
// The bytes may be anything. No expression is walked: the measures of each term stand in the decoded table.
#![tactic(auto)]

ghost use Rattle.std.specs.Prelude.{◌≡◌, ◌+◌, ◌≤◌, length, take, drop};
ghost use Rattle.semantics.specs.Definitions.Layout.{max_terms};
ghost use Rattle.hall_layout.specs.Layout.{log_size, leaf_size};
ghost use Rattle.hall_laws.specs.ReadParts.{is_log};
ghost use Rattle.hall_nodes.specs.NodeTests.{place_limit, RemainingRead, LeafRead, NodeRead};

use hall_layout::{
    ACTIONS, KIND_FORK, KIND_LEAF, LEAF_LOG, LEAF_LOG_LENGTH, LEAF_SIZE, LEAF_TERM, LOG_SIZE,
    NO_TERM,
};
use table_records::Class;
use table_terms::{DECODED, Measures};

// A log's actions have the places below this one, however many they are; the zeros behind it have those from here on.
const ZEROS: u8 = 2 * LOG_SIZE as u8;

// The measures of the expression that a leaf's byte names, of a table of n terms: what remains at the leaf.
pub fn remaining_at(decoded: &[u8; DECODED], n: usize, byte: u8) -> Option<Measures>
    requires { n ≤ max_terms }
    ensures { RemainingRead decoded.now n byte result }
{
    let i = usize::from(byte);
    if i < n {
        return match table_records::class_of(table_terms::kind_at(decoded, i)) {
            Some(Class::Expression) => Some(Measures {
                breadth: table_terms::breadth_at(decoded, i),
                length: table_terms::length_at(decoded, i),
            }),
            Some(Class::Process) => None,
            None => None,
        };
    }
    if byte == NO_TERM {
        return Some(Measures {
            breadth: 1,
            length: 0,
        });
    }
    None
}

// The largest byte that may stand at a place.
fn place_limit(place: u8) -> u8
    ensures { result ≡ place_limit place }
{
    if place < ZEROS { ACTIONS - 1 } else { 0 }
}

// Whether the 16 bytes at an offset are a log of `size` actions, with zeros behind them. Each byte is held against
// its limit with no way out of the loop, so that all are compared at once. The limits are computed: a table of them
// would be stored for each log, and a load across two stores waits for both.
pub fn is_log(s: &[u8], at: usize, size: usize) -> bool
    requires { (size ≤ log_size) × (at + log_size ≤ length s.now) }
    ensures { result ≡ is_log size (take log_size (drop at s.now)) }
{
    let first = ZEROS - size as u8;
    let mut fits = true;
    for i in 0..LOG_SIZE as u8 {
        fits &= s[at + usize::from(i)] <= place_limit(first + i);
    }
    fits
}

// The leaf whose 19 bytes begin at an offset: the branches of its term.
pub fn leaf_at(decoded: &[u8; DECODED], n: usize, s: &[u8], at: usize) -> Option<u8>
    requires { (n ≤ max_terms) × (at + leaf_size ≤ length s.now) }
    ensures { LeafRead decoded.now n s.now at result }
{
    let remaining = remaining_at(decoded, n, s[at + LEAF_TERM])?;
    let size = usize::from(s[at + LEAF_LOG_LENGTH]);
    if LOG_SIZE < size + usize::from(remaining.length) {
        return None;
    }
    is_log(s, at + LEAF_LOG, size).then_some(remaining.breadth)
}

// The node that begins at an offset, with the branches that remain at it itself: a fork has none, a leaf those of its
// term. A tree has a leaf, so that no node begins where fewer bytes are left than a leaf takes.
pub fn node_at(decoded: &[u8; DECODED], n: usize, s: &[u8], at: usize) -> Option<u8>
    requires { (n ≤ max_terms) × (at ≤ length s.now) }
    ensures { NodeRead decoded.now n s.now at result }
{
    if s.len() < at + LEAF_SIZE {
        return None;
    }
    match s[at] {
        KIND_FORK => Some(0),
        KIND_LEAF => leaf_at(decoded, n, s, at),
        _ => None,
    }
}
