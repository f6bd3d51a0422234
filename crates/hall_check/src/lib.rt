// Checking that lent bytes are a well-formed hall (document 01, "The stored hall") for a decoded table, and telling
// where each component begins.
//
// The bytes are read once, in place, and may be anything: each scan says how far it came, or that the bytes are
// malformed. A full hall has no byte behind its last component.
#![tactic(auto)]

ghost use Rattle.std.specs.Prelude.{◌≡◌, ◌≤◌, ◌<◌, length, drop};
ghost use Rattle.std.specs.Bool.{then_some};
ghost use Rattle.semantics.specs.Definitions.Layout.{max_terms};
ghost use Rattle.semantics.specs.Definitions.Basics.{zeros};
ghost use Rattle.hall_laws.specs.ReadParts.{waits};
ghost use Rattle.hall_check.specs.Scans.{KindRead, TreeRead, ComponentRead, HallRead};

use hall_layout::{
    CHANNELS, COMPONENT_BODY, IDLE_SIZE, Index, KIND_FORK, KIND_OUTPUT, KIND_TRANSACTION,
    KIND_WAITING, MAX_COMPONENTS, TRANSACTION_HEAD, node_size, pending_behind,
};
use hall_nodes::node_at;
use table_records::{ATOM, REPEATED_TAKE, TAKE};
use table_terms::{DECODED, MAX_BRANCHES};

// Whether nothing but zeros stands from an offset on. The largest byte is found first, with no way out of the loop,
// so that many bytes are compared at once; four quarters are read side by side, so that a turn costs less. By one fold over
// all bytes the check of a small hall takes 1.3 times as long.
pub fn zeros_from(s: &[u8], from: usize) -> bool
    requires { from ≤ length s.now }
    ensures { result ≡ zeros (drop from s.now) }
{
    let quarter = (s.len() - from) / 4;
    let mut top: u8 = 0;
    for i in 0..quarter {
        let at = from + i;
        let low = s[at].max(s[at + quarter]);
        let high = s[at + 2 * quarter].max(s[at + 3 * quarter]);
        top = top.max(low.max(high));
    }
    for i in from + 4 * quarter..s.len() {
        top = top.max(s[i]);
    }
    top == 0
}

// The kind of the term that a byte names, of a table of n terms.
pub fn term_kind(decoded: &[u8; DECODED], n: usize, byte: u8) -> Option<u8>
    requires { n ≤ max_terms }
    ensures { KindRead decoded.now n byte result }
{
    let i = usize::from(byte);
    if i < n {
        return Some(table_terms::kind_at(decoded, i));
    }
    None
}

// Whether a component may wait on a term of this kind: takes, repeated or not, and blocks.
pub fn waits(kind: u8) -> bool
    ensures { result ≡ waits kind }
{
    matches!(kind, TAKE | REPEATED_TAKE | ATOM)
}

// The tree that begins at an offset: the offset behind it. `pending` subtrees are still to come, and each has a branch
// at least, so that a tree of too many branches is given up as soon as it shows: many forks in a row cost no more than
// few. A fork and a leaf each have a way of their own through a turn: the numbers on it are known, and only a leaf ends
// a tree.
pub fn tree_scan(decoded: &[u8; DECODED], n: usize, s: &[u8], tree: usize) -> Option<usize>
    requires { (n ≤ max_terms) × (tree ≤ length s.now) }
    ensures { TreeRead decoded.now n s.now tree result }
{
    let mut pending: usize = 1;
    let mut sum: usize = 0;
    let mut at = tree;
    while sum + pending <= usize::from(MAX_BRANCHES) {
        let branches = node_at(decoded, n, s, at)?;
        let kind = s[at];
        sum += usize::from(branches);
        if kind == KIND_FORK {
            pending = pending_behind(kind, pending);
            at += node_size(kind);
        } else {
            pending = pending_behind(kind, pending);
            at += node_size(kind);
            if pending == 0 {
                return (sum <= usize::from(MAX_BRANCHES)).then_some(at);
            }
        }
    }
    None
}

// The component that begins at an offset: the offset behind it.
pub fn component_scan(decoded: &[u8; DECODED], n: usize, s: &[u8], at: usize) -> Option<usize>
    requires { (n ≤ max_terms) × (at < length s.now) }
    ensures { ComponentRead decoded.now n s.now at result }
{
    let next = at + IDLE_SIZE;
    if s.len() < next {
        return None;
    }
    let body = s[at + COMPONENT_BODY];
    match s[at] {
        KIND_WAITING => {
            let kind = term_kind(decoded, n, body)?;
            waits(kind).then_some(next)
        }
        KIND_OUTPUT => (usize::from(body) < CHANNELS).then_some(next),
        KIND_TRANSACTION => {
            if term_kind(decoded, n, body)? != ATOM {
                return None;
            }
            let tree = at + TRANSACTION_HEAD;
            if s.len() < tree {
                return None;
            }
            tree_scan(decoded, n, s, tree)
        }
        _ => None,
    }
}

// Whether the bytes are a hall that is well formed for a decoded table of n terms: counts, at most 64 components up to
// the first zero byte or the end, and zeros behind them. Of a well-formed one the index that is lent says where each
// component begins and where the last one ends, and how many there are. It is lent and no answer: an index has more than
// 500 bytes, and each function that hands it on would copy them, in a third of the time of a small hall's check.
pub fn well_formed(decoded: &[u8; DECODED], n: usize, s: &[u8], index: &mut Index) -> bool
    requires { n ≤ max_terms }
    ensures { HallRead decoded.now n s.now (then_some result index.new) }
{
    if s.len() < CHANNELS {
        return false;
    }
    index.components = 0;
    index.starts[0] = CHANNELS;
    let mut at = CHANNELS;
    while at < s.len() {
        if s[at] == 0 {
            return zeros_from(s, at);
        }
        if index.components == MAX_COMPONENTS {
            return false;
        }
        match component_scan(decoded, n, s, at) {
            Some(next) => at = next,
            None => return false,
        }
        index.components += 1;
        index.starts[index.components] = at;
    }
    true
}
