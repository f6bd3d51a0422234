// The stored hall (document 01, "The stored hall"): its numbers, and the walk over a transaction's nodes.
//
// Every number of the stored form stands here, each under one name: the channels are those of `records`, and what
// follows from a limit of a table is made from the number that `terms` has for it. The walk only reads, and takes any
// bytes: what lies past their end counts as a leaf.
#![tactic(auto)]

ghost use Rattle.std.specs.Prelude.{◌≡◌, ◌≤◌, ◌<◌, length, replicate};
ghost use Rattle.hall_layout.specs.Layout.{index_size};
ghost use Rattle.hall_layout.specs.Nodes.{node_size, pending_behind, passed, node_start, tree_end};

use buffer::byte_at;
pub use table_records::CHANNELS;
use table_terms::{MAX_BRANCHES, MAX_LENGTH, MAX_WIDTH};

// Bytes of kind: three of components (stations) and two of nodes. Numbers and no enum, since the bytes are the stored
// form, which C lends.
pub const KIND_WAITING: u8 = 20;

pub const KIND_TRANSACTION: u8 = 21;

pub const KIND_FORK: u8 = 22;

pub const KIND_LEAF: u8 = 23;

pub const KIND_OUTPUT: u8 = 24;

// A hall, in bytes.
pub const HALL_SIZE: usize = 11344;

// A channel's (tray's) largest count. A hall begins with the counts of all channels.
pub const MAX_COUNT: u8 = 255;

// A component that is no transaction: its kind, and a term or a channel behind it.
pub const IDLE_SIZE: usize = 2;

pub const COMPONENT_BODY: usize = 1;

// A transaction's kind, term and snapshot. Its nodes follow.
pub const TRANSACTION_HEAD: usize = IDLE_SIZE + CHANNELS;

// A fork, without its sides.
pub const FORK_SIZE: usize = 1;

// A leaf's parts, behind its kind: its term, its log's length, its log. A log has room for the longest path.
pub const LEAF_TERM: usize = 1;

pub const LEAF_LOG_LENGTH: usize = 2;

pub const LEAF_LOG: usize = 3;

pub const LOG_SIZE: usize = MAX_LENGTH as usize;

pub const LEAF_SIZE: usize = LEAF_LOG + LOG_SIZE;

// A log's byte is a channel and what a read or a write adds to it. All are below ACTIONS.
pub const READ_OFFSET: u8 = 0;

pub const WRITE_OFFSET: u8 = CHANNELS as u8;

pub const ACTIONS: u8 = 2 * WRITE_OFFSET;

// A leaf's byte for the retry that needs no record.
pub const NO_TERM: u8 = 255;

// A hall has room for what the widest process opens into.
pub const MAX_COMPONENTS: usize = MAX_WIDTH as usize;

// The entries of an index: where each component begins, and one more for where the last one ends.
pub const INDEX_SIZE: usize = MAX_COMPONENTS + 1;

// The index of a hall's components (stations): where each begins and where the last one ends, and how many there are.
#[derive(Clone, Copy)]
pub struct Index {
    pub starts: [usize; INDEX_SIZE],
    pub components: usize,
}

impl Index {
    // Of no component: what is lent to be filled.
    pub fn new() -> Self
        ensures { result ≡ record { starts = replicate index_size 0; components = 0 } }
    {
        Index {
            starts: [0; INDEX_SIZE],
            components: 0,
        }
    }
}

// The nodes of a transaction of as many branches as there may be: a fork for each leaf but one.
pub const MAX_NODES: u8 = 2 * MAX_BRANCHES - 1;

// How far a walk came over a tree's nodes: the offset, how many subtrees are still to come there, and how many nodes
// were still to be passed.
#[derive(Clone, Copy)]
pub struct Walk {
    pub at: usize,
    pub pending: usize,
    pub left: usize,
}

// The bytes that a node of this kind takes, a fork without its sides.
pub fn node_size(kind: u8) -> usize
    ensures { result ≡ node_size kind }
{
    if kind == KIND_FORK {
        FORK_SIZE
    } else {
        LEAF_SIZE
    }
}

// How many subtrees are to come behind a node of this kind: of a fork its two sides, of a leaf none, and the others.
pub fn pending_behind(kind: u8, pending: usize) -> usize
    requires { (0 < pending) × (pending ≤ 256) }
    ensures { result ≡ pending_behind kind pending }
{
    if kind == KIND_FORK {
        pending + 1
    } else {
        pending - 1
    }
}

// Past `nodes` nodes, in preorder, of the tree that begins at an offset, or past all of them. A fork and a leaf have a
// turn of their own, so that the processor foresees the next node and need not wait for this one's kind.
pub fn pass_nodes(s: &[u8], tree: usize, nodes: u8) -> Walk
    requires { tree ≤ length s.now }
    ensures { result ≡ passed s.now nodes 1 tree }
{
    let mut at = tree;
    let mut pending: usize = 1;
    for left in (0..usize::from(nodes)).rev() {
        let kind = byte_at(s, at);
        if kind == KIND_FORK {
            pending = pending_behind(kind, pending);
            at += node_size(kind);
        } else {
            pending = pending_behind(kind, pending);
            at += node_size(kind);
            if pending == 0 {
                return Walk { at, pending, left };
            }
        }
    }
    Walk {
        at,
        pending,
        left: 0,
    }
}

// Where node number k, in preorder, of the tree that begins at an offset begins, if there is one.
pub fn node_start(s: &[u8], tree: usize, k: u8) -> Option<usize>
    requires { tree ≤ length s.now }
    ensures { result ≡ node_start s.now tree k }
{
    let walk = pass_nodes(s, tree, k);
    if walk.pending == 0 {
        None
    } else {
        Some(walk.at)
    }
}

// The end of the tree of at most 8 branches that begins at an offset.
pub fn tree_end(s: &[u8], tree: usize) -> usize
    requires { tree ≤ length s.now }
    ensures { result ≡ tree_end s.now tree }
{
    pass_nodes(s, tree, MAX_NODES).at
}
