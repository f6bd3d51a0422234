// Alternatives (orElse): AOI (rule 11), AOF (rule 12) and AOE (rule 13).
ghost use Rattle.std.specs.Prelude.{◌≡◌, [], ◌+◌, ◌≤◌, length, take, drop};
ghost use Rattle.hall_layout.specs.Layout.{leaf_size};
ghost use Rattle.hall_layout.specs.Nodes.{tree_end};
ghost use Rattle.hall_held.specs.Holds.{CanReplacePart, ReplacedPart};
ghost use Rattle.move_inside.specs.LeafBytes.{left_size, fork_bytes, left_bytes, CanSplit};

use buffer::write_at;
use hall_held::replace_part;
use hall_layout::{FORK_SIZE, Index, KIND_FORK, LEAF_SIZE, LEAF_TERM};
use table_terms::DECODED;

// A fork and the leaf that is its left side.
const LEFT_SIZE: usize = FORK_SIZE + LEAF_SIZE;

// A fork of two leaves.
const SPLIT_SIZE: usize = FORK_SIZE + 2 * LEAF_SIZE;

// The leaf at an offset.
fn leaf_bytes(hall: &[u8], at: usize) -> [u8; LEAF_SIZE]
    requires { at + leaf_size ≤ length hall.now }
    ensures { result ≡ take leaf_size (drop at hall.now) }
{
    let mut new = [0u8; LEAF_SIZE];
    let end = at + LEAF_SIZE;
    write_at(&mut new, 0, &hall[at..end]);
    new
}

// A fork of two leaves, one for each side of the orElse whose leaf begins at an offset, each with its log.
fn fork_bytes(decoded: &[u8; DECODED], hall: &[u8], at: usize) -> [u8; SPLIT_SIZE]
    requires { CanSplit hall.now at }
    ensures { result ≡ fork_bytes decoded.now hall.now at }
{
    let term = usize::from(hall[at + LEAF_TERM]);
    let end = at + LEAF_SIZE;
    let leaf = &hall[at..end];
    let mut new = [0u8; SPLIT_SIZE];
    write_at(&mut new, FORK_SIZE, leaf);
    write_at(&mut new, LEFT_SIZE, leaf);
    new[0] = KIND_FORK;
    new[FORK_SIZE + LEAF_TERM] = table_terms::first_at(decoded, term);
    new[LEFT_SIZE + LEAF_TERM] = table_terms::second_at(decoded, term);
    new
}

// AOI: the leaf becomes a fork of two leaves, one for each side, and each has its log.
pub fn split(
    decoded: &[u8; DECODED],
    hall: &mut [u8],
    index: &mut Index,
    position: usize,
    at: usize,
)
    requires { CanSplit hall.old at × CanReplacePart hall.old index.old.starts index.old.components position at (at + leaf_size)
        (fork_bytes decoded.now hall.old at) }
    ensures part { ReplacedPart hall.old index.old.starts index.old.components position at (at + leaf_size)
        (fork_bytes decoded.now hall.old at) hall.new index.new.starts }
    ensures components { index.new.components ≡ index.old.components }
{
    let new = fork_bytes(decoded, hall, at);
    replace_part(hall, index, position, at, at + LEAF_SIZE, &new);
}

// AOF: the fork and its left side, a retry leaf, give way to its right side.
pub fn drop_left(hall: &mut [u8], index: &mut Index, position: usize, at: usize)
    requires { (at + left_size ≤ length hall.old)
        × CanReplacePart hall.old index.old.starts index.old.components position at (at + left_size) [] }
    ensures part { ReplacedPart hall.old index.old.starts index.old.components position at
        (at + left_size) [] hall.new index.new.starts }
    ensures components { index.new.components ≡ index.old.components }
{
    replace_part(hall, index, position, at, at + LEFT_SIZE, &[]);
}

// AOE: the fork gives way to its left side, an end leaf.
pub fn keep_left(hall: &mut [u8], index: &mut Index, position: usize, at: usize)
    requires { (at + left_size ≤ length hall.old) × CanReplacePart hall.old index.old.starts index.old.components position at
        (tree_end hall.old at) (left_bytes hall.old at) }
    ensures part { ReplacedPart hall.old index.old.starts index.old.components position at
        (tree_end hall.old at) (left_bytes hall.old at) hall.new index.new.starts }
    ensures components { index.new.components ≡ index.old.components }
{
    let end = hall_layout::tree_end(hall, at);
    let new = leaf_bytes(hall, at + FORK_SIZE);
    replace_part(hall, index, position, at, end, &new);
}
