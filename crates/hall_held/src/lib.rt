// The configuration (hall) that a run holds in lent bytes, with an index of where each component (station) begins: a
// component gives way to others, or a part of one to other bytes, and the index follows.
//
// Positions are looked up and never searched for. Each replacement is one splice of the bytes and one pass over the
// entries behind; where one component stands in the place and keeps its size, neither the bytes behind it nor the index
// are touched.
#![tactic(auto)]

ghost use Rattle.std.specs.Prelude.{◌≡◌, ◌+◌, ◌-◌, ◌≤◌, get_or};
ghost use Rattle.hall_layout.specs.Layout.{index_size};
ghost use Rattle.hall_held.specs.Starts.{StartsSet, moved, spaced, CanMoveStarts, CanSpaceStarts, CanRenumber, Renumbered};
ghost use Rattle.hall_held.specs.Holds.{CanReplace, Replaced, CanReplacePart, ReplacedPart};

use buffer::splice;
use hall_layout::{IDLE_SIZE, INDEX_SIZE, Index};

// The n entries from `from` on, moved to the same or a lower place: the lowest first. Each becomes lower by `less` and
// then higher by `more`.
fn lower_starts(
    starts: &mut [usize; INDEX_SIZE],
    from: usize,
    to: usize,
    n: usize,
    less: usize,
    more: usize,
)
    requires { (to ≤ from) × CanMoveStarts starts.old from n less more }
    ensures { StartsSet starts.old to 0 n (moved starts.old from less more)
        starts.new }
{
    for i in 0..n {
        starts[to + i] = starts[from + i] - less + more;
    }
}

// The same to a higher place: the highest first.
fn raise_starts(
    starts: &mut [usize; INDEX_SIZE],
    from: usize,
    to: usize,
    n: usize,
    less: usize,
    more: usize,
)
    requires { (from ≤ to) × (to + n ≤ index_size) × CanMoveStarts starts.old from n less more }
    ensures { StartsSet starts.old to 0 n (moved starts.old from less more)
        starts.new }
{
    for left in (0..n).rev() {
        starts[to + left] = starts[from + left] - less + more;
    }
}

// The entries of n idle components that follow one another: the first has its own.
fn space_starts(starts: &mut [usize; INDEX_SIZE], first: usize, n: usize)
    requires { CanSpaceStarts starts.old first n }
    ensures { StartsSet starts.old first 1 n (spaced (get_or starts.old first 0))
        starts.new }
{
    let begin = starts[first];
    for i in 1..n {
        starts[first + i] = begin + IDLE_SIZE * i;
    }
}

// The entries after the component at a position has given way to `pieces` components, by which the bytes there became
// fewer by `less` and then more by `more`.
fn renumber(
    starts: &mut [usize; INDEX_SIZE],
    components: usize,
    position: usize,
    pieces: usize,
    less: usize,
    more: usize,
)
    requires { CanRenumber starts.old components position pieces less more }
    ensures { Renumbered starts.old components position pieces less more starts.new }
{
    let next = position + 1;
    let behind = components - position;
    if pieces == 1 {
        if less == more {
            return;
        }
        lower_starts(starts, next, next, behind, less, more);
        return;
    }
    if pieces == 0 {
        lower_starts(starts, next, position, behind, less, more);
        return;
    }
    raise_starts(starts, next, position + pieces, behind, less, more);
    space_starts(starts, position, pieces);
}

// The component at a position gives way to as many others as `pieces` says, whose bytes are `new`: idle ones, or one of
// any kind.
pub fn replace_component(
    hall: &mut [u8],
    index: &mut Index,
    position: usize,
    new: &[u8],
    pieces: usize,
)
    requires { CanReplace hall.old index.old.starts index.old.components position new.now pieces }
    ensures component { Replaced hall.old index.old.starts index.old.components position new.now pieces
        hall.new index.new.starts index.new.components }
    ensures count { index.new.components ≡ index.old.components - 1 + pieces }
{
    let begin = index.starts[position];
    let end = index.starts[position + 1];
    let used = index.starts[index.components];
    splice(hall, begin, end, used, new);
    let less = end - begin;
    renumber(
        &mut index.starts,
        index.components,
        position,
        pieces,
        less,
        new.len(),
    );
    index.components = index.components - 1 + pieces;
}

// The bytes from..to, inside the component at a position, give way to `new`.
pub fn replace_part(
    hall: &mut [u8],
    index: &mut Index,
    position: usize,
    from: usize,
    to: usize,
    new: &[u8],
)
    requires { CanReplacePart hall.old index.old.starts index.old.components position from to new.now }
    ensures part { ReplacedPart hall.old index.old.starts index.old.components position from to
        new.now hall.new index.new.starts }
    ensures components { index.new.components ≡ index.old.components }
{
    let used = index.starts[index.components];
    splice(hall, from, to, used, new);
    renumber(
        &mut index.starts,
        index.components,
        position,
        1,
        to - from,
        new.len(),
    );
}
