// Entries of kind 2 (to move inside a transaction): rules 8 to 13, at a position and a node. Looked at, or made: both go by
// what stands at the node, and by the same tests.
#![tactic(auto)]

ghost use Rattle.semantics.specs.Definitions.Moves.{inside};
ghost use Rattle.hall_held.specs.Holds.{Running};
ghost use Rattle.hall_held.specs.Choices.{EntryLooked, EntryMade};
ghost use Rattle.choice_inner.specs.NodeLookups.{CanFindNode, NodeFound};

use answers::{Move, Reason};
use hall_layout::{IDLE_SIZE, Index, KIND_TRANSACTION, TRANSACTION_HEAD};
use table_terms::DECODED;

// Where the node of this number, in preorder, of the transaction at a position begins; or what refuses the entry that
// names it. Looks and moves both go by it.
fn find_node(hall: &[u8], index: &Index, position: usize, node: u8) -> Result<usize, Reason>
    requires { CanFindNode hall.now index.now.starts index.now.components }
    ensures { NodeFound hall.now index.now.starts index.now.components position node result }
{
    if index.components <= position {
        return Err(Reason::NoComponent);
    }
    let transaction = index.starts[position];
    if hall[transaction] != KIND_TRANSACTION {
        return Err(Reason::WrongComponent);
    }
    hall_layout::node_start(hall, transaction + TRANSACTION_HEAD, node).ok_or(Reason::NoNode)
}

// What the entry is answered, by what stands at its node. Nothing changes.
pub fn look_inside(
    decoded: &[u8; DECODED],
    hall: &[u8],
    index: &Index,
    position: u8,
    node: u8,
) -> Result<Move, Reason>
    requires { Running decoded.now hall.now index.now.starts index.now.components }
    ensures { EntryLooked decoded.now hall.now index.now.starts index.now.components
        (inside position node) result }
{
    let p = usize::from(position);
    let at = find_node(hall, index, p, node)?;
    move_inside::rule_at(decoded, hall, index.starts[p] + IDLE_SIZE, at)
}

// The entry made, where it is accepted, by what stands at its node. There are as many components afterwards.
pub fn act_inside(
    decoded: &[u8; DECODED],
    hall: &mut [u8],
    index: &mut Index,
    position: u8,
    node: u8,
) -> Result<Move, Reason>
    requires { Running decoded.now hall.old index.old.starts index.old.components }
    ensures { EntryMade decoded.now hall.old index.old.starts index.old.components
        (inside position node) result hall.new index.new.starts index.new.components }
{
    let p = usize::from(position);
    let at = find_node(hall, index, p, node)?;
    move_inside::move_at(decoded, hall, index, p, at)
}
