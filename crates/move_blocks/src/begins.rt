// ATST: a block becomes a transaction (attempt).
ghost use Rattle.std.specs.Prelude.{◌≡◌, ◌≤◌, length};
ghost use Rattle.semantics.specs.Definitions.Moves.{act};
ghost use Rattle.hall_layout.specs.Layout.{channels};
ghost use Rattle.hall_held.specs.Choices.{CanApply, Applied};
ghost use Rattle.move_blocks.specs.TransactionBegin.{first_leaf, begun_bytes};

use buffer::write_at;
use hall_held::replace_component;
use hall_layout::{
    CHANNELS, COMPONENT_BODY, IDLE_SIZE, Index, KIND_LEAF, KIND_TRANSACTION, LEAF_LOG,
    LEAF_LOG_LENGTH, LEAF_SIZE, LEAF_TERM, TRANSACTION_HEAD,
};
use move_logs::Log;
use table_terms::DECODED;

// A transaction of one leaf, in bytes.
const BEGUN: usize = TRANSACTION_HEAD + LEAF_SIZE;

// The leaf at which an expression begins: the one with the empty log.
fn first_leaf(expression: u8) -> [u8; LEAF_SIZE]
    ensures { result ≡ first_leaf expression }
{
    let log = Log::empty();
    let mut leaf = [0u8; LEAF_SIZE];
    leaf[0] = KIND_LEAF;
    leaf[LEAF_TERM] = expression;
    leaf[LEAF_LOG_LENGTH] = log.length;
    write_at(&mut leaf, LEAF_LOG, &log.actions);
    leaf
}

// The transaction of a block: the counts of now are its snapshot.
fn begun(hall: &[u8], block: u8, expression: u8) -> [u8; BEGUN]
    requires { channels ≤ length hall.now }
    ensures { result ≡ begun_bytes hall.now block expression }
{
    let leaf = first_leaf(expression);
    let mut new = [0u8; BEGUN];
    new[0] = KIND_TRANSACTION;
    new[COMPONENT_BODY] = block;
    write_at(&mut new, IDLE_SIZE, &hall[..CHANNELS]);
    write_at(&mut new, TRANSACTION_HEAD, &leaf);
    new
}

// ATST: the block at a position becomes a transaction with the counts of now as its snapshot, and its expression at one
// leaf, with the empty log.
pub fn begin(decoded: &[u8; DECODED], hall: &mut [u8], index: &mut Index, position: usize)
    requires { CanApply decoded.now hall.old index.old.starts index.old.components (act position) 4 }
    ensures { Applied decoded.now hall.old index.old.starts index.old.components
        (act position) 4 hall.new index.new.starts index.new.components }
{
    let at = index.starts[position];
    let block = hall[at + COMPONENT_BODY];
    let expression = table_terms::first_at(decoded, usize::from(block));
    let new = begun(hall, block, expression);
    replace_component(hall, index, position, &new, 1);
}
