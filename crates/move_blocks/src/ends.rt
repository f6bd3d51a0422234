// A transaction (attempt) ends: ATRE, ATFAIL and ATOK.
ghost use Rattle.std.specs.Prelude.{◌≡◌};
ghost use Rattle.move_blocks.specs.TransactionEnd.{CanLookCommit, CommitLooked, CanLookEnd, EndLooked};
ghost use Rattle.move_blocks.specs.TransactionEnd.{CanRestart, Restarted, CanCommit, Committed};

use answers::{Move, Reason, Rule};
use hall_held::replace_component;
use hall_layout::{
    COMPONENT_BODY, IDLE_SIZE, Index, KIND_WAITING, LEAF_LOG, LEAF_LOG_LENGTH, MAX_COMPONENTS,
    TRANSACTION_HEAD,
};
use table_records::{END, RETRY};
use table_terms::DECODED;

// What ends the transaction whose only leaf is the end leaf at an offset: ATOK where the counts of now are enough for the
// log, else ATFAIL with what is short. Only a commit that succeeds is refused for its components.
fn look_commit(hall: &[u8], leaf: usize, components: usize) -> Result<Move, Reason>
    requires { CanLookCommit hall.now leaf components }
    ensures { CommitLooked hall.now leaf components result }
{
    let size = usize::from(hall[leaf + LEAF_LOG_LENGTH]);
    let short = move_logs::shortage(hall, leaf + LEAF_LOG, size, 0);
    if short.is_some() {
        return Ok(Move {
            rule: Rule::Atfail,
            short,
        });
    }
    let outputs = move_logs::outputs_of(hall, leaf + LEAF_LOG, size);
    let after = components - 1 + outputs.count;
    if MAX_COMPONENTS < after {
        return Err(Reason::TooManyComponents);
    }
    Ok(Move::by(Rule::Atok))
}

// What ends the transaction that begins at an offset: ATRE, ATFAIL or ATOK; refused while it has more to do, and where
// a commit would leave too many components.
pub fn look_end(
    decoded: &[u8; DECODED],
    hall: &[u8],
    transaction: usize,
    components: usize,
) -> Result<Move, Reason>
    requires { CanLookEnd decoded.now hall.now components transaction }
    ensures { EndLooked decoded.now hall.now components transaction result }
{
    let leaf = transaction + TRANSACTION_HEAD;
    match move_leaves::leaf_kind_at(decoded, hall, leaf) {
        Some(RETRY) => Ok(Move::by(Rule::Atre)),
        Some(END) => look_commit(hall, leaf, components),
        _ => Err(Reason::WrongComponent),
    }
}

// ATRE and ATFAIL: the transaction at a position gives way to its block.
pub fn restart(hall: &mut [u8], index: &mut Index, position: usize)
    requires { CanRestart hall.old index.old.starts index.old.components position }
    ensures block { Restarted hall.old index.old.starts index.old.components position
        hall.new index.new.starts }
    ensures components { index.new.components ≡ index.old.components }
{
    let at = index.starts[position];
    let new = [KIND_WAITING, hall[at + COMPONENT_BODY]];
    replace_component(hall, index, position, &new, 1);
}

// ATOK: the reads are taken from the counts, and each write becomes an output.
pub fn commit(hall: &mut [u8], index: &mut Index, position: usize)
    requires { CanCommit hall.old index.old.starts index.old.components position }
    ensures { Committed hall.old index.old.starts index.old.components position
        hall.new index.new.starts index.new.components }
{
    let leaf = index.starts[position] + TRANSACTION_HEAD;
    let size = usize::from(hall[leaf + LEAF_LOG_LENGTH]);
    let need = move_logs::needs_of(hall, leaf + LEAF_LOG, size);
    let outputs = move_logs::outputs_of(hall, leaf + LEAF_LOG, size);
    move_logs::take_needs(hall, need);
    let count = outputs.count;
    let bytes = &outputs.bytes[..count * IDLE_SIZE];
    replace_component(hall, index, position, bytes, count);
}
