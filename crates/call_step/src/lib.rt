// The call that makes one choice on a stored hall.
#![tactic(auto)]

ghost use Rattle.std.specs.Prelude.{◌≡◌, length};
ghost use Rattle.semantics.specs.Definitions.Calls.{step_call};
ghost use Rattle.semantics.specs.Promises.{Promised, OnSteps};
ghost use Rattle.answers.specs.Answers.{counters_of, entry_of, buffers_of, step_call_of, StepCaseDecided};
ghost use Rattle.hall_held.specs.Holds.{Running};
ghost use Rattle.call_step.specs.Steps.{NamedBy, OneEntry, HeldStepped};

use answers::{Counters, Entry, KIND_ACT, KIND_INSIDE, Reason, Refusal, Step};
use choice_read::{ACT_SIZE, INSIDE_SIZE};
use hall_layout::Index;
use table_terms::DECODED;

// The choice that a kind, a position and a node name, and how many bytes it has; kind 1 has no node.
fn named(kind: u8, position: u8, node: u8) -> Result<(Entry, usize), Refusal>
    ensures { NamedBy kind position node result }
{
    match kind {
        KIND_ACT => Ok((Entry::Act { position }, ACT_SIZE)),
        KIND_INSIDE => Ok((Entry::Inside { position, node }, INSIDE_SIZE)),
        _ => Err(Reason::UnknownKind.at(0)),
    }
}

// The choice that these bytes are, made on a configuration that is held: looked at, which tells its rule and what is
// short, and then run, where it moves; a refusal stands at the choice's first byte.
fn step_held(
    decoded: &[u8; DECODED],
    hall: &mut [u8],
    index: &mut Index,
    entry: Entry,
    bytes: &[u8],
    counters: Counters,
) -> Result<Step, Refusal>
    requires running { Running decoded.now hall.old index.old.starts index.old.components }
    requires one_entry { OneEntry bytes.now (entry_of entry) }
    ensures { HeldStepped decoded.now hall.old index.old.starts index.old.components
        (entry_of entry) (length bytes.now) (counters_of counters) result hall.new }
{
    let made = match choice_make::look(decoded, hall, index, entry) {
        Ok(made) => made,
        Err(reason) => return Err(reason.at(0)),
    };
    let run = choice_run::run_held(decoded, hall, index, bytes, counters);
    Ok(Step {
        made,
        place: bytes.len(),
        counters: run.counters,
    })
}

// Makes the choice of this kind, at a position and, for kind 2, at a node: a run of that one choice, which tells the
// rule and what was short besides.
pub fn step(
    table: &[u8],
    hall: &mut [u8],
    kind: u8,
    position: u8,
    node: u8,
    counters: Counters,
) -> Result<Step, Refusal>
    ensures equation { step_call_of result (buffers_of hall.new counters)
        ≡ step_call table.now (buffers_of hall.old counters) kind position node }
    ensures decided { StepCaseDecided result }
    ensures promised { Promised OnSteps }
{
    let mut decoded = [0u8; DECODED];
    let mut index = Index::new();
    call_admit::admit(table, hall, &mut decoded, &mut index)?;
    let (entry, size) = named(kind, position, node)?;
    let bytes = [kind, position, node];
    step_held(&decoded, hall, &mut index, entry, &bytes[..size], counters)
}
