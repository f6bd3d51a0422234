// The call that runs a schedule (document 01's list of choices) on a stored hall.
#![tactic(auto)]

ghost use Rattle.std.specs.Prelude.{◌≡◌};
ghost use Rattle.semantics.specs.Definitions.Calls.{run_call};
ghost use Rattle.semantics.specs.Promises.{Promised, OnRuns, Demands};
ghost use Rattle.answers.specs.Answers.{run_call_of, RunCaseDecided, buffers_of};

use answers::{Counters, RunAnswer};
use hall_layout::Index;
use table_terms::DECODED;

// Runs a schedule, choice by choice, up to its end or to the first that is refused, and counts what was done. Refused
// by 1 to 11 it leaves the hall and the counters as they were.
pub fn run(table: &[u8], hall: &mut [u8], choices: &[u8], counters: Counters) -> RunAnswer
    ensures equation { run_call_of result hall.new
        ≡ run_call table.now (buffers_of hall.old counters) choices.now }
    ensures decided { RunCaseDecided result }
    ensures promised { Promised OnRuns }
    ensures demands { Promised Demands }
{
    let mut decoded = [0u8; DECODED];
    let mut index = Index::new();
    match call_admit::admit(table, hall, &mut decoded, &mut index) {
        Ok(()) => choice_run::run_held(&decoded, hall, &mut index, choices, counters),
        Err(refusal) => RunAnswer {
            outcome: Err(refusal.reason),
            place: refusal.place,
            done: 0,
            counters,
        },
    }
}
