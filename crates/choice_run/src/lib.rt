// The run of a schedule (document 01's list of choices) on a configuration (hall) that is held: entry after entry, up to
// the end or to the first that is refused.
#![tactic(auto)]

ghost use Rattle.answers.specs.Answers.{counters_of};
ghost use Rattle.hall_held.specs.Holds.{Running};
ghost use Rattle.choice_run.specs.Answers.{Ran};

use answers::{Counters, RunAnswer, count_rule};
use hall_layout::Index;
use table_terms::DECODED;

// Runs a schedule. A refused entry ends the run and is not counted.
pub fn run_held(
    decoded: &[u8; DECODED],
    hall: &mut [u8],
    index: &mut Index,
    schedule: &[u8],
    counters: Counters,
) -> RunAnswer
    requires { Running decoded.now hall.old index.old.starts index.old.components }
    ensures { Ran decoded.now hall.old index.old.starts index.old.components
        schedule.now (counters_of counters) result hall.new }
{
    let mut run = RunAnswer {
        outcome: Ok(()),
        place: 0,
        done: 0,
        counters,
    };
    while let Some(read) = choice_read::parse_entry(schedule, run.place) {
        let Ok(parsed) = read else {
            run.outcome = read.and(Ok(()));
            return run;
        };
        let reply = choice_make::make(decoded, hall, index, parsed.entry);
        let Ok(made) = reply else {
            run.outcome = reply.and(Ok(()));
            return run;
        };
        count_rule(&mut run.counters, made.rule.number());
        run.place = parsed.next;
        run.done += 1;
    }
    run
}
