// What running a schedule (document 01's list of choices) answers.
ghost use Rattle.std.specs.Prelude.{◌≡◌};
ghost use Rattle.answers.specs.Answers.{outcome_number};
ghost use Rattle.answers.specs.Answered.{RunTold};

use crate::refusals::Reason;
use crate::tallies::{Counters, tally_words};

// The answer of a run: whether it was completed or which refusal ended it, where it stopped, how many entries were done,
// and the counters after them. The place is that of the entry that was refused.
#[derive(Clone, Copy)]
pub struct RunAnswer {
    pub outcome: Result<(), Reason>,
    pub place: usize,
    pub done: usize,
    pub counters: Counters,
}

// How a run ended, as a number: 0 stands for a run that was completed.
pub fn outcome_number(outcome: Result<(), Reason>) -> u8
    ensures { result ≡ outcome_number outcome }
{
    match outcome {
        Ok(()) => 0,
        Err(reason) => reason.number(),
    }
}

// 0, with the length of the choices as the place; or the number of the refusal, and its place; how many choices were done,
// and the tally after them.
pub fn tell_run(answer: RunAnswer, tally: &mut [u32; 3], place: &mut usize, done: &mut usize) -> u8
    ensures { RunTold answer result place.new done.new tally.new }
{
    *place = answer.place;
    *done = answer.done;
    *tally = tally_words(answer.counters);
    outcome_number(answer.outcome)
}
