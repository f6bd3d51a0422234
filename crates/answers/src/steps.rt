// What making one choice answers.
ghost use Rattle.answers.specs.Answered.{StepTold};

use crate::refusals::Refusal;
use crate::replies::{Move, shortage_words};
use crate::tallies::{Counters, tally_words};

// A choice that was made: its move, the place behind it and the counters after it. Where it is refused, the counters stay
// as they were.
#[derive(Clone, Copy)]
pub struct Step {
    pub made: Move,
    pub place: usize,
    pub counters: Counters,
}

// 0, with the rule by which the choice moved, what was short, the choice's length as the place, and the tally after it; or
// the number of the refusal and its place, with rule 0, nothing short, and the tally as it was.
pub fn tell_step(
    answer: Result<Step, Refusal>,
    before: Counters,
    tally: &mut [u32; 3],
    rule: &mut u8,
    shortage: &mut [u8; 2],
    place: &mut usize,
) -> u8
    ensures { StepTold answer before result place.new rule.new shortage.new
        tally.new }
{
    match answer {
        Ok(step) => {
            *place = step.place;
            *rule = step.made.rule.number();
            *shortage = shortage_words(step.made.short);
            *tally = tally_words(step.counters);
            0
        }
        Err(refusal) => {
            *place = refusal.place;
            *rule = 0;
            *shortage = [0, 0];
            *tally = tally_words(before);
            refusal.reason.number()
        }
    }
}
