// What a call is told of that may be refused: a table or a hall that is checked, an opening.
ghost use Rattle.answers.specs.Answers.{verdict_of};
ghost use Rattle.answers.specs.Answered.{VerdictAnswered};

use crate::refusals::Refusal;

// 0, and place 0, whatever was accepted; or the number of the refusal, and its place. The counters of an opened hall are the
// fresh ones, which C has from another call.
pub fn tell_verdict<T: Copy>(answer: Result<T, Refusal>, place: &mut usize) -> u8
    ensures { VerdictAnswered (verdict_of answer) result place.new }
{
    match answer {
        Ok(_) => {
            *place = 0;
            0
        }
        Err(refusal) => {
            *place = refusal.place;
            refusal.reason.number()
        }
    }
}
