// What suggesting a choice answers: the choice that is suggested; none, where none is accepted (document 01's still); or the
// refusal.
ghost use Rattle.answers.specs.Answers.{suggest_answer_of};
ghost use Rattle.answers.specs.Answered.{SuggestionAnswered};

use crate::choices::{Entry, choice_words};
use crate::refusals::Refusal;

// 0, place 0, and the choice; kind 0 where no choice is accepted. Or the number of the refusal and its place, and kind 0.
// What is not said is 0.
pub fn tell_suggestion(
    answer: Result<Option<Entry>, Refusal>,
    choice: &mut [u8; 3],
    place: &mut usize,
) -> u8
    ensures { SuggestionAnswered (suggest_answer_of answer) result place.new choice.new }
{
    *place = 0;
    *choice = [0, 0, 0];
    match answer {
        Ok(suggested) => {
            match suggested {
                Some(entry) => *choice = choice_words(entry),
                None => {}
            }
            0
        }
        Err(refusal) => {
            *place = refusal.place;
            refusal.reason.number()
        }
    }
}
