// What writing a sentence answers: how many bytes it wrote, or the refusal.
ghost use Rattle.answers.specs.Answered.{SentenceTold};

use crate::refusals::Refusal;

// 0, and the sentence's length; or the number of the refusal, whose place is always 0, with the length as it was.
pub fn tell_sentence(answer: Result<usize, Refusal>, length: &mut usize) -> u8
    ensures { SentenceTold answer result length.old length.new }
{
    match answer {
        Ok(bytes) => {
            *length = bytes;
            0
        }
        Err(refusal) => refusal.reason.number(),
    }
}
