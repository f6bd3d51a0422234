// What showing a turn of a table's opening answers: the turn; none, where there is no such turn; or the refusal.
ghost use Rattle.answers.specs.Answered.{TurnTold};

use crate::refusals::Refusal;

// A component (station) that was just laid down, in its two bytes.
#[derive(Clone, Copy, PartialEq, Eq)]
pub struct Station {
    pub kind: u8,
    pub body: u8,
}

// What a turn lays down, if anything, and how many terms are then left to open.
#[derive(Clone, Copy, PartialEq, Eq)]
pub struct Turn {
    pub laid: Option<Station>,
    pub left: usize,
}

// What a turn laid down, as C is told.
const LAID_NOTHING: u8 = 0;

const LAID_STATION: u8 = 1;

const LAID_PAST_END: u8 = 2;

// 0, place 0, whether the turn lays down a station, the station, 0 0 where there is none, and how many terms are then left
// to open; past the end none. Or the number of the refusal and its place, with all else 0.
pub fn tell_turn(
    answer: Result<Option<Turn>, Refusal>,
    laid: &mut u8,
    station: &mut [u8; 2],
    left: &mut usize,
    place: &mut usize,
) -> u8
    ensures { TurnTold answer result place.new laid.new station.new left.new }
{
    *place = 0;
    *laid = LAID_NOTHING;
    *station = [0, 0];
    *left = 0;
    match answer {
        Ok(shown) => {
            match shown {
                None => *laid = LAID_PAST_END,
                Some(turn) => {
                    *left = turn.left;
                    match turn.laid {
                        None => {}
                        Some(new) => {
                            *laid = LAID_STATION;
                            *station = [new.kind, new.body];
                        }
                    }
                }
            }
            0
        }
        Err(refusal) => {
            *place = refusal.place;
            refusal.reason.number()
        }
    }
}
