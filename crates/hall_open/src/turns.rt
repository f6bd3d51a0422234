// Opening a process turn by turn (document 02, Q-4): a stack of the numbers of terms still to open, the next one on top,
// a turn, the loop that makes all turns, and the one that makes so many.
ghost use Rattle.std.specs.Prelude.{◌≡◌, ◌≤◌, ◌<◌, length};
ghost use Rattle.hall_layout.specs.Layout.{max_components};
ghost use Rattle.table_terms.specs.Decoded.{max_terms, AProcess};
ghost use Rattle.hall_open.specs.Opening.{CanWriteComponents, ComponentsWritten};
ghost use Rattle.hall_open.specs.Turns.{AfterNext, CanTurn, TurnMade, TurnsBegun, TurnsMade, TurnShown};

use crate::components::write_single;
use answers::{Station, Turn};
use hall_layout::{COMPONENT_BODY, IDLE_SIZE, MAX_COMPONENTS};
use table_records::PAR;
use table_terms::DECODED;

// The stack's entries: never more terms wait than the process is wide, so that there is nothing to test.
pub const STACK: usize = MAX_COMPONENTS;

// How far an opening is: how many terms wait on the stack, the number of the next one and of the one after it, and the
// offset behind what is laid down. The two numbers stand on the stack as well; but many turns would wait for what the one
// before has just stored there.
#[derive(Clone, Copy)]
pub struct Progress {
    pub waiting: usize,
    pub next: usize,
    pub after: usize,
    pub end: usize,
}

// The number of the term after the next one, where two or more wait; where fewer do, any number will do.
fn after_next(stack: &[u8; STACK], waiting: usize) -> usize
    requires { waiting ≤ max_components }
    ensures { AfterNext stack.now waiting result }
{
    let at = if waiting < 2 { 0 } else { waiting - 2 };
    usize::from(stack[at])
}

impl Progress {
    // Before the first turn: the process at a term number waits alone.
    fn begin(stack: &mut [u8; STACK], term: usize, at: usize) -> Progress
        requires { (term < max_terms) × (length stack.old ≡ max_components) }
        ensures { TurnsBegun stack.old term at stack.new result.waiting result.next result.end }
    {
        stack[0] = term as u8;
        Progress {
            waiting: 1,
            next: term,
            after: 0,
            end: at,
        }
    }

    // After one turn, where a term waits: two side by side give way to their sides, the left one next; any other process
    // is laid down, if it opens into a component.
    fn turn(self, decoded: &[u8; DECODED], stack: &mut [u8; STACK], hall: &mut [u8]) -> Progress
        requires { CanTurn decoded.now stack.old self.waiting self.next self.after hall.old self.end }
        ensures { TurnMade decoded.now stack.old self.waiting hall.old self.end
            stack.new result.waiting result.next result.after hall.new result.end }
    {
        let waiting = self.waiting;
        let term = self.next;
        let below = waiting - 1;
        if table_terms::kind_at(decoded, term) == PAR {
            let left = table_terms::first_at(decoded, term);
            let right = table_terms::second_at(decoded, term);
            let more = waiting + 1;
            stack[below] = right;
            stack[waiting] = left;
            return Progress {
                waiting: more,
                next: usize::from(left),
                after: usize::from(right),
                end: self.end,
            };
        }
        let end = write_single(decoded, term, hall, self.end);
        Progress {
            waiting: below,
            next: self.after,
            after: after_next(stack, below),
            end,
        }
    }
}

// The components of the process at a term number, from an offset on, from left to right, by all its turns: the answer is
// the offset behind them.
pub fn write_components(decoded: &[u8; DECODED], term: usize, hall: &mut [u8], at: usize) -> usize
    requires { CanWriteComponents decoded.now term hall.old at }
    ensures { ComponentsWritten decoded.now term hall.old at hall.new result }
{
    let mut stack = [0u8; STACK];
    let mut progress = Progress::begin(&mut stack, term, at);
    while progress.waiting != 0 {
        progress = progress.turn(decoded, &mut stack, hall);
    }
    progress.end
}

// So many turns, or fewer where nothing waits any more.
fn make_turns(
    decoded: &[u8; DECODED],
    term: usize,
    turns: usize,
    stack: &mut [u8; STACK],
    hall: &mut [u8],
    at: usize,
) -> Progress
    requires can_write_components { CanWriteComponents decoded.now term hall.old at }
    requires stack_len { length stack.old ≡ max_components }
    ensures { TurnsMade decoded.now term turns hall.old at stack.new result.waiting
        result.next result.after hall.new result.end }
{
    let mut progress = Progress::begin(stack, term, at);
    for _ in 0..turns {
        if progress.waiting == 0 {
            return progress;
        }
        progress = progress.turn(decoded, stack, hall);
    }
    progress
}

// The turn of this number, counted from 0, in the opening of the process at a term number, if there is one: it is never
// refused.
pub fn show_turn(decoded: &[u8; DECODED], term: usize, number: usize) -> Option<Turn>
    requires { AProcess decoded.now term }
    ensures { TurnShown decoded.now term number result }
{
    let mut stack = [0u8; STACK];
    let mut laid = [0u8; IDLE_SIZE * MAX_COMPONENTS];
    let before = make_turns(decoded, term, number, &mut stack, &mut laid, 0);
    let at = before.end;
    if before.waiting == 0 {
        return None;
    }
    let made = before.turn(decoded, &mut stack, &mut laid);
    let left = made.waiting;
    if made.end == at {
        return Some(Turn { laid: None, left });
    }
    let station = Station {
        kind: laid[at],
        body: laid[at + COMPONENT_BODY],
    };
    Some(Turn {
        laid: Some(station),
        left,
    })
}
