// One entry of a schedule (document 01's choice) on a configuration (hall) that a run holds: looked at, or made.
//
// A look only reads and answers by which rule an entry would move, and what is short; steps look. What is made answers the
// same. Both go by what stands at the position (`choice_act`) or at the node (`choice_inner`), and by the same tests.
#![tactic(auto)]

ghost use Rattle.hall_held.specs.Holds.{Running};
ghost use Rattle.hall_held.specs.Choices.{EntryLooked, EntryMade};
ghost use Rattle.answers.specs.Answers.{entry_of};

use answers::{Entry, Move, Reason};
use choice_inner::{act_inside, look_inside};
use hall_layout::Index;
use table_terms::DECODED;

// What an entry of either kind is answered. Nothing changes.
pub fn look(
    decoded: &[u8; DECODED],
    hall: &[u8],
    index: &Index,
    entry: Entry,
) -> Result<Move, Reason>
    requires { Running decoded.now hall.now index.now.starts index.now.components }
    ensures { EntryLooked decoded.now hall.now index.now.starts index.now.components
        (entry_of entry) result }
{
    match entry {
        Entry::Act { position } => choice_act::look_act(decoded, hall, index, position),
        Entry::Inside { position, node } => look_inside(decoded, hall, index, position, node),
    }
}

// An entry of either kind made, where it is accepted. A run is its one caller, so that the compiler makes one loop of
// the two.
pub fn make(
    decoded: &[u8; DECODED],
    hall: &mut [u8],
    index: &mut Index,
    entry: Entry,
) -> Result<Move, Reason>
    requires { Running decoded.now hall.old index.old.starts index.old.components }
    ensures { EntryMade decoded.now hall.old index.old.starts index.old.components
        (entry_of entry) result hall.new index.new.starts index.new.components }
{
    match entry {
        Entry::Act { position } => choice_act::act(decoded, hall, index, position),
        Entry::Inside { position, node } => act_inside(decoded, hall, index, position, node),
    }
}
