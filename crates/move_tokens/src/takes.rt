// IN and REP: a component (station) takes a token from its channel (tray) and gives way to what its continuation opens
// into; a repeated take stays behind that.
ghost use Rattle.std.specs.Prelude.{◌≡◌};
ghost use Rattle.answers.specs.Answers.{number_of_rule};
ghost use Rattle.move_tokens.specs.Tokens.{take_number, repeats, CanLookTake, TakeLooked, CanTestCrowded, CrowdedTested, term_of, CanWriteSuccessors, SuccessorsWritten, CanTake, TokenTaken};

use answers::{Move, Reason, Rule};
use hall_held::replace_component;
use hall_layout::{COMPONENT_BODY, IDLE_SIZE, Index, KIND_WAITING, MAX_COMPONENTS};
use hall_open::{component_count, write_components, write_idle};
use table_records::{PAR, REPEATED_TAKE};
use table_terms::DECODED;

// What a take may lay down, in bytes: as many components as a process is wide, and the take itself.
const SUCCESSORS_SIZE: usize = IDLE_SIZE * (MAX_COMPONENTS + 1);

// The same where its continuation opens into one component at most.
const SUCCESSOR_SIZE: usize = IDLE_SIZE * 2;

// Whether the record of a take, by its kind, is a repeated take's.
fn repeats(kind: u8) -> bool
    ensures { result ≡ repeats kind }
{
    kind == REPEATED_TAKE
}

fn take_rule(repeated: bool) -> Rule
    ensures { number_of_rule result ≡ take_number repeated }
{
    if repeated { Rule::Rep } else { Rule::In }
}

// Whether there are too many components once one has given way to what a process opens into and so many more. The width
// bounds what opens, so that counting is needed near the limit only.
fn is_crowded(decoded: &[u8; DECODED], term: usize, more: usize, components: usize) -> bool
    requires { CanTestCrowded decoded.now term more components }
    ensures { CrowdedTested decoded.now term more components result }
{
    let others = components - 1 + more;
    if others + usize::from(table_terms::breadth_at(decoded, term)) <= MAX_COMPONENTS {
        return false;
    }
    MAX_COMPONENTS < others + component_count(decoded, term)
}

// What IN or REP is answered at a component that waits on the take or repeated take of this number. An empty channel is
// told before too many components.
pub fn look_take(
    decoded: &[u8; DECODED],
    hall: &[u8],
    components: usize,
    term: u8,
) -> Result<Move, Reason>
    requires { CanLookTake decoded.now hall.now components term }
    ensures { TakeLooked decoded.now hall.now components term result }
{
    let i = usize::from(term);
    let channel = usize::from(table_terms::first_at(decoded, i));
    let continuation = usize::from(table_terms::second_at(decoded, i));
    let repeated = repeats(table_terms::kind_at(decoded, i));
    let staying = usize::from(repeated);
    let count = hall[channel];
    if count == 0 {
        return Err(Reason::EmptyChannel);
    }
    if is_crowded(decoded, continuation, staying, components) {
        return Err(Reason::TooManyComponents);
    }
    Ok(Move::by(take_rule(repeated)))
}

// The bytes of what stands in the take's place afterwards: the answer is how many they are.
fn write_successors(decoded: &[u8; DECODED], term: u8, successors: &mut [u8]) -> usize
    requires { CanWriteSuccessors decoded.now term successors.old }
    ensures { SuccessorsWritten decoded.now term successors.new result }
{
    let i = usize::from(term);
    let end = write_components(
        decoded,
        usize::from(table_terms::second_at(decoded, i)),
        successors,
        0,
    );
    if repeats(table_terms::kind_at(decoded, i)) {
        return write_idle(successors, end, KIND_WAITING, term);
    }
    end
}

// IN or REP at a position, by way of a buffer for what is laid down.
fn take_by(
    decoded: &[u8; DECODED],
    hall: &mut [u8],
    index: &mut Index,
    position: usize,
    successors: &mut [u8],
)
    requires can_take { CanTake decoded.now hall.old index.old.starts index.old.components position }
    requires can_write_successors { CanWriteSuccessors decoded.now (term_of hall.old index.old.starts position) successors.old }
    ensures { TokenTaken decoded.now hall.old index.old.starts index.old.components position
        hall.new index.new.starts index.new.components }
{
    let begin = index.starts[position];
    let term = hall[begin + COMPONENT_BODY];
    let channel = usize::from(table_terms::first_at(decoded, usize::from(term)));
    hall[channel] -= 1;
    let end = write_successors(decoded, term, successors);
    replace_component(hall, index, position, &successors[..end], end / IDLE_SIZE);
}

// IN or REP at a position. A continuation that is not two side by side opens into one component at most: only the others
// take a buffer for as many as may be.
pub fn take(decoded: &[u8; DECODED], hall: &mut [u8], index: &mut Index, position: usize)
    requires { CanTake decoded.now hall.old index.old.starts index.old.components position }
    ensures { TokenTaken decoded.now hall.old index.old.starts index.old.components position
        hall.new index.new.starts index.new.components }
{
    let begin = index.starts[position];
    let term = usize::from(hall[begin + COMPONENT_BODY]);
    let continuation = usize::from(table_terms::second_at(decoded, term));
    if table_terms::kind_at(decoded, continuation) == PAR {
        let mut successors = [0u8; SUCCESSORS_SIZE];
        take_by(decoded, hall, index, position, &mut successors);
    } else {
        let mut successors = [0u8; SUCCESSOR_SIZE];
        take_by(decoded, hall, index, position, &mut successors);
    }
}
