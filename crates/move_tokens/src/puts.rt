// OUT: an output (putting station) puts its token into its channel (tray) and is gone.
ghost use Rattle.move_tokens.specs.Tokens.{CanLookOutput, OutputLooked, CanPut, TokenPut};

use answers::{Move, Reason, Rule};
use hall_held::replace_component;
use hall_layout::{COMPONENT_BODY, Index, MAX_COUNT};

// What OUT is answered at an output of this channel: refused where the channel is full.
pub fn look_output(hall: &[u8], channel: u8) -> Result<Move, Reason>
    requires { CanLookOutput hall.now channel }
    ensures { OutputLooked hall.now channel result }
{
    if hall[usize::from(channel)] == MAX_COUNT {
        return Err(Reason::FullChannel);
    }
    Ok(Move::by(Rule::Out))
}

// OUT at a position.
pub fn put(hall: &mut [u8], index: &mut Index, position: usize)
    requires { CanPut hall.old index.old.starts index.old.components position }
    ensures { TokenPut hall.old index.old.starts index.old.components position hall.new index.new.starts index.new.components }
{
    let begin = index.starts[position];
    let channel = usize::from(hall[begin + COMPONENT_BODY]);
    hall[channel] += 1;
    replace_component(hall, index, position, &[], 0);
}
