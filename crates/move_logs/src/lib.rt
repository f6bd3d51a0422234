// Logs (document 01, "The stored hall" and "Choices and moves"): as values, and what a stored log needs and writes.
//
// What the reads of a log come to is an array of needs, one for each channel (tray), which a commit takes from the
// counts. One test tells what counts lack for the reads of a log (`shortage`), or of a log with one read more
// (`shortage_with`), whatever the counts are: the hall's own or a snapshot. It takes the reads one by one from a copy of
// the counts (`suffice`), and only where these do not suffice looks for the lowest channel that is short
// (`lowest_lacking`). A stored log is read where it stands, at an offset of a hall's bytes.
#![tactic(auto)]

ghost use Rattle.std.specs.Prelude.{◌≡◌, true, [], ◌∷◌, ◌++◌, ◌+◌, ◌≤◌, ◌<◌, length, take, drop};
ghost use Rattle.semantics.specs.Definitions.Layout.{max_byte, channels, max_actions};
ghost use Rattle.semantics.specs.Definitions.Logs.{empty_log};
ghost use Rattle.answers.specs.Answers.{shortage_of};
ghost use Rattle.move_logs.specs.Needs.{needs_of, taken_by, within_at, short_at, lowered};
ghost use Rattle.move_logs.specs.Writes.{writes_of};
ghost use Rattle.move_logs.specs.Values.{LogIs, OutputsAre, LowestFound};

use answers::Short;
use hall_layout::{CHANNELS, IDLE_SIZE, KIND_OUTPUT, LOG_SIZE, WRITE_OFFSET};

// The components that a log of writes alone becomes, in bytes.
const OUTPUTS_SIZE: usize = IDLE_SIZE * LOG_SIZE;

// A log: how many actions it has, and a byte for each of them, with zeros behind. A leaf stores it so.
#[derive(Clone, Copy)]
pub struct Log {
    pub length: u8,
    pub actions: [u8; LOG_SIZE],
}

// The components (stations) that the writes of a log become, as bytes with zeros behind, and how many they are. An array,
// since nothing is allocated; the zeros behind make it one value for one log.
#[derive(Clone, Copy)]
pub struct Outputs {
    pub bytes: [u8; OUTPUTS_SIZE],
    pub count: usize,
}

impl Log {
    // The empty log.
    pub fn empty() -> Self
        ensures { LogIs result empty_log }
    {
        Log {
            length: 0,
            actions: [0u8; LOG_SIZE],
        }
    }
}

// The counts that begin at an offset.
fn counts_at(s: &[u8], at: usize) -> [u8; CHANNELS]
    requires { at + channels ≤ length s.now }
    ensures { result ≡ take channels (drop at s.now) }
{
    let mut counts = [0u8; CHANNELS];
    counts.copy_from_slice(&s[at..at + CHANNELS]);
    counts
}

// How often each channel is read by the log of so many actions whose bytes begin at an offset.
pub fn needs_of(s: &[u8], at: usize, size: usize) -> [u8; CHANNELS]
    requires { (size ≤ max_actions) × (at + size ≤ length s.now) }
    ensures { result ≡ needs_of (take size (drop at s.now)) }
{
    let log = &s[at..][..size];
    let mut need = [0u8; CHANNELS];
    for &action in log {
        if action < WRITE_OFFSET {
            need[usize::from(action)] += 1;
        }
    }
    need
}

// How many tokens an action takes: a read takes one, a write none.
fn taken_by(action: u8) -> u8
    ensures { result ≡ taken_by action }
{
    u8::from(action < WRITE_OFFSET)
}

// Whether the counts that stand at an offset suffice for the reads of the stored log of so many actions at another, with
// one action more at its end: they are taken one by one from a copy of the counts, up to the first that finds none. Reads
// and writes go the same way, so that no branch has to be foreseen.
fn suffice(s: &[u8], at: usize, size: usize, action: u8, counts: usize) -> bool
    requires { (size ≤ max_actions) × (at + size ≤ length s.now) × (counts + channels ≤ length s.now) }
    ensures { result ≡ within_at (needs_of (take size (drop at s.now) ++ (action ∷ []))) s.now
        counts }
{
    let log = &s[at..][..size];
    let mut left = counts_at(s, counts);
    for &byte in log {
        let taken = taken_by(byte);
        let channel = usize::from(byte) % CHANNELS;
        let count = left[channel];
        if count < taken {
            return false;
        }
        left[channel] = count - taken;
    }
    taken_by(action) <= left[usize::from(action) % CHANNELS]
}

// The lowest channel that is needed more often than the counts say that stand at an offset, and how many it lacks.
fn lowest_short(s: &[u8], need: [u8; CHANNELS], counts: usize) -> Option<Short>
    requires { counts + channels ≤ length s.now }
    ensures { LowestFound result need s.now counts }
{
    for channel in 0..CHANNELS {
        let count = s[counts + channel];
        let needed = need[channel];
        if count < needed {
            return Some(Short {
                channel: channel as u8,
                by: needed - count,
            });
        }
    }
    None
}

// What the reads of a stored log need, with one action more at its end.
fn needs_with(s: &[u8], at: usize, size: usize, action: u8) -> [u8; CHANNELS]
    requires { (size ≤ max_actions) × (at + size ≤ length s.now) }
    ensures { result ≡ needs_of (take size (drop at s.now) ++ (action ∷ [])) }
{
    let mut need = needs_of(s, at, size);
    if action < WRITE_OFFSET {
        need[usize::from(action)] += 1;
    }
    need
}

// The lowest channel that a stored log with one action more is short of. It stays out of line, so that a test that passes
// is short.
#[inline(never)]
fn lowest_lacking(s: &[u8], at: usize, size: usize, action: u8, counts: usize) -> Option<Short>
    requires { (size ≤ max_actions) × (at + size ≤ length s.now) × (counts + channels ≤ length s.now) }
    ensures { LowestFound result (needs_of (take size (drop at s.now) ++ (action ∷ []))) s.now
        counts }
{
    let need = needs_with(s, at, size, action);
    lowest_short(s, need, counts)
}

// The one test of reads against counts: what the counts that stand at an offset lack for the reads of a stored log with one
// action more at its end.
fn lacking(s: &[u8], at: usize, size: usize, action: u8, counts: usize) -> Option<Short>
    requires { (size ≤ max_actions) × (at + size ≤ length s.now) × (counts + channels ≤ length s.now) }
    ensures { LowestFound result (needs_of (take size (drop at s.now) ++ (action ∷ []))) s.now
        counts }
{
    if suffice(s, at, size, action, counts) {
        return None;
    }
    lowest_lacking(s, at, size, action, counts)
}

// What the counts that stand at an offset lack for the reads of a stored log. The action more is a write, which needs
// nothing.
pub fn shortage(s: &[u8], at: usize, size: usize, counts: usize) -> Option<Short>
    requires { (size ≤ max_actions) × (at + size ≤ length s.now) × (counts + channels ≤ length s.now) }
    ensures { shortage_of result ≡ short_at (take size (drop at s.now)) s.now counts }
{
    lacking(s, at, size, WRITE_OFFSET, counts)
}

// What they lack for its reads and one read more, of a channel.
pub fn shortage_with(s: &[u8], at: usize, size: usize, channel: u8, counts: usize) -> Option<Short>
    requires { (size ≤ max_actions) × (at + size ≤ length s.now) × (channel < channels)
        × (counts + channels ≤ length s.now) }
    ensures { shortage_of result ≡ short_at (take size (drop at s.now) ++ (channel ∷ []))
        s.now counts }
{
    lacking(s, at, size, channel, counts)
}

// The counts of a hall, lowered by needs that they cover.
pub fn take_needs(s: &mut [u8], need: [u8; CHANNELS])
    requires { (channels ≤ length s.old) × (within_at need s.old 0 ≡ true) }
    ensures { s.new ≡ lowered need s.old }
{
    for (channel, &needed) in need.iter().enumerate() {
        s[channel] -= needed;
    }
}

// The components that the writes of a stored log become, in log order.
pub fn outputs_of(s: &[u8], at: usize, size: usize) -> Outputs
    requires { (size ≤ max_actions) × (at + size ≤ length s.now) }
    ensures { OutputsAre result (writes_of (take size (drop at s.now))) }
{
    let log = &s[at..][..size];
    let mut bytes = [0u8; OUTPUTS_SIZE];
    let mut count: usize = 0;
    for &action in log {
        if WRITE_OFFSET <= action {
            let end = count * IDLE_SIZE;
            bytes[end] = KIND_OUTPUT;
            bytes[end + 1] = action - WRITE_OFFSET;
            count += 1;
        }
    }
    Outputs { bytes, count }
}
