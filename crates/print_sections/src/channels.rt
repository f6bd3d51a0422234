// The counts of channels (trays), and their lines.
ghost use Rattle.std.specs.Prelude.{◌≡◌, ◌≤◌, ◌<◌, length, take};
ghost use Rattle.semantics.specs.Definitions.Layout.{channels as Layout·channels};
ghost use Rattle.semantics.specs.Definitions.Report.{channel_lines};
ghost use Rattle.print_decimals.specs.Page.{HasRoom, Printed};
ghost use Rattle.print_sections.specs.Limits.{channel_most, channels_most};
ghost use Rattle.print_sections.specs.Printed.{channel_text};

use hall_layout::CHANNELS;
use print_decimals::Page;
use print_lines::write_channel;

// The counts that a hall begins with.
pub fn counts_of(hall: &[u8]) -> [u8; CHANNELS]
    requires { Layout·channels ≤ length hall.now }
    ensures { result ≡ take Layout·channels hall.now }
{
    let mut counts = [0u8; CHANNELS];
    counts.copy_from_slice(&hall[..CHANNELS]);
    counts
}

// The line of a channel, with its first count and its last; nothing for one that was and is empty.
fn channel_line(page: &mut Page<'_>, channel: usize, first: u8, last: u8)
    requires { (channel < Layout·channels) × HasRoom channel_most page.old }
    ensures { Printed channel_most page.old (channel_text channel first last) page.new }
{
    if first == 0 && last == 0 {
        return;
    }
    write_channel(page, channel, first, last);
}

// The lines of all channels, from the counts before a run and those after it: a hall's first bytes.
pub fn channel_lines(page: &mut Page<'_>, first: &[u8], last: &[u8])
    requires { (Layout·channels ≤ length first.now) × (Layout·channels ≤ length last.now)
        × HasRoom channels_most page.old }
    ensures { Printed channels_most page.old
        (channel_lines 0 (take Layout·channels first.now) (take Layout·channels last.now)) page.new }
{
    for i in 0..CHANNELS {
        channel_line(page, i, first[i], last[i]);
    }
}
