// What a process of a decoded table opens into: its components (stations) written and counted, turn by turn. And opening
// a table in a lent hall (document 01, "The stored hall"): the counts, the components of the start term, and zeros to
// the end.
#![tactic(auto)]

mod components;
mod turns;

ghost use Rattle.std.specs.Prelude.{◌≡◌, length};
ghost use Rattle.hall_layout.specs.Layout.{hall_bytes};
ghost use Rattle.table_terms.specs.Decoded.{AProcess};
ghost use Rattle.hall_open.specs.Opening.{OpeningWritten};

pub use components::{component_count, write_idle};
use hall_layout::CHANNELS;
use table_terms::DECODED;
pub use turns::{show_turn, write_components};

// The opening of a decoded table, whatever stood in the hall before. Only what the counts and the components leave is
// cleared.
pub fn write_opening(decoded: &[u8; DECODED], start: usize, hall: &mut [u8])
    requires a_process { AProcess decoded.now start }
    requires hall_len { length hall.old ≡ hall_bytes }
    ensures { OpeningWritten decoded.now start hall.new }
{
    let table = &decoded[..];
    buffer::write_at(hall, 0, &table[..CHANNELS]);
    let end = write_components(decoded, start, hall, CHANNELS);
    let rest = hall.len() - end;
    buffer::clear(hall, end, rest);
}
