// The sections of a printed run (document 01, "The printed run"): the line of the run, of its counters, those of the
// channels (trays), those of the components (stations).
#![tactic(auto)]

mod channels;
mod components;
mod totals;

ghost use Rattle.std.specs.Prelude.{◌≤◌, length};
ghost use Rattle.semantics.specs.Definitions.Layout.{channels as Layout·channels};
ghost use Rattle.print_decimals.specs.Page.{HasRoom};
ghost use Rattle.print_sections.specs.Limits.{lines_most};
ghost use Rattle.print_sections.specs.Printed.{CanPrintComponents};
ghost use Rattle.print_sections.specs.Totals.{LinesPrinted};

use answers::{RunAnswer, outcome_number};
use channels::channel_lines;
pub use channels::counts_of;
use components::component_lines;
use hall_layout::Index;
use print_decimals::Page;
use totals::counters_line;
pub use totals::run_line;

// The lines of a run whose last hall is held, all sections in order.
pub fn print_lines(hall: &[u8], index: &Index, first: &[u8], answer: RunAnswer, page: &mut Page<'_>)
    requires { CanPrintComponents hall.now index.now.starts index.now.components × (Layout·channels ≤ length first.now)
        × HasRoom lines_most page.old }
    ensures { LinesPrinted hall.now index.now.starts index.now.components first.now answer page.old page.new }
{
    run_line(
        page,
        outcome_number(answer.outcome),
        answer.place,
        answer.done,
    );
    counters_line(page, answer.counters);
    channel_lines(page, first, hall);
    component_lines(hall, index, page);
}
