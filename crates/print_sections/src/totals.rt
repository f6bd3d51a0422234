// The lines of a run's numbers and of its counters.
ghost use Rattle.semantics.specs.Definitions.Report.{run_line, counters_line};
ghost use Rattle.answers.specs.Answers.{counters_of};
ghost use Rattle.print_decimals.specs.Page.{HasRoom, Printed};
ghost use Rattle.print_sections.specs.Limits.{run_most, counters_most};

use answers::Counters;
use print_decimals::Page;
use print_lines::{LETTER_COUNTERS, LETTER_RUN, write_line};

// The first line.
pub fn run_line(page: &mut Page<'_>, number: u8, place: usize, done: usize)
    requires { HasRoom run_most page.old }
    ensures { Printed run_most page.old (run_line number place done) page.new }
{
    write_line(page, LETTER_RUN, &[usize::from(number), place, done]);
}

// The line of the counters.
pub fn counters_line(page: &mut Page<'_>, counters: Counters)
    requires { HasRoom counters_most page.old }
    ensures { Printed counters_most page.old (counters_line (counters_of counters)) page.new }
{
    let commits = counters.commits as usize;
    let failed = counters.failed as usize;
    let retries = counters.retries as usize;
    write_line(page, LETTER_COUNTERS, &[commits, failed, retries]);
}
