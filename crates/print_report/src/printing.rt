// What is printed of a table that is opened in a hall and of a run over choices there.
ghost use Rattle.std.specs.Prelude.{◌≡◌, ◌≤◌, length};
ghost use Rattle.hall_layout.specs.Layout.{channels as Layout·channels, hall_bytes};
ghost use Rattle.print_decimals.specs.Page.{HasRoom};
ghost use Rattle.print_sections.specs.Limits.{lines_most};
ghost use Rattle.print_report.specs.Runs.{HallPrinted, RunTextPrinted};

use answers::RunAnswer;
use hall_layout::Index;
use print_decimals::Page;
use print_sections::{counts_of, print_lines, run_line};
use table_terms::DECODED;

// The lines of a run whose last hall is not held yet. One that a run left behind is never refused.
fn print_hall(table: &[u8], hall: &[u8], first: &[u8], answer: RunAnswer, page: &mut Page<'_>)
    requires { (Layout·channels ≤ length first.now) × HasRoom lines_most page.old }
    ensures { HallPrinted table.now hall.now first.now answer page.old page.new }
{
    let mut decoded = [0u8; DECODED];
    let mut index = Index::new();
    if let Ok(()) = call_admit::admit(table, hall, &mut decoded, &mut index) {
        print_lines(hall, &index, first, answer, page);
    }
}

// Opens a table in a hall, runs choices there and prints both. A table that is refused has its first line alone.
pub fn print_run(table: &[u8], choices: &[u8], hall: &mut [u8], page: &mut Page<'_>)
    requires { (length hall.old ≡ hall_bytes) × HasRoom lines_most page.old }
    ensures { RunTextPrinted table.now choices.now hall.old page.old page.new }
{
    match call_open::open_hall(table, hall) {
        Ok(counters) => {
            let first = counts_of(hall);
            let answer = call_run::run(table, hall, choices, counters);
            print_hall(table, hall, &first, answer, page);
        }
        Err(refusal) => run_line(page, refusal.reason.number(), refusal.place, 0),
    }
}
