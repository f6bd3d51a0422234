// The printed run (document 01, "The printed run"): from the bytes of an input, a table and the choices behind it, to
// the bytes of its text.
#![tactic(auto)]

mod printing;
mod tables;

ghost use Rattle.std.specs.Prelude.{◌≤◌};
ghost use Rattle.semantics.specs.Definitions.Report.{printed_run};
ghost use Rattle.semantics.specs.Promises.{Promised, OnPrintedRuns};
ghost use Rattle.print_decimals.specs.Wrote.{Wrote};
ghost use Rattle.print_decimals.specs.Page.{HasRoom, Printed};
ghost use Rattle.print_sections.specs.Limits.{lines_most};

use hall_layout::HALL_SIZE;
use print_decimals::Page;

// The bytes that a report is written into. No report is longer: none has more than 947 bytes.
pub const OUTPUT: usize = 1024;

// The longest input whose run is printed.
pub const MAX_INPUT: usize = 16384;

// The report on an input, behind what is written.
fn write_report(input: &[u8], page: &mut Page<'_>)
    requires { HasRoom lines_most page.old }
    ensures { Printed lines_most page.old (printed_run input.now) page.new }
{
    if MAX_INPUT < input.len() {
        page.text(b"long\n");
        return;
    }
    let end = tables::table_end(input);
    let mut hall = [0u8; HALL_SIZE];
    printing::print_run(&input[..end], &input[end..], &mut hall, page);
}

// Writes the printed run of an input: the table up to its first start record, the choices behind it. The bytes behind
// the report stay as they were, and the answer is how many bytes it has.
pub fn report(input: &[u8], output: &mut [u8; OUTPUT]) -> usize
    ensures equation { Wrote output.old 0 (printed_run input.now) output.new result }
    ensures short { result ≤ lines_most }
    ensures promised { Promised OnPrintedRuns }
{
    let mut page = Page::new(output);
    write_report(input, &mut page);
    page.len()
}
