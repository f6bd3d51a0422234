// Where the table of an input ends.
ghost use Rattle.print_report.specs.Tables.{TableUpTo};

use table_records::{START, parse};

// The offset behind the first start record, which is found by stepping over records; the input's length where none is
// found. No record is tested on the way.
pub fn table_end(input: &[u8]) -> usize
    ensures { TableUpTo input.now result }
{
    let mut at: usize = 0;
    while let Ok(record) = parse(input, at) {
        at = record.next;
        if record.kind == START {
            return at;
        }
    }
    input.len()
}
