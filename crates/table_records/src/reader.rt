// The reader that draws a table's records. Its functions are thin: the work is done on a slice and an offset.
ghost use Rattle.std.specs.Prelude.{◌≡◌};
ghost use Rattle.table_records.specs.ParsedRecords.{ParsedRecordIs};

use crate::{NoRecord, Record, record_at};

// The offset of a table's first record.
const FIRST_RECORD: usize = 0;

// The table that was lent, and where in it the next record begins.
#[derive(Clone, Copy)]
pub struct Reader<'a> {
    table: &'a [u8],
    at: usize,
}

impl<'a> Reader<'a> {
    // At the first record.
    pub fn new(table: &'a [u8]) -> Reader<'a>
        ensures { result ≡ record { table = table.entry; at = 0 } }
    {
        Reader {
            table,
            at: FIRST_RECORD,
        }
    }

    // At another offset of the same table, as that behind a record.
    pub fn seek(self, at: usize) -> Reader<'a>
        ensures { result ≡ record { table = self.entry.table; at = at } }
    {
        Reader {
            table: self.table,
            at,
        }
    }

    // What stands at the reader's offset. A whole record has the offset behind it, for `seek`.
    pub fn parse_next(self) -> Result<Record, NoRecord>
        ensures { ParsedRecordIs self.entry.table.now self.entry.at result }
    {
        record_at(self.table, self.at)
    }
}

// What stands at an offset of a table, drawn by a reader, for callers that keep a slice and an offset.
pub fn parse(table: &[u8], at: usize) -> Result<Record, NoRecord>
    ensures { ParsedRecordIs table.now at result }
{
    Reader::new(table).seek(at).parse_next()
}
