// A page: a lent slice that texts and numbers are written into, one behind another. The numbers are in decimal.
#![tactic(auto)]

ghost use Rattle.std.specs.Prelude.{◌≡◌, [], ◌∷◌, ◌+◌, ◌≤◌, ◌<◌, length};
ghost use Rattle.semantics.specs.Definitions.Run.{net};
ghost use Rattle.semantics.specs.Definitions.Report.{decimal, signed};
ghost use Rattle.print_decimals.specs.Wrote.{Wrote};
ghost use Rattle.print_decimals.specs.Page.{Begun, Room, Appended};

// A lent slice that is written from its front on, and where the next byte goes. It has its own digits: of std's
// formatting no clause says that it does not fail where there is room.
#[derive(Drop)]
pub struct Page<'a> {
    out: &'a mut [u8],
    end: usize,
}

impl<'a> Page<'a> {
    pub fn new(out: &'a mut [u8]) -> Page<'a>
        ensures { Begun out.entry.ghost_name out.old result }
    {
        Page { out, end: 0 }
    }

    // How many bytes are written.
    pub fn len(&self) -> usize
        ensures { result ≡ self.now.end }
    {
        self.end
    }

    pub fn byte(&mut self, byte: u8)
        requires { Room self.old (byte ∷ []) }
        ensures { Appended self.old (byte ∷ []) self.new }
    {
        self.out[self.end] = byte;
        self.end += 1;
    }

    pub fn text(&mut self, text: &[u8])
        requires { Room self.old text.now }
        ensures { Appended self.old text.now self.new }
    {
        let end = self.end + text.len();
        self.out[self.end..end].copy_from_slice(text);
        self.end = end;
    }

    pub fn decimal(&mut self, n: usize)
        requires { Room self.old (decimal n) }
        ensures { Appended self.old (decimal n) self.new }
    {
        self.end = write_decimal(self.out, self.end, n);
    }

    // A signed number: a minus sign where it is negative, and no sign elsewhere.
    pub fn signed(&mut self, n: i16)
        requires { Room self.old (signed n) }
        ensures { Appended self.old (signed n) self.new }
    {
        if n < 0 {
            self.byte(b'-');
        }
        self.decimal(usize::from(n.unsigned_abs()));
    }
}

// One byte: the answer is the offset behind it.
fn write_byte(out: &mut [u8], at: usize, byte: u8) -> usize
    requires { at < length out.old }
    ensures { Wrote out.old at (byte ∷ []) out.new result }
{
    out[at] = byte;
    at + 1
}

// A number's digits, the last one behind those of its tenth: the answer is the offset behind them. It goes from digit to
// digit in a register: by the page, which keeps it in memory, a report of 80 lines takes 1.5 times as long.
fn write_decimal(out: &mut [u8], at: usize, n: usize) -> usize
    requires { at + length (decimal n) ≤ length out.old }
    ensures { Wrote out.old at (decimal n) out.new result }
{
    if n < 10 {
        return write_byte(out, at, b'0' + n as u8);
    }
    let end = write_decimal(out, at, n / 10);
    write_byte(out, end, b'0' + (n % 10) as u8)
}

// The net of a channel (tray): its last count minus its first, from -255 to 255.
pub fn net(first: u8, last: u8) -> i16
    ensures { result ≡ net first last }
{
    i16::from(last) - i16::from(first)
}
