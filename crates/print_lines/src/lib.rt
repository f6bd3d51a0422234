// The lines of a printed run (document 01, "The printed run"), written on a page: a letter, numbers behind a space each,
// and a newline.
#![tactic(auto)]

ghost use Rattle.print_decimals.specs.Page.{Room, Appended};
ghost use Rattle.print_lines.specs.Lines.{words_of, number_line, net_word};
ghost use Rattle.semantics.specs.Definitions.Report.{channel_line};

use print_decimals::{Page, net};

// What stands before a word, and what ends a line.
const SPACE: u8 = b' ';

const NEWLINE: u8 = b'\n';

// The letters that lines begin with: of a run, of counters, of a channel (tray), and of components (stations): an
// output, one that waits, a transaction (attempt).
pub const LETTER_RUN: u8 = b'R';

pub const LETTER_COUNTERS: u8 = b'C';

const LETTER_CHANNEL: u8 = b'T';

pub const LETTER_OUTPUT: u8 = b'P';

pub const LETTER_WAITING: u8 = b'W';

pub const LETTER_TRANSACTION: u8 = b'A';

// Numbers, each behind a space.
fn write_words(page: &mut Page<'_>, words: &[usize])
    requires { Room page.old (words_of words.now) }
    ensures { Appended page.old (words_of words.now) page.new }
{
    for word in words {
        page.byte(SPACE);
        page.decimal(*word);
    }
}

// A line of numbers.
pub fn write_line(page: &mut Page<'_>, letter: u8, words: &[usize])
    requires { Room page.old (number_line letter words.now) }
    ensures { Appended page.old (number_line letter words.now) page.new }
{
    page.byte(letter);
    write_words(page, words);
    page.byte(NEWLINE);
}

// The net of a channel, behind a space.
fn write_net(page: &mut Page<'_>, first: u8, last: u8)
    requires { Room page.old (net_word first last) }
    ensures { Appended page.old (net_word first last) page.new }
{
    page.byte(SPACE);
    page.signed(net(first, last));
}

// The line of a channel: its number, its first count, its net with the sign, its last count.
pub fn write_channel(page: &mut Page<'_>, channel: usize, first: u8, last: u8)
    requires { Room page.old (channel_line channel first last) }
    ensures { Appended page.old (channel_line channel first last) page.new }
{
    page.byte(LETTER_CHANNEL);
    write_words(page, &[channel, usize::from(first)]);
    write_net(page, first, last);
    write_words(page, &[usize::from(last)]);
    page.byte(NEWLINE);
}
