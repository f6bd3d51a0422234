// A choice and its answer as one English sentence (document 02, Q-1 and Q-3), written into lent bytes.
#![tactic(auto)]

mod words;

ghost use Rattle.std.specs.Prelude.{◌≡◌, ◌++◌};
ghost use Rattle.semantics.specs.Definitions.Report.{decimal};
ghost use Rattle.semantics.specs.Definitions.Sentence.{choice_named, short_named, reply_named, sentence as Sentence·sentence, sentence_call};
ghost use Rattle.semantics.specs.Promises.{Promised, OnSentences};
ghost use Rattle.print_decimals.specs.Page.{HasRoom, Room, Appended, Printed};
ghost use Rattle.answers.specs.Answers.{shortage_of, reply_told, sentence_call_of};
ghost use Rattle.print_sentence.specs.Told.{choice_most, short_most, reply_most};

pub use answers::Moved;
use answers::{KIND_ACT, Reason, Refusal, Short};
use print_decimals::Page;
use words::{refusal_words, rule_words};

// The bytes that a buffer must have. No sentence is longer.
pub const SENTENCE_BYTES: usize = 96;

// A text and a number behind it.
fn write_named(page: &mut Page<'_>, text: &[u8], n: u8)
    requires { Room page.old (text.now ++ decimal n) }
    ensures { Appended page.old (text.now ++ decimal n) page.new }
{
    page.text(text);
    page.decimal(usize::from(n));
}

// A choice. Only one of kind 1 names no node.
fn write_choice(page: &mut Page<'_>, kind: u8, position: u8, node: u8)
    requires { HasRoom choice_most page.old }
    ensures { Printed choice_most page.old (choice_named kind position node) page.new }
{
    write_named(page, b"Kind ", kind);
    write_named(page, b" at station ", position);
    if kind != KIND_ACT {
        write_named(page, b", node ", node);
    }
}

// What was short, where something was.
fn write_short(page: &mut Page<'_>, short: Option<Short>)
    requires { HasRoom short_most page.old }
    ensures { Printed short_most page.old (short_named (shortage_of short)) page.new }
{
    if let Some(short) = short {
        write_named(page, b", tray ", short.channel);
        write_named(page, b" short by ", short.by);
    }
}

// What it was answered: that it moved, and what was short then; or that it was refused with this number.
fn write_reply(page: &mut Page<'_>, reply: Result<Moved, u8>)
    requires { HasRoom reply_most page.old }
    ensures { Printed reply_most page.old (reply_named (reply_told reply)) page.new }
{
    match reply {
        Ok(moved) => {
            write_named(page, b" moved by rule ", moved.rule);
            page.text(rule_words(moved.rule).as_bytes());
            write_short(page, moved.short);
        }
        Err(number) => {
            write_named(page, b" met refusal ", number);
            page.text(refusal_words(number).as_bytes());
        }
    }
}

// Writes the sentence of a choice and its answer to the front of a buffer, whose other bytes are left: that the choice
// moved, by the rule of this number, and which tray was short then and by how many, where one was; or that it was
// refused with this number. A buffer that has no room for every sentence is refused before all else.
pub fn sentence(
    kind: u8,
    position: u8,
    node: u8,
    reply: Result<Moved, u8>,
    buffer: &mut [u8],
) -> Result<usize, Refusal>
    ensures buffer_after { sentence_call_of result buffer.new ≡
        sentence_call kind position node (reply_told reply) buffer.old }
    ensures promised { Promised OnSentences }
{
    if buffer.len() < SENTENCE_BYTES {
        return Err(Reason::ShortBuffer.at(0));
    }
    let mut page = Page::new(buffer);
    write_choice(&mut page, kind, position, node);
    write_reply(&mut page, reply);
    page.byte(b'.');
    Ok(page.len())
}
