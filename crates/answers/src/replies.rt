// The reply to an entry of a schedule (document 01's choice): the move, with what its test found short; or why not.
ghost use Rattle.std.specs.Prelude.{◌≡◌, None};
ghost use Rattle.answers.specs.Answers.{shortage_of};
ghost use Rattle.answers.specs.Answered.{shortage_words, tells_short};

use crate::rules::Rule;

// What the test of reads against counts found, where they are not enough: the lowest channel (tray) that is short, and by
// how many.
#[derive(Clone, Copy, PartialEq, Eq)]
pub struct Short {
    pub channel: u8,
    pub by: u8,
}

// A move: its rule, with what its test found short. A rule that makes no test finds nothing short. The reply to an entry is
// a move or the reason why there is none.
#[derive(Clone, Copy, PartialEq, Eq)]
pub struct Move {
    pub rule: Rule,
    pub short: Option<Short>,
}

impl Move {
    // By a rule, with nothing short.
    pub fn by(rule: Rule) -> Self
        ensures { result ≡ record { rule = rule; short = None } }
    {
        Move { rule, short: None }
    }
}

// That a choice moved, as a sentence is told it: the number of the rule, and what was short then. The number comes from C
// and may be no rule's.
#[derive(Clone, Copy, PartialEq, Eq)]
pub struct Moved {
    pub rule: u8,
    pub short: Option<Short>,
}

// What was short, as its tray and by how many; 0 0 where nothing was.
pub fn shortage_words(shortage: Option<Short>) -> [u8; 2]
    ensures { result ≡ shortage_words (shortage_of shortage) }
{
    match shortage {
        None => [0, 0],
        Some(short) => [short.channel, short.by],
    }
}

// Whether the two bytes of a shortage tell one. Only 0 0 tell none, so that no two pairs have the same sentence.
pub fn tells_short(tray: u8, by: u8) -> bool
    ensures { result ≡ tells_short tray by }
{
    if tray != 0 {
        return true;
    }
    by != 0
}
