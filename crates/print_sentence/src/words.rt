// The words that a number has in a sentence, behind a comma: those of the rules, then those of the refusals.
#![tactic(auto, unfolding(semantics::specs::Definitions::Sentence::ascii, semantics::specs::Definitions::Sentence::rule_words, semantics::specs::Definitions::Sentence::refusal_words, semantics::specs::Definitions::Sentence::words_for))]

ghost use Rattle.std.specs.Prelude.{◌≡◌};
ghost use Rattle.semantics.specs.Definitions.Sentence.{words_for, rule_words, refusal_words};

// Of a rule; empty where it has none.
pub fn rule_words(rule: u8) -> &'static str
    ensures { result.now ≡ words_for rule_words rule }
{
    match rule {
        1 => ", token put",
        2 => ", token taken",
        3 => ", token taken, repeats",
        4 => ", attempt begun",
        5 => ", attempt given up",
        6 => ", commit failed",
        7 => ", block committed",
        8 => ", read noted",
        9 => ", read failed",
        10 => ", write noted",
        11 => ", two ways opened",
        12 => ", second way kept",
        13 => ", first way kept",
        _ => "",
    }
}

// Of a refusal; empty where it has none.
pub fn refusal_words(number: u8) -> &'static str
    ensures { result.now ≡ words_for refusal_words number }
{
    match number {
        1 => ", table: unknown record",
        2 => ", table: record cut short",
        3 => ", table: too many terms",
        4 => ", table: no such tray",
        5 => ", table: term not earlier",
        6 => ", table: wrong term class",
        7 => ", table: term too large",
        8 => ", table: wrong tokens",
        9 => ", table: no start at end",
        10 => ", hall: wrong length",
        11 => ", hall: not well formed",
        12 => ", no such kind",
        13 => ", choice cut short",
        14 => ", no such station",
        15 => ", station cannot do this",
        16 => ", no such node",
        17 => ", no move at this node",
        18 => ", tray empty",
        19 => ", too many stations",
        20 => ", tray full",
        _ => "",
    }
}
