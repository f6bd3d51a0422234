// The counters (document 01's tally): how many transactions committed, failed at their commit, and ended in retry.
ghost use Rattle.std.specs.Prelude.{◌≡◌};
ghost use Rattle.semantics.specs.Definitions.Run.{fresh_counters, counted_at};
ghost use Rattle.answers.specs.Answers.{number_of_rule, counters_of, counted_by};
ghost use Rattle.answers.specs.Answered.{tally_words, counters_in};

use crate::rules::Rule;

#[derive(Clone, Copy, PartialEq, Eq)]
pub struct Counters {
    pub commits: u32,
    pub failed: u32,
    pub retries: u32,
}

// A counter after a move by the rule of this number: one more where it is the rule that this counter counts. One that has
// come to its top stays.
fn counted_at(counts: Rule, rule: u8, counter: u32) -> u32
    ensures { result ≡ counted_at (number_of_rule counts) rule counter }
{
    if rule == counts.number() {
        return counter.saturating_add(1);
    }
    counter
}

// Brings a lent tally up to date after a move.
pub fn count_rule(counters: &mut Counters, rule: u8)
    ensures { counters.new ≡ counted_by counters.old rule }
{
    *counters = counters.count(rule);
}

impl Counters {
    // The fresh tally: nothing counted yet.
    pub fn fresh() -> Self
        ensures { counters_of result ≡ fresh_counters }
    {
        Counters {
            commits: 0,
            failed: 0,
            retries: 0,
        }
    }

    // The tally after a move by the rule of this number: a number that none of the three counts leaves it as it is.
    pub fn count(self, rule: u8) -> Self
        ensures { result ≡ counted_by self rule }
    {
        Counters {
            commits: counted_at(Rule::Atok, rule, self.commits),
            failed: counted_at(Rule::Atfail, rule, self.failed),
            retries: counted_at(Rule::Atre, rule, self.retries),
        }
    }
}

// Counters as the numbers of a tally.
pub fn tally_words(counters: Counters) -> [u32; 3]
    ensures { result ≡ tally_words (counters_of counters) }
{
    [counters.commits, counters.failed, counters.retries]
}

// The counters that a lent tally holds.
pub fn counters_in(tally: &[u32; 3]) -> Counters
    ensures { counters_of result ≡ counters_in tally.now }
{
    Counters {
        commits: tally[0],
        failed: tally[1],
        retries: tally[2],
    }
}
