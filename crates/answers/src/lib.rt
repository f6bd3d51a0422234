// Every answer of the calls: its cases, what they say in the terms of the definitions (specs/Answers), and what C is told
// of them (specs/Answered). The calls above answer with these types, and the exports tell C what they answered.
//
// A call that C makes returns a number, 0 for none, and sets all else in the lent places: each module has its call's
// answer, and the function that tells it. Only a sentence that is refused sets nothing: its length stays as it was.
//
// A call that may be refused answers a `Result`, whose error is the refusal: why, and where.
#![tactic(auto)]

mod choices;
mod refusals;
mod replies;
mod rules;
mod runs;
mod sentences;
mod steps;
mod suggestions;
mod tallies;
mod turns;
mod verdicts;

pub use choices::{Entry, KIND_ACT, KIND_INSIDE, choice_words};
pub use refusals::{Reason, Refusal};
pub use replies::{Move, Moved, Short, shortage_words, tells_short};
pub use rules::Rule;
pub use runs::{RunAnswer, outcome_number, tell_run};
pub use sentences::tell_sentence;
pub use steps::{Step, tell_step};
pub use suggestions::tell_suggestion;
pub use tallies::{Counters, count_rule, counters_in, tally_words};
pub use turns::{Station, Turn, tell_turn};
pub use verdicts::tell_verdict;
