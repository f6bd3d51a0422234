// Atomic blocks begin and end: ATST (rule 4), ATRE (5), ATFAIL (6) and ATOK (7).
//
// A block begins whenever it waits. Its transaction (attempt) ends at a single leaf: a retry leaf gives the block back;
// at an end leaf the log is held against the hall's own counts, by the one test of reads against counts.
#![tactic(auto)]

mod begins;
mod ends;

pub use begins::begin;
pub use ends::{commit, look_end, restart};
