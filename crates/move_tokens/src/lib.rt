// Tokens passed by a component (station) that is idle: OUT (rule 1), IN (2) and REP (3).
//
// A look only reads and tells the rule, or why there is none; what puts or takes makes the move that the look found.
#![tactic(auto)]

mod puts;
mod takes;

pub use puts::{look_output, put};
pub use takes::{look_take, take};
