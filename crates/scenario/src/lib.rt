// The scenario language: the calls that lines write, what is wrong with a line that writes none, and how both are shown.
#![tactic(auto)]

mod bad_lines;
mod calls;
mod labels;
mod parsing;

pub use bad_lines::{BadLine, Part};
pub use calls::{Action, Call, Spot};
pub use labels::Labelled;
pub use parsing::parse;
