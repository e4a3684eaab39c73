// The dotted version vector set: what the clock of one key means, and the laws of that meaning.
#![tactic(auto)]

mod laws;
mod writes;

pub use laws::{clock_laws, merge_laws};
pub use writes::{Dot, Sibling};
