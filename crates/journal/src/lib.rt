// A medium over a lent buffer, to which each save appends an entry.
#![tactic(auto)]

mod appending;
mod entries;
mod journals;
mod opening;
mod reopening;
mod saving;

pub use journals::{Journal, Unopened};
pub use opening::{fresh, open};
pub use reopening::save_and_reopen;
