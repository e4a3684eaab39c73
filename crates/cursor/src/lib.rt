// A cursor over lent bytes, which hands out fields that borrow them.
#![tactic(auto)]

mod cursors;
mod fields;
mod framing;
pub mod tags;

pub use cursors::Cursor;
pub use fields::{ColumnField, Entry, Field, Head, TopField};
