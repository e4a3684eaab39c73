// The clock of one key over lent memory: 24 rows, and four value cells for each. Nothing is allocated.
// Rows and cells are lent apart, each of any length, since a host has them as two pieces of fixed memory.
#![tactic(auto)]

mod columns;
mod contexts;
mod indices;
mod keys;
mod listing;
mod owners;
mod parts;
mod rows;

pub use columns::Column;
pub use contexts::Context;
pub use indices::ColumnIndex;
pub use keys::{discard, has_room, merge, put};
pub use listing::{context_of, list};
pub use owners::own_column;
pub use rows::Row;
