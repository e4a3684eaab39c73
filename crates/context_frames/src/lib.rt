// Contexts as bytes: read from lent bytes, and written into lent memory.
#![tactic(auto)]

mod reading;
mod seen_keys;
mod writing;

pub use reading::read_context;
pub use seen_keys::KeyedContext;
pub use writing::write_context;
