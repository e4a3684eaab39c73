// State frames: checked, merged into lent memory, loaded and written.
#![tactic(auto)]

mod checking;
mod merging;
mod taking;
mod writing;

pub use checking::check;
pub use taking::{load_frame, merge_frame};
pub use writing::write_frame;
