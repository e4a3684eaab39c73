// The two calls for a display host written in C, on setting frames. The crate `host_c` gives them their names for C, as pointers and lengths.
#![tactic(auto)]

mod exports;
mod merging;

pub use exports::{zabrusko_check_frame, zabrusko_merge_frames};
