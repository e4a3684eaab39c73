// What keeps the newest frame of each key: the trait of all media, a medium of plain slots, and a layer over any medium.
#![tactic(auto)]

mod admission;
mod medium;
mod orders;
mod reading;
mod runs;
mod slot;
mod slots;
mod thrift;

pub use admission::admit;
pub use medium::Medium;
pub use orders::Order;
pub use reading::{hand_over, is_newest};
pub use runs::save_all;
pub use slot::Slots;
pub use thrift::Thrift;
