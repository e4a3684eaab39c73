// Values that stand in frames as a fixed number of bytes: settings, detents and places.
#![tactic(auto)]

mod detent;
mod measured;
mod place;
mod setting;
mod value;

pub use detent::Detent;
pub use measured::{Measured, lower};
pub use place::Place;
pub use setting::{Setting, are_equal};
pub use value::{Value, read_value, write_value};
