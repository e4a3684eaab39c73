// What one who read a key has seen of it.
use clock::Context;

#[derive(Clone, Copy, PartialEq, Eq, Debug)]
pub struct KeyedContext {
    pub key: u8,
    pub context: Context,
}
