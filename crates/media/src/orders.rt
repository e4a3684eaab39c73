// A save that is asked for.

// The frame is so many bytes of some lent memory; one that would pass the memory's end stops there. No slice: every caller would have to cut.
#[derive(Clone, Copy, PartialEq, Eq, Debug)]
pub struct Order {
    pub key: u8,
    pub start: usize,
    pub length: usize,
}
