// A dot names one write: the column that it was made in, and its counter there, 1 to 999,999.
#[derive(Clone, Copy, PartialEq, Eq, Debug)]
pub struct Dot {
    pub column: u8,
    pub counter: u32,
}

// A value that stands in a state, under its dot.
#[derive(Clone, Copy, PartialEq, Eq, Debug)]
pub struct Sibling<V> {
    pub dot: Dot,
    pub value: V,
}
