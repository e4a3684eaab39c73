// The number of a column, 0 to 23.
ghost use Rattle.std.specs.Prelude.{◌<◌};

#[derive(Clone, Copy, PartialEq, Eq, Debug)]
pub struct ColumnIndex {
    pub index: u8,
    ghost within: { index < 24 },
}
