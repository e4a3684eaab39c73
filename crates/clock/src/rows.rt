// A column record as it lies in lent memory, where it may say anything: top (4), count (1).
ghost use Rattle.std.specs.Prelude.{◌≡◌, slice_index_or};
ghost use Rattle.clock.specs.Memory.{no_row};

#[derive(Clone, Copy, Default, PartialEq, Eq, Debug)]
pub struct Row {
    pub top: u32,
    pub count: u8,
}

// The row of a column, an empty one where so many are not there.
pub(crate) fn row_at(rows: &[Row], column: usize) -> Row
    ensures { result ≡ slice_index_or rows.now column no_row }
{
    rows.get(column).copied().unwrap_or_default()
}
