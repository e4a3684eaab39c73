// A column record that keeps the bounds: at most four values, never more than the top, and a top of at most 999,999.
ghost use Rattle.std.specs.Prelude.{◌≡◌, ◌+◌, ◌-◌, ◌<◌, ◌≤◌, min, max, if◌then◌else◌, nat_le};
ghost use Rattle.clock.specs.Memory.{top_of, count_of};

use crate::rows::Row;

// top (4), count (1)
#[derive(Clone, Copy, PartialEq, Eq, Debug)]
pub struct Column {
    pub top: u32,
    pub count: u8,
    ghost few: { count ≤ 4 },
    ghost within: { count ≤ top },
    ghost low: { top ≤ 999999 },
}

impl Column {
    // With the first n of its values alone.
    pub fn first(self, n: u32) -> Column
        ensures top { result.top ≡ self.top }
        ensures count { result.count ≡ min n self.count }
    {
        Column {
            top: self.top,
            count: n.min(u32::from(self.count)) as u8,
        }
    }

    // The merge: the column with the higher top, this one where they are equal, with those of its values that the other has not seen replaced.
    pub fn merge(self, other: Column) -> Column
        ensures top { result.top ≡ max self.top other.top }
        ensures count { result.count ≡ (if nat_le other.top self.top then min (self.top - other.top + other.count) self.count else min (other.top - self.top + self.count) other.count) }
    {
        if other.top <= self.top {
            self.first(self.top - other.top + u32::from(other.count))
        } else {
            other.first(other.top - self.top + u32::from(self.count))
        }
    }
}

// The row, checked: one that breaks a bound is the empty column.
impl From<Row> for Column {
    ghost from_gives = { λ r c. (c.top ≡ top_of r) × (c.count ≡ count_of r) };

    fn from(row: Row) -> Column {
        if row.count <= 4 && u32::from(row.count) <= row.top && row.top <= 999_999 {
            Column {
                top: row.top,
                count: row.count,
            }
        } else {
            // no `default()`: none can be derived for a type with facts about its fields
            Column { top: 0, count: 0 }
        }
    }
}

// As it lies in memory.
impl From<Column> for Row {
    ghost from_gives = { λ c r. (top_of r ≡ c.top) × (count_of r ≡ c.count) };

    fn from(column: Column) -> Row {
        Row {
            top: column.top,
            count: column.count,
        }
    }
}
