// One column: its row, and its four cells. They are slices, since an array of a type parameter would ask a bound on that type's size.
ghost use Rattle.std.specs.Prelude.{◌≡◌, ◌+◌, ◌-◌, ◌<◌, ◌≤◌, min, max, length};
ghost use Rattle.dvvset.specs.Clock.{merge_column, push};
ghost use Rattle.clock.specs.Memory.{top_of, count_of, column};

use crate::columns::Column;
use crate::rows::Row;

// The higher top stands, with those of its values that the other has not seen replaced.
pub(crate) fn merge_column<V: Copy>(mine: Row, cells: &mut [V], theirs: Row, values: &[V]) -> Row
    requires cells { length cells.old ≡ 4 }
    requires values { length values.now ≡ 4 }
    ensures { column result cells.new ≡ merge_column (column mine cells.old) (column theirs values.now) }
{
    let a = Column::from(mine);
    let b = Column::from(theirs);
    if b.top > a.top {
        cells.copy_from_slice(values);
    }
    a.merge(b).into()
}

// The row of a column without the values that a context with the top n covers. No cell changes.
pub(crate) fn discard_row(row: Row, n: u32) -> Row
    requires { n ≤ 999999 }
    ensures top { top_of result ≡ max (top_of row) n }
    ensures count { count_of result ≡ min (top_of row - n) (count_of row) }
{
    let a = Column::from(row);
    if n < a.top {
        return a.first(a.top - n).into();
    }
    Row { top: n, count: 0 }
}

// One more value, in front.
pub(crate) fn push_column<V: Copy>(row: Row, cells: &mut [V], v: V) -> Row
    requires cells { length cells.old ≡ 4 }
    requires top { top_of row < 999999 }
    requires count { count_of row < 4 }
    ensures { column result cells.new ≡ push v (column row cells.old) }
{
    let a = Column::from(row);
    cells.rotate_right(1);
    cells[0] = v;
    Column {
        top: a.top + 1,
        count: a.count + 1,
    }
    .into()
}
