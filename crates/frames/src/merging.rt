// The columns of a checked frame, merged into lent memory field by field.
ghost use Rattle.std.specs.Prelude.{◌≡◌, ◌*◌, ◌≤◌, true, ◌++◌, length, drop, is_ok};
ghost use Rattle.dvvset.specs.Clock.{merge as merged, merge_column};
ghost use Rattle.clock.specs.Memory.{column, state};
ghost use Rattle.formats.specs.Reading.{reading, values_of};
ghost use Rattle.frames.specs.Taking.{state_read};

use clock::{Column, Row};
use cursor::{ColumnField, Cursor};
use values::Value;

// Reads a field's values to the front of the cells.
fn read_values<V: Value>(field: &ColumnField, cells: &mut [V])
    requires cells { field.now.count ≤ length cells.old }
    requires values { length field.now.values.now ≡ V.Value.width * field.now.count }
    ensures { cells.new ≡ values_of V.Value.width V.Value.value_of field.now.count field.now.values.now ++ drop field.now.count cells.old }
{
    // the cells by index, as they are written
    for (i, bytes) in field.values.chunks_exact(V::width()).enumerate() {
        cells[i] = V::read_from(bytes);
    }
}

// Merges the column that a field tells into one of the key's, whose four cells are a slice as in the clock's calls.
// The clock merges two columns by the same lines, but has the values where this reads them: a closure for that would be longer.
fn merge_field<V: Value>(mine: Row, cells: &mut [V], field: &ColumnField) -> Row
    requires cells { length cells.old ≡ 4 }
    requires values { length field.now.values.now ≡ V.Value.width * field.now.count }
    ensures { column result cells.new ≡ merge_column (column mine cells.old) (record { top = field.now.top; values = values_of V.Value.width V.Value.value_of field.now.count field.now.values.now }) }
{
    let a = Column::from(mine);
    let b = Column {
        top: field.top,
        count: field.count,
    };
    if b.top > a.top {
        read_values(field, cells);
    }
    a.merge(b).into()
}

// Merges the state of a frame that was checked into the key's.
pub(crate) fn merge_fields<V: Value>(frame: &[u8], rows: &mut [Row], cells: &mut [V])
    requires frame { is_ok (reading V.Value.width V.Value.value_of frame.now) ≡ true }
    requires rows { 24 ≤ length rows.old }
    requires cells { 96 ≤ length cells.old }
    ensures state { state rows.new cells.new ≡ merged (state rows.old cells.old) (state_read (reading V.Value.width V.Value.value_of frame.now)) }
    ensures rows { drop 24 rows.new ≡ drop 24 rows.old }
    ensures cells { drop 96 cells.new ≡ drop 96 cells.old }
{
    // the head is four bytes long, and behind it only the end of a checked frame is refused
    let mut cursor = Cursor {
        bytes: frame,
        at: 4,
    };
    while let Ok(field) = cursor.column::<V>() {
        let c = usize::from(field.column);
        rows[c] = merge_field(rows[c], &mut cells[4 * c..4 * c + 4], &field);
    }
}
