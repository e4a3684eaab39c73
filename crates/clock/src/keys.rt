// The calls on one key: its 24 rows, and its 96 cells.
ghost use Rattle.std.specs.Prelude.{◌≡◌, ◌↔◌, ℕ, ◌<◌, ◌≤◌, IsTrue, length, slice_index_or};
ghost use Rattle.clock.specs.Memory.{no_row, roomy};
ghost use Rattle.clock.specs.Calls.{Leaves, Remains, discarding, merging, putting};

use crate::columns::Column;
use crate::contexts::Context;
use crate::indices::ColumnIndex;
use crate::parts::{discard_row, merge_column, push_column};
use crate::rows::{Row, row_at};
use dvvset::Dot;
use refusals::Refusal;

// Whether there is memory enough for one key.
pub fn has_room<V>(rows: &[Row], cells: &[V]) -> bool
    ensures value { result ≡ roomy rows.now cells.now }
    ensures enough { IsTrue result ↔ (24 ≤ length rows.now) × (96 ≤ length cells.now) }
{
    rows.len() >= 24 && cells.len() >= 96
}

// The rows without the values that the context covers, an empty row for one that is not there. No cell changes.
fn discard_rows(rows: &[Row], context: &Context) -> [Row; 24]
    ensures { (c : ℕ) → c < 24 → Remains rows.now context.now.tops c (slice_index_or result c no_row) }
{
    std::array::from_fn(|c| discard_row(row_at(rows, c), context.tops[c]))
}

// Merges another state of the key into this one.
pub fn merge<V: Copy>(
    rows: &mut [Row],
    cells: &mut [V],
    others: &[Row],
    values: &[V],
) -> Result<(), Refusal>
    ensures { Leaves rows.old cells.old (merging rows.old cells.old others.now values.now) result rows.new cells.new }
{
    if !has_room(rows, cells) || !has_room(others, values) {
        return Err(Refusal::ShortMemory);
    }
    // By index: after an `iter_mut` nothing would be known of the rows and cells written.
    for c in 0..24 {
        rows[c] = merge_column(
            rows[c],
            &mut cells[4 * c..4 * c + 4],
            others[c],
            &values[4 * c..4 * c + 4],
        );
    }
    Ok(())
}

// Takes away what the context covers: a delete.
pub fn discard<V>(rows: &mut [Row], cells: &[V], context: &Context) -> Result<(), Refusal>
    ensures { Leaves rows.old cells.now (discarding rows.old cells.now context.now.tops) result rows.new cells.now }
{
    if !has_room(rows, cells) {
        return Err(Refusal::ShortMemory);
    }
    let left = discard_rows(rows, context);
    rows[..24].copy_from_slice(&left);
    Ok(())
}

// Writes a value in the own column, in the place of what the context covers, and answers its dot.
pub fn put<V: Copy>(
    rows: &mut [Row],
    cells: &mut [V],
    own: ColumnIndex,
    context: &Context,
    value: V,
) -> Result<Dot, Refusal>
    ensures { Leaves rows.old cells.old (putting rows.old cells.old own.index context.now.tops value) result rows.new cells.new }
{
    let at = usize::from(own.index);
    let mine = discard_row(row_at(rows, at), context.tops[at]);
    let column = Column::from(mine);
    if column.top == 999_999 {
        return Err(Refusal::CounterExhausted);
    }
    if column.count == 4 {
        return Err(Refusal::TooManySiblings);
    }
    if !has_room(rows, cells) {
        return Err(Refusal::ShortMemory);
    }
    // In place: an array of the rows left, as in `discard`, costs more time.
    for c in 0..24 {
        rows[c] = discard_row(rows[c], context.tops[c]);
    }
    rows[at] = push_column(mine, &mut cells[4 * at..4 * at + 4], value);
    Ok(Dot {
        column: own.index,
        counter: column.top + 1,
    })
}
