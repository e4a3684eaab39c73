// The frame of a key's state, written to the front of lent memory.
ghost use Rattle.std.specs.Prelude.{◌≡◌, ◌+◌, ◌*◌, ◌≤◌, ◌++◌, length, take, drop, sum_by, OnOk};
ghost use Rattle.std.specs.List.{flat_map, AllByRecursion};
ghost use Rattle.clock.specs.Memory.{count_of, state};
ghost use Rattle.dvvset.specs.Clock.{after, answer};
ghost use Rattle.formats.specs.Frames.{column_field};
ghost use Rattle.formats.specs.OneFrame.{Fit};
ghost use Rattle.frames.specs.Taking.{writing_frame};
ghost use Rattle.frames.specs.Writing.{field_length, field_of};

use clock::{Column, Row, has_room};
use cursor::tags;
use refusals::Refusal;
use values::Value;

// How long the field of a column is: a column without a top has none.
fn field_size<V: Value>(row: Row) -> usize
    ensures value { result ≡ field_length V.Value.width row }
    ensures most { result ≤ 73 }
{
    let a = Column::from(row);
    if a.top == 0 {
        return 0;
    }
    9 + V::width() * usize::from(a.count)
}

// How long the frame of these rows is.
fn frame_size<V: Value>(rows: &[Row]) -> usize
    requires { length rows.now ≤ 24 }
    ensures { result ≡ 4 + sum_by (field_length V.Value.width) rows.now }
{
    4 + rows.iter().map(|&row| field_size::<V>(row)).sum::<usize>()
}

// The values, one after the other, at the front of `out`. After `chunks_exact_mut` a proof knows no element, so each part is cut by its place.
fn write_values<V: Value>(values: &[V], out: &mut [u8])
    requires { V.Value.width * length values.now ≤ length out.old }
    ensures after { out.new ≡ flat_map V.Value.bytes_of values.now ++ drop (V.Value.width * length values.now) out.old }
    ensures valid { AllByRecursion V.Value.valid values.now }
{
    let w = V::width();
    let mut at = 0;
    for v in values {
        v.write_to(&mut out[at..at + w]);
        at += w;
    }
}

// The field of a column: tag (1), length (2), column (1), count (1), top (4), values.
fn write_column<V: Value>(c: u8, a: Column, values: &[V], out: &mut [u8])
    requires values { length values.now ≡ a.count }
    requires out { 9 + V.Value.width * a.count ≤ length out.old }
    ensures after { out.new ≡ column_field V.Value.bytes_of c (record { top = a.top; values = values.now }) ++ drop (9 + V.Value.width * a.count) out.old }
    ensures valid { AllByRecursion V.Value.valid values.now }
{
    let body = 6 + V::width() * usize::from(a.count);
    let [high, low] = (body as u16).to_be_bytes();
    let [t0, t1, t2, t3] = a.top.to_be_bytes();
    out[..9].copy_from_slice(&[tags::COLUMN, high, low, c, a.count, t0, t1, t2, t3]);
    write_values(values, &mut out[9..3 + body]);
}

// The field of a row, with the four cells of its column, at `at` (as long as `field_size` tells), if its column has a top; the answer is the place behind it.
fn write_field<V: Value>(c: u8, row: Row, cells: &[V], out: &mut [u8], at: usize) -> usize
    requires cells { length cells.now ≡ 4 }
    requires room { at + field_length V.Value.width row ≤ length out.old }
    ensures at { result ≡ at + field_length V.Value.width row }
    ensures out { out.new ≡ take at out.old ++ (field_of V.Value.bytes_of c row cells.now ++ drop result out.old) }
    ensures valid { AllByRecursion V.Value.valid (take (count_of row) cells.now) }
{
    let a = Column::from(row);
    if a.top == 0 {
        return at;
    }
    let count = usize::from(a.count);
    let end = at + (9 + V::width() * count);
    write_column(c, a, &cells[..count], &mut out[at..end]);
    end
}

// The frame of the key's state at the front of `out`; the answer is its length.
pub fn write_frame<V: Value>(
    key: u8,
    rows: &[Row],
    cells: &[V],
    out: &mut [u8],
) -> Result<usize, Refusal>
    ensures answer { result ≡ answer (writing_frame V.Value.width V.Value.bytes_of key rows.now cells.now out.old) }
    ensures out { out.new ≡ after out.old (writing_frame V.Value.width V.Value.bytes_of key rows.now cells.now out.old) }
    ensures fit { OnOk result (Fit V.Value.valid (state rows.now cells.now)) }
{
    if key > 15 {
        return Err(Refusal::NoSuchSeatOrKey);
    }
    if !has_room(rows, cells) {
        return Err(Refusal::ShortMemory);
    }
    let size = frame_size::<V>(&rows[..24]);
    if out.len() < size {
        return Err(Refusal::ShortMemory);
    }
    // tag (1), length (2), key (1)
    out[..4].copy_from_slice(&[tags::STATE, 0, 1, key]);
    let mut at = 4;
    // four cells by their place: a `zip` with their chunks is no plainer
    for (c, &row) in rows[..24].iter().enumerate() {
        at = write_field(c as u8, row, &cells[4 * c..4 * c + 4], out, at);
    }
    Ok(size)
}
