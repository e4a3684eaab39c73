// What a get tells of a key: its siblings, and its context.
ghost use Rattle.std.specs.Prelude.{◌≡◌, ◌+◌, ◌≤◌, length, take, sum_by};
ghost use Rattle.std.proofs.Math.Seq.{paste};
ghost use Rattle.dvvset.specs.Clock.{answer, after};
ghost use Rattle.dvvset.specs.Listing.{dotted};
ghost use Rattle.clock.specs.Memory.{count_of, top_of};
ghost use Rattle.clock.specs.Calls.{contexts, listing};
ghost use Rattle.clock.specs.Views.{seen};

use crate::columns::Column;
use crate::contexts::Context;
use crate::keys::has_room;
use crate::rows::Row;
use dvvset::{Dot, Sibling};
use refusals::Refusal;

// Writes the siblings of one column into `out` from `at` on, and answers how many they are.
fn list_column<V: Copy>(c: u8, row: Row, cells: &[V], out: &mut [Sibling<V>], at: usize) -> usize
    requires cells { length cells.now ≡ 4 }
    requires room { at + count_of row ≤ length out.old }
    ensures count { result ≡ count_of row }
    ensures out { out.new ≡ paste out.old at (dotted c (top_of row) (take (count_of row) cells.now)) (count_of row) }
{
    let column = Column::from(row);
    let count = usize::from(column.count);
    for (i, &value) in cells[..count].iter().enumerate() {
        out[at + i] = Sibling {
            dot: Dot {
                column: c,
                counter: column.top - i as u32,
            },
            value,
        };
    }
    count
}

// How many siblings a key's rows have.
fn sibling_count(rows: &[Row]) -> usize
    requires { length rows.now ≤ 24 }
    ensures { result ≡ sum_by count_of rows.now }
{
    rows.iter()
        .map(|&row| usize::from(Column::from(row).count))
        .sum()
}

// Writes the siblings to the front of `out`, by rising column, newest first, and answers how many they are.
pub fn list<V: Copy>(rows: &[Row], cells: &[V], out: &mut [Sibling<V>]) -> Result<usize, Refusal>
    ensures answer { result ≡ answer (listing rows.now cells.now out.old) }
    ensures out { out.new ≡ after out.old (listing rows.now cells.now out.old) }
{
    if !has_room(rows, cells) || sibling_count(&rows[..24]) > out.len() {
        return Err(Refusal::ShortMemory);
    }
    let mut n = 0;
    // Four cells by their place: a `zip` with their chunks is no plainer.
    for (c, &row) in rows[..24].iter().enumerate() {
        n += list_column(c as u8, row, &cells[4 * c..4 * c + 4], out, n);
    }
    Ok(n)
}

// What one who reads the key now has seen of it.
pub fn context_of(rows: &[Row]) -> Result<Context, Refusal>
    ensures { seen result ≡ contexts rows.now }
{
    if rows.len() < 24 {
        return Err(Refusal::ShortMemory);
    }
    Ok(Context {
        tops: std::array::from_fn(|c| Column::from(rows[c]).top),
    })
}
