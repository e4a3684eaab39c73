// Frames taken into lent memory. A frame is checked whole before anything is written.
ghost use Rattle.std.specs.Prelude.{◌≡◌, ◌≤◌, true, length, is_ok, OnOk};
ghost use Rattle.dvvset.specs.Clock.{answer};
ghost use Rattle.clock.specs.Calls.{Leaves};
ghost use Rattle.formats.specs.Reading.{reading};
ghost use Rattle.frames.specs.Taking.{loading_frame, merging_frame};

use crate::checking::check;
use crate::merging::merge_fields;
use clock::{Row, has_room};
use refusals::Refusal;
use values::Value;

// The frame's key, if the bytes are a frame and there is memory enough.
fn admit<V: Value>(frame: &[u8], rows: &[Row], cells: &[V]) -> Result<u8, Refusal>
    ensures answer { result ≡ answer (loading_frame V.Value.width V.Value.value_of frame.now rows.now cells.now) }
    ensures read { OnOk result (is_ok (reading V.Value.width V.Value.value_of frame.now) ≡ true) }
    ensures room { OnOk result ((24 ≤ length rows.now) × (96 ≤ length cells.now)) }
{
    let key = check::<V>(frame)?;
    if !has_room(rows, cells) {
        return Err(Refusal::ShortMemory);
    }
    Ok(key)
}

// Merges the state of a frame into the key's, and answers the frame's key.
pub fn merge_frame<V: Value>(frame: &[u8], rows: &mut [Row], cells: &mut [V]) -> Result<u8, Refusal>
    ensures { Leaves rows.old cells.old (merging_frame V.Value.width V.Value.value_of frame.now rows.old cells.old) result rows.new cells.new }
{
    let key = admit(frame, rows, cells)?;
    merge_fields(frame, rows, cells);
    Ok(key)
}

// Puts the state of a frame in the place of the key's, whatever that was, and answers the frame's key.
pub fn load_frame<V: Value>(frame: &[u8], rows: &mut [Row], cells: &mut [V]) -> Result<u8, Refusal>
    ensures { Leaves rows.old cells.old (loading_frame V.Value.width V.Value.value_of frame.now rows.old cells.old) result rows.new cells.new }
{
    let key = admit(frame, rows, cells)?;
    rows[..24].fill(Row::default());
    merge_fields(frame, rows, cells);
    Ok(key)
}
