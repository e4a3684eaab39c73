// The medium of plain slots: a save goes over the frame before it, and takes nothing from left.
ghost use Rattle.std.specs.Prelude.{◌≡◌, ◌≤◌, length};
ghost use Rattle.media.specs.Media.{Fresh, behind};
ghost use Rattle.media.specs.Slots.{frame_in, frames_of, slots_left};

use crate::admission::admit;
use crate::medium::Medium;
use crate::reading::{hand_over, is_newest};
use crate::slot::{Slot, Slots};
use refusals::Refusal;

// Enough for a frame of any length.
const ROOM: usize = 1760;

impl Slot {
    // With a frame in it. No conversion by `From`, since a longer frame does not fit.
    fn of(frame: &[u8]) -> Slot
        requires { length frame.now ≤ 1756 }
        ensures { frame_in result ≡ frame.now }
    {
        let mut bytes = [0; 1756];
        bytes[..frame.len()].copy_from_slice(frame);
        Slot {
            size: frame.len(),
            bytes,
        }
    }

    fn frame(&self) -> &[u8]
        ensures { result.now ≡ frame_in self.now }
    {
        &self.bytes[..self.size]
    }
}

impl Slots {
    // Fresh: no frames, and 1,760 left.
    pub fn new() -> Slots
        ensures { Fresh (frames_of result.slots) slots_left }
    {
        Slots { slots: [None; 16] }
    }

    // The newest frame of a key.
    fn newest(&self, key: u8) -> Option<&[u8]>
        ensures { behind result ≡ frames_of self.now.slots key }
    {
        let slot = self.slots.get(usize::from(key))?.as_ref()?;
        Some(slot.frame())
    }
}

impl Medium for Slots {
    ghost newest = { λ s. frames_of s.slots };

    ghost left = { λ _. slots_left };

    fn left(&self) -> usize {
        ROOM
    }

    fn holds(&self, key: u8, frame: &[u8]) -> bool {
        is_newest(self.newest(key), frame)
    }

    fn save(&mut self, key: u8, frame: &[u8]) -> Result<(), Refusal> {
        admit(key, frame.len(), ROOM)?;
        self.slots[usize::from(key)] = Some(Slot::of(frame));
        Ok(())
    }

    fn read(&self, key: u8, out: &mut [u8]) -> Result<Option<usize>, Refusal> {
        hand_over(key, self.newest(key), out)
    }
}
