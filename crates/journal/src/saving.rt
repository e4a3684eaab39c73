// The journal as a medium.
ghost use Rattle.std.specs.Prelude.{◌≡◌};
ghost use Rattle.media.specs.Media.{Saved};
ghost use Rattle.journal.specs.Journals.{frames_in, room_in, saving};

use crate::appending::append;
use crate::entries::{left_in, newest_in};
use crate::journals::Journal;
use media::{Medium, admit, hand_over, is_newest};
use refusals::Refusal;

// Appends an entry behind the last one, if it is admitted.
fn save_in(bytes: &mut [u8], key: u8, frame: &[u8]) -> Result<(), Refusal>
    ensures saved { Saved (frames_in bytes.old) (room_in bytes.old) key frame.now result (frames_in bytes.new) (room_in bytes.new) }
    ensures bytes { bytes.new ≡ saving bytes.old key frame.now }
{
    let left = left_in(bytes);
    admit(key, frame.len(), left)?;
    let end = bytes.len() - left;
    append(key, frame, &mut bytes[end..]);
    Ok(())
}

// `holds` and `read` as for slots, but by the entries: no default body in the trait, since not every medium can lend its newest frame.
impl<'a> Medium for Journal<'a> {
    ghost newest = { λ j. frames_in j.bytes.now };

    ghost left = { λ j. room_in j.bytes.now };

    fn left(&self) -> usize {
        left_in(self.bytes)
    }

    fn holds(&self, key: u8, frame: &[u8]) -> bool {
        is_newest(newest_in(self.bytes, key), frame)
    }

    fn save(&mut self, key: u8, frame: &[u8]) -> Result<(), Refusal>
        ensures saved { Saved (frames_in self.old.bytes.now) (room_in self.old.bytes.now) key frame.now result (frames_in self.new.bytes.now) (room_in self.new.bytes.now) }
        ensures bytes { self.new.bytes.now ≡ saving self.old.bytes.now key frame.now }
    {
        save_in(self.bytes, key, frame)
    }

    fn read(&self, key: u8, out: &mut [u8]) -> Result<Option<usize>, Refusal> {
        hand_over(key, newest_in(self.bytes, key), out)
    }
}
