// What every medium does.
ghost use Rattle.std.specs.Prelude.{◌≡◌, ℕ, List, length, Some, IsTrue, ◌↔◌, Option};
ghost use Rattle.media.specs.Media.{Saved, handed, laid, told};

use refusals::Refusal;

// A frame and its key come as two, since most callers have them so.
pub trait Medium {
    // The newest frame of each key, or none.
    ghost newest: { Self → ℕ → Option (List ℕ) };

    // The bytes that are still to be had.
    ghost left: { Self → ℕ };

    fn left(&self) -> usize
        ensures { result ≡ left self.now };

    // Whether the frame is the newest of its key.
    fn holds(&self, key: u8, frame: &[u8]) -> bool
        ensures { IsTrue result ↔ (newest self.now key ≡ Some frame.now) };

    // Makes the frame the newest of its key.
    fn save(&mut self, key: u8, frame: &[u8]) -> Result<(), Refusal>
        ensures { Saved (newest self.old) (left self.old) key frame.now result (newest self.new) (left self.new) };

    // Copies a key's newest frame to the front of `out`, and answers its length.
    fn read(&self, key: u8, out: &mut [u8]) -> Result<Option<usize>, Refusal>
        ensures answer { result ≡ told (handed key (newest self.now key) (length out.old)) }
        ensures out { out.new ≡ laid (handed key (newest self.now key) (length out.old)) out.old };
}
