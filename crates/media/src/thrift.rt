// A layer that spares the medium below what it holds already.
ghost use Rattle.std.specs.Prelude.{◌≡◌, Some};
ghost use Rattle.media.specs.Media.{Saved};

use crate::admission::admit;
use crate::medium::Medium;
use refusals::Refusal;

#[derive(Drop)]
pub struct Thrift<M> {
    pub below: M,
}

impl<M: Medium> Medium for Thrift<M> {
    ghost newest = { λ t. M.Medium.newest t.below };

    ghost left = { λ t. M.Medium.left t.below };

    fn left(&self) -> usize {
        self.below.left()
    }

    fn holds(&self, key: u8, frame: &[u8]) -> bool {
        self.below.holds(key, frame)
    }

    // A frame that is the newest of its key already leaves the medium below as it was.
    fn save(&mut self, key: u8, frame: &[u8]) -> Result<(), Refusal>
        ensures saved { Saved (M.Medium.newest self.old.below) (M.Medium.left self.old.below) key frame.now result (M.Medium.newest self.new.below) (M.Medium.left self.new.below) }
        ensures spared { M.Medium.newest self.old.below key ≡ Some frame.now → self.new.below ≡ self.old.below }
    {
        admit(key, frame.len(), self.below.left())?;
        if self.below.holds(key, frame) {
            return Ok(());
        }
        self.below.save(key, frame)
    }

    fn read(&self, key: u8, out: &mut [u8]) -> Result<Option<usize>, Refusal> {
        self.below.read(key, out)
    }
}
