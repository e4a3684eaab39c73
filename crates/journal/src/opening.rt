// A journal from a lent buffer, and the buffer from a journal.
ghost use Rattle.std.specs.Prelude.{◌≡◌, IfOk};
ghost use Rattle.media.specs.Media.{Fresh};
ghost use Rattle.journal.specs.Journals.{frames_in, room_in};
ghost use Rattle.journal.specs.Buffers.{emptied, handed_back, opened};

use crate::entries::survey;
use crate::journals::{Journal, Unopened};
use refusals::Refusal;

// The journal that the bytes hold.
pub fn open<'a>(bytes: &'a mut [u8]) -> Result<Journal<'a>, Unopened<'a>>
    ensures { handed_back result ≡ opened bytes.old }
{
    // of any key: whether the bytes open is all that is wanted
    match survey(bytes, 0) {
        Err(why) => Err(Unopened { why, bytes }),
        Ok(_) => Ok(Journal { bytes }),
    }
}

// A journal of no entries, whatever the bytes held.
pub fn fresh<'a>(bytes: &'a mut [u8]) -> Result<Journal<'a>, Unopened<'a>>
    ensures value { handed_back result ≡ emptied bytes.old }
    ensures fresh { IfOk result (λ j. Fresh (frames_in j.bytes.now) (room_in j.bytes.now)) }
{
    if bytes.len() < 1760 || bytes.len() > 65_536 {
        return Err(Unopened {
            why: Refusal::ShortMemory,
            bytes,
        });
    }
    bytes.fill(0);
    Ok(Journal { bytes })
}

impl<'a> Journal<'a> {
    // Ends the journal.
    pub fn into_bytes(self) -> &'a mut [u8]
        ensures { result.now ≡ self.entry.bytes.now }
    {
        let Journal { bytes } = self;
        bytes
    }
}
