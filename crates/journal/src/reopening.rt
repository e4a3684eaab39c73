// A journal that is saved on, ended and opened again.
ghost use Rattle.std.specs.Prelude.{◌≡◌, true, length, drop, is_ok, is_err, IfOk, Err};
ghost use Rattle.formats.specs.Entries.{opening};
ghost use Rattle.media.specs.Runs.{Ran, enough, tried_all};
ghost use Rattle.refusals.specs.declared.Refusal.TheVariants.{ShortMemory};
ghost use Rattle.journal.specs.Journals.{frames_in, room_in};
ghost use Rattle.journal.specs.Buffers.{handed_back};

use crate::journals::{Journal, Unopened};
use crate::opening::open;
use media::{Order, save_all};
use refusals::Refusal;

// After any list of saves the bytes open again, with the frames and left that the saves made.
pub fn save_and_reopen<'a>(
    journal: Journal<'a>,
    frames: &[u8],
    orders: &[Order],
    answers: &mut [Result<usize, Refusal>],
) -> Result<Journal<'a>, Unopened<'a>>
    ensures opens { is_ok (enough (length orders.now) (length answers.old)) ≡ true → is_ok (opening journal.entry.bytes.now) ≡ true → is_ok result ≡ true }
    ensures same { IfOk result (λ j. Ran (frames_in journal.entry.bytes.now) (room_in journal.entry.bytes.now) (tried_all frames.now orders.now answers.new) (frames_in j.bytes.now) (room_in j.bytes.now)) }
    ensures beyond { drop (length orders.now) answers.new ≡ drop (length orders.now) answers.old }
    ensures refused { is_err (enough (length orders.now) (length answers.old)) ≡ true → (handed_back result ≡ Err (ShortMemory, journal.entry.bytes.now)) × (answers.new ≡ answers.old) }
{
    let mut journal = journal;
    match save_all(&mut journal, frames, orders, answers) {
        Err(why) => Err(Unopened {
            why,
            bytes: journal.into_bytes(),
        }),
        Ok(()) => open(journal.into_bytes()),
    }
}
