// What a medium does with the newest frame that it found.
ghost use Rattle.std.specs.Prelude.{◌≡◌, length, Some, IsTrue, ◌↔◌};
ghost use Rattle.media.specs.Media.{behind, handed, laid, told};

use refusals::Refusal;

// Answers a read of a key by its newest frame.
pub fn hand_over(key: u8, newest: Option<&[u8]>, out: &mut [u8]) -> Result<Option<usize>, Refusal>
    ensures answer { result ≡ told (handed key (behind newest.entry) (length out.old)) }
    ensures out { out.new ≡ laid (handed key (behind newest.entry) (length out.old)) out.old }
{
    if key > 15 {
        return Err(Refusal::NoSuchSeatOrKey);
    }
    let Some(frame) = newest else {
        return Ok(None);
    };
    if out.len() < frame.len() {
        return Err(Refusal::ShortMemory);
    }
    out[..frame.len()].copy_from_slice(frame);
    Ok(Some(frame.len()))
}

// Whether the newest frame is this one.
pub fn is_newest(newest: Option<&[u8]>, frame: &[u8]) -> bool
    ensures { IsTrue result ↔ (behind newest.entry ≡ Some frame.now) }
{
    newest.is_some_and(|held| held == frame)
}
