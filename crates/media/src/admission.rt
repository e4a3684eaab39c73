// Which saves a medium takes.
ghost use Rattle.std.specs.Prelude.{◌≡◌, ◌+◌};
ghost use Rattle.media.specs.Media.{admitted};

use refusals::Refusal;

// Whether a medium with `left` bytes left takes a frame of `length` bytes for a key.
pub fn admit(key: u8, length: usize, left: usize) -> Result<(), Refusal>
    ensures { result ≡ admitted key length left }
{
    if key > 15 {
        return Err(Refusal::NoSuchSeatOrKey);
    }
    if length < 4 || length > 1756 {
        return Err(Refusal::WrongLength(0));
    }
    if length + 4 > left {
        return Err(Refusal::MediumFull);
    }
    Ok(())
}
