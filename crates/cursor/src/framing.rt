// What every field has around its body: tag (1), length (2).
ghost use Rattle.std.specs.Prelude.{◌≡◌, length, take, drop, IfOk};
ghost use Rattle.cursor.specs.Seen.{Framed, seen};

use refusals::Refusal;

// The body of the field at the front of `rest`, if its tag is the one that is due.
pub(crate) fn framed<'a>(rest: &'a [u8], due: u8, at: usize) -> Result<&'a [u8], Refusal>
    ensures value { Framed rest.now due at (seen (λ body. length body.now) result) }
    ensures body { IfOk result (λ body. body.now ≡ take (length body.now) (drop 3 rest.now)) }
{
    let [tag, high, low, behind @ ..] = rest else {
        return Err(Refusal::Truncated(at));
    };
    let length = usize::from(u16::from_be_bytes([*high, *low]));
    if behind.len() < length {
        return Err(Refusal::Truncated(at));
    }
    if *tag != due {
        return Err(Refusal::UnexpectedTag(at));
    }
    Ok(&behind[..length])
}
