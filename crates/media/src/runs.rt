// Many saves, one after the other.
ghost use Rattle.std.specs.Prelude.{◌≡◌, true, length, take, drop, is_ok, is_err};
ghost use Rattle.media.specs.Runs.{Done, Ran, enough, tried, tried_all};

use crate::medium::Medium;
use crate::orders::Order;
use refusals::Refusal;

// So many bytes from a place on, or up to the end.
fn part(bytes: &[u8], start: usize, length: usize) -> &[u8]
    ensures { result.now ≡ take length (drop start bytes.now) }
{
    let rest = bytes.get(start..).unwrap_or_default();
    &rest[..length.min(rest.len())]
}

// Saves what the order names, and answers what an accepted save took from left.
fn carry_out<M: Medium>(medium: &mut M, frames: &[u8], order: Order) -> Result<usize, Refusal>
    ensures { Done (M.Medium.newest medium.old) (M.Medium.left medium.old) (tried frames.now order result) (M.Medium.newest medium.new) (M.Medium.left medium.new) }
{
    let before = medium.left();
    medium.save(order.key, part(frames, order.start, order.length))?;
    Ok(before - medium.left())
}

// Saves what each order names, in turn, and tells what came of each: what an accepted save took from left, or the refusal.
pub fn save_all<M: Medium>(
    medium: &mut M,
    frames: &[u8],
    orders: &[Order],
    answers: &mut [Result<usize, Refusal>],
) -> Result<(), Refusal>
    ensures answer { result ≡ enough (length orders.now) (length answers.old) }
    ensures ran { is_ok result ≡ true → Ran (M.Medium.newest medium.old) (M.Medium.left medium.old) (tried_all frames.now orders.now answers.new) (M.Medium.newest medium.new) (M.Medium.left medium.new) }
    ensures beyond { drop (length orders.now) answers.new ≡ drop (length orders.now) answers.old }
    ensures unchanged { is_err result ≡ true → (medium.new ≡ medium.old) × (answers.new ≡ answers.old) }
{
    if answers.len() < orders.len() {
        return Err(Refusal::ShortMemory);
    }
    // by index, as they are written: after an `iter_mut` nothing would be known of the answers
    for (i, order) in orders.iter().enumerate() {
        answers[i] = carry_out(medium, frames, *order);
    }
    Ok(())
}
