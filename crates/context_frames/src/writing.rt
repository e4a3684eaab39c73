// The bytes of a context, written to the front of lent memory.
ghost use Rattle.std.specs.Prelude.{◌≡◌, ◌+◌, ◌*◌, count_by, nat_eq, not};
ghost use Rattle.dvvset.specs.Clock.{after, answer};
ghost use Rattle.context_frames.specs.Laying.{writing_context};

use clock::Context;
use cursor::tags;
use refusals::Refusal;

// How long the bytes of the context are: eight for each top that is not 0.
fn context_size(context: &Context) -> usize
    ensures { result ≡ 4 + 8 * count_by (λ t. not (nat_eq t 0)) context.now.tops }
{
    4 + 8 * context.tops.iter().filter(|&&top| top != 0).count()
}

// The context of a key at the front of `out`; the answer is how many bytes it has.
pub fn write_context(key: u8, context: &Context, out: &mut [u8]) -> Result<usize, Refusal>
    ensures answer { result ≡ answer (writing_context key context.now.tops out.old) }
    ensures out { out.new ≡ after out.old (writing_context key context.now.tops out.old) }
{
    if key > 15 {
        return Err(Refusal::NoSuchSeatOrKey);
    }
    let size = context_size(context);
    if out.len() < size {
        return Err(Refusal::ShortMemory);
    }
    // tag (1), length (2), key (1)
    out[..4].copy_from_slice(&[tags::CONTEXT, 0, 1, key]);
    // by its place: after `chunks_exact_mut` nothing is known of what was written
    let mut at = 4;
    for (c, &top) in context.tops.iter().enumerate() {
        if top != 0 {
            // tag (1), length (2), column (1), top (4)
            let [t0, t1, t2, t3] = top.to_be_bytes();
            out[at..at + 8].copy_from_slice(&[tags::TOP, 0, 5, c as u8, t0, t1, t2, t3]);
            at += 8;
        }
    }
    Ok(size)
}
