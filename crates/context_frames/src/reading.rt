// A context is read whole, field by field.
ghost use Rattle.std.specs.Prelude.{◌≡◌};
ghost use Rattle.formats.specs.Reading.{context_reading};
ghost use Rattle.context_frames.specs.Views.{keyed};

use crate::seen_keys::KeyedContext;
use clock::Context;
use cursor::Cursor;
use refusals::Refusal;

// The key of a context and what it has seen, if the bytes are a context.
pub fn read_context(bytes: &[u8]) -> Result<KeyedContext, Refusal>
    ensures { keyed result ≡ context_reading bytes.now }
{
    let mut cursor = Cursor::new(bytes);
    let key = cursor.context_head()?.key;
    let mut tops = [0; 24];
    // the lowest column that may come next; for the loop see `frames::check`
    let mut from = 0;
    while !cursor.ended() {
        let field = cursor.top()?;
        if field.column < from {
            return Err(Refusal::OutOfOrder(field.at));
        }
        tops[usize::from(field.column)] = field.top;
        from = field.column + 1;
    }
    Ok(KeyedContext {
        key,
        context: Context { tops },
    })
}
