// A frame is read whole, field by field, before anything is done with it.
ghost use Rattle.std.specs.Prelude.{◌≡◌};
ghost use Rattle.formats.specs.Reading.{key_of, reading};

use cursor::Cursor;
use refusals::Refusal;
use values::Value;

// The key of a state frame, if the bytes are one.
pub fn check<V: Value>(frame: &[u8]) -> Result<u8, Refusal>
    ensures { result ≡ key_of (reading V.Value.width V.Value.value_of frame.now) }
{
    let mut cursor = Cursor::new(frame);
    let key = cursor.state_head()?.key;
    // To the end, and no `while let Ok`, since a refusal has to come out. The lowest column that may come next. A context is walked in the same way: a function for these lines would be no shorter.
    let mut from = 0;
    while !cursor.ended() {
        let field = cursor.column::<V>()?;
        if field.column < from {
            return Err(Refusal::OutOfOrder(field.at));
        }
        from = field.column + 1;
    }
    Ok(key)
}
