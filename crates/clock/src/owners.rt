// Which column a seat writes to.
ghost use Rattle.std.specs.Prelude.{◌≡◌, ◌<◌};
ghost use Rattle.dvvset.specs.Limits.{owned_by};
ghost use Rattle.clock.specs.Views.{owning};

use crate::indices::ColumnIndex;
use refusals::Refusal;

// The column that a seat owns in a life, or none from life 4 on; a seat over 5 is refused.
pub fn own_column(seat: u8, life: u8) -> Result<Option<ColumnIndex>, Refusal>
    ensures { owning result ≡ owned_by seat life }
{
    if seat > 5 {
        return Err(Refusal::NoSuchSeatOrKey);
    }
    if life > 3 {
        return Ok(None);
    }
    Ok(Some(ColumnIndex {
        index: 4 * seat + life,
    }))
}
