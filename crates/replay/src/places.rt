// Where the state of a seat and key stands, and the column that the seat owns.
ghost use Rattle.std.specs.Prelude.{◌≡◌, ◌+◌, ◌*◌, ◌<◌, ◌≤◌};

use clock::{ColumnIndex, own_column};
use refusals::Refusal;
use scenario::Spot;

// A seat and a key that are there.
#[derive(Clone, Copy)]
pub struct SeatKey {
    pub seat: u8,
    pub key: u8,
    ghost seats: { seat ≤ 5 },
    ghost keys: { key ≤ 15 },
}

impl SeatKey {
    // Sixteen keys for each seat.
    pub fn index(self) -> usize
        ensures value { result ≡ 16 * self.seat + self.key }
        ensures below { result < 96 }
    {
        16 * usize::from(self.seat) + usize::from(self.key)
    }

    // The column of the seat in life 0.
    pub fn column(self) -> ColumnIndex
        ensures { result.index ≡ 4 * self.seat }
    {
        own_column(self.seat, 0).unwrap().unwrap()
    }
}

impl TryFrom<Spot> for SeatKey {
    ghost use Rattle.replay.specs.Places.{Placed};

    type Error = Refusal;

    ghost try_from_gives = { Placed };

    fn try_from(at: Spot) -> Result<SeatKey, Refusal> {
        if at.seat > 5 || at.key > 15 {
            return Err(Refusal::NoSuchSeatOrKey);
        }
        // casts, since the test above is plainer than two of `u8::try_from`
        Ok(SeatKey {
            seat: at.seat as u8,
            key: at.key as u8,
        })
    }
}
