// Why a call was refused: one case for each kind, and its number and offset.
#![tactic(auto)]

ghost use Rattle.std.specs.Prelude.{◌≡◌};
ghost use Rattle.refusals.specs.Refusals.{number, offset};

// Kinds 1 to 5 carry the offset of the refused field's tag.
#[derive(Clone, Copy, PartialEq, Eq, Debug)]
pub enum Refusal {
    // 1: fewer than three bytes for a field, a length past the end, or no bytes at all
    Truncated(usize),
    // 2: a tag other than those due here
    UnexpectedTag(usize),
    // 3: a wrong length
    WrongLength(usize),
    // 4: a key, column, count or top outside its range
    OutOfRange(usize),
    // 5: a column that is not above the one before
    OutOfOrder(usize),
    // 6: a frame or context that knows more of the seat's own column than the seat does
    OwnTopAhead,
    // 7: four own siblings would stand beside the new one
    TooManySiblings,
    // 8: the own column has used its last counter
    CounterExhausted,
    // 9: lent memory that is too short, or a journal or archive that is too long
    ShortMemory,
    // 10: a seat over 5 or a key over 15 in a call
    NoSuchSeatOrKey,
    // 11: no space left on the medium
    MediumFull,
    // 12: a frame, context or receipt of another key, or a receipt of a column that the seat does not own
    Mismatch,
}

impl Refusal {
    // The number that stands for the kind, 1 to 12. A method, since `u8::from(refusal)` would not say which number.
    pub fn number(self) -> u8
        ensures { result ≡ number self }
    {
        match self {
            Refusal::Truncated(_) => 1,
            Refusal::UnexpectedTag(_) => 2,
            Refusal::WrongLength(_) => 3,
            Refusal::OutOfRange(_) => 4,
            Refusal::OutOfOrder(_) => 5,
            Refusal::OwnTopAhead => 6,
            Refusal::TooManySiblings => 7,
            Refusal::CounterExhausted => 8,
            Refusal::ShortMemory => 9,
            Refusal::NoSuchSeatOrKey => 10,
            Refusal::MediumFull => 11,
            Refusal::Mismatch => 12,
        }
    }

    // Where the refused field begins, 0 for the kinds that name no field. No Option: a refusal is told as a number and an offset, also to C.
    pub fn offset(self) -> usize
        ensures { result ≡ offset self }
    {
        match self {
            Refusal::Truncated(at)
            | Refusal::UnexpectedTag(at)
            | Refusal::WrongLength(at)
            | Refusal::OutOfRange(at)
            | Refusal::OutOfOrder(at) => at,
            _ => 0,
        }
    }
}
