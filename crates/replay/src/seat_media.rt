// The media of the seats.
ghost use Rattle.std.specs.Prelude.{◌≡◌, ◌≤◌, IfOk, slice_get, vec_len};
ghost use Rattle.std.specs.Option.{option_map};
ghost use Rattle.media.specs.Slots.{frames_of, slots_left};

use crate::places::SeatKey;
use media::{Medium, Slots};
use refusals::Refusal;
use std::alloc::{AllocError, Global};
use std::collections::BTreeMap;

// A medium for each seat.
#[derive(Drop)]
pub struct Media {
    pub(crate) slots: Vec<Slots>,
    ghost each: { vec_len slots ≡ 6 },
}

// What a medium holds: the newest frame of each key that has one, and the bytes that are left.
#[derive(Drop)]
pub struct Holding {
    pub frames: BTreeMap<u8, Vec<u8>>,
    pub left: usize,
}

// The frame that a medium has of a key.
fn newest(alloc: Global, medium: &Slots, key: u8) -> Result<Option<Vec<u8>>, AllocError>
    requires { key ≤ 15 }
    ensures { IfOk result (λ f. option_map (λ v. v.items) f ≡ frames_of medium.now.slots key) }
{
    // memory that the call is lent, cut to what it filled
    let mut frame = vec![in alloc; 0; 1756]?;
    let Some(length) = medium.read(key, &mut frame).unwrap() else {
        return Ok(None);
    };
    frame.truncate(length);
    Ok(Some(frame))
}

impl Holding {
    ghost use Rattle.replay.specs.Saves.{Holds};

    // What the medium holds now.
    pub fn of(alloc: Global, medium: &Slots) -> Result<Holding, AllocError>
        ensures { IfOk result (Holds (frames_of medium.now.slots) slots_left) }
    {
        let mut frames = BTreeMap::new(alloc);
        for key in 0..16 {
            if let Some(frame) = newest(alloc, medium, key)? {
                frames.insert(key, frame)?;
            }
        }
        Ok(Holding {
            frames,
            left: medium.left(),
        })
    }
}

impl Media {
    ghost use Rattle.replay.specs.Saves.{AllFresh, Keeps};

    // With nothing saved.
    pub fn new(alloc: Global) -> Result<Media, AllocError>
        ensures { IfOk result (λ m. AllFresh m.slots.items) }
    {
        let mut slots = Vec::new(alloc);
        // Pushes, since of `collect` a proof has no item: `Slots::new` says what holds of new slots, and not what they are.
        for _ in 0..6u8 {
            slots.push(Slots::new())?;
        }
        Ok(Media { slots })
    }

    // Makes the frame the newest of its key on the seat's medium. The seat is as a line has it, and may not be there.
    pub fn save(&mut self, seat: u64, key: u8, frame: &[u8]) -> Result<(), Refusal>
        ensures { Keeps seat key frame.now self.old.slots.items self.new.slots.items result }
    {
        if seat > 5 {
            return Err(Refusal::NoSuchSeatOrKey);
        }
        // a cast, since `usize` has no `From<u64>`
        self.slots[seat as usize].save(key, frame)
    }

    // The medium of the seat.
    pub fn medium(&self, place: SeatKey) -> &Slots
        ensures { slice_get self.now.slots.items place.seat ≡ Some result.now }
    {
        &self.slots[usize::from(place.seat)]
    }
}
