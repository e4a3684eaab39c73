// The sixteen keys of the six seats, and the calls on them, all in life 0.
ghost use Rattle.std.specs.Prelude.{◌≡◌, vec_len};

use crate::answers::{Frame, Reading};
use crate::places::SeatKey;
use clock::{Context, Row, context_of, discard, list, put};
use dvvset::{Dot, Sibling};
use frames::{merge_frame, write_frame};
use refusals::Refusal;
use scenario::Spot;
use std::alloc::{AllocError, Global};
use values::Setting;

// What a seat has of a key, as the clock's calls are lent it.
#[derive(Clone, Copy)]
pub struct KeyState {
    pub rows: [Row; 24],
    pub cells: [Setting; 96],
}

// A state for each seat and key, the sixteen of seat 0 first: one list, since `SeatKey::index` is one number.
#[derive(Drop)]
pub struct Cockpit {
    pub(crate) states: Vec<KeyState>,
    ghost whole: { vec_len states ≡ 96 },
}

// Constants, which no `default()` can be: the contract of `new` names their zeros.
const NO_SETTING: Setting = Setting {
    measure: 0,
    label: [0; 12],
};

const NO_STATE: KeyState = KeyState {
    rows: [Row { top: 0, count: 0 }; 24],
    cells: [NO_SETTING; 96],
};

impl KeyState {
    ghost use Rattle.std.specs.Prelude.{◌≤◌, ◌++◌, take, drop, replicate};
    ghost use Rattle.dvvset.specs.Clock.{context};
    ghost use Rattle.dvvset.specs.Listing.{siblings};
    ghost use Rattle.clock.specs.Memory.{shape};
    ghost use Rattle.formats.specs.Frames.{frame, frame_length};
    ghost use Rattle.values.specs.Layouts.{setting_bytes};
    ghost use Rattle.replay.specs.Keys.{meaning};

    // The siblings, by rising column, the newest first in each, and what one who reads the key has seen of it.
    fn reading(&self, key: u8) -> Reading
        requires { key ≤ 15 }
        ensures key { result.key ≡ key }
        ensures siblings { take result.count result.siblings ≡ siblings (meaning self.now) }
        ensures context { result.context.tops ≡ context (shape self.now.rows) }
    {
        let dot = Dot {
            column: 0,
            counter: 0,
        };
        let value = NO_SETTING;
        // memory that the call is lent; likewise below
        let mut siblings = [Sibling { dot, value }; 96];
        let count = list(&self.rows, &self.cells, &mut siblings).unwrap();
        Reading {
            key,
            siblings,
            count,
            context: context_of(&self.rows).unwrap(),
        }
    }

    fn frame(&self, key: u8) -> Frame
        requires { key ≤ 15 }
        ensures length { result.length ≡ frame_length 16 (meaning self.now) }
        ensures bytes { result.bytes ≡ frame setting_bytes key (meaning self.now) ++ drop result.length (replicate 1756 0) }
        ensures used { take result.length result.bytes ≡ frame setting_bytes key (meaning self.now) }
    {
        let mut bytes = [0; 1756];
        let length = write_frame(key, &self.rows, &self.cells, &mut bytes).unwrap();
        Frame { bytes, length }
    }
}

impl Cockpit {
    ghost use Rattle.std.specs.Prelude.{replicate, IfOk};
    ghost use Rattle.replay.specs.Keys.{Changes, Sends, Tells, delete_on, deliver_on, no_state, put_on};
    ghost use Rattle.replay.specs.Places.{there};

    // With no writes.
    pub fn new(alloc: Global) -> Result<Cockpit, AllocError>
        ensures { IfOk result (λ c. c.states.items ≡ replicate 96 no_state) }
    {
        Ok(Cockpit {
            states: vec![in alloc; NO_STATE; 96]?,
        })
    }

    // The calls find the state in two lines: lending it to a closure is no shorter.
    pub fn put(&mut self, at: Spot, value: Setting, context: &Context) -> Result<Dot, Refusal>
        ensures { Changes at (there at) (put_on at context.now.tops value) self.old.states.items self.new.states.items result }
    {
        let place = SeatKey::try_from(at)?;
        let state = &mut self.states[place.index()];
        put(
            &mut state.rows,
            &mut state.cells,
            place.column(),
            context,
            value,
        )
    }

    pub fn delete(&mut self, at: Spot, context: &Context) -> Result<(), Refusal>
        ensures { Changes at (there at) (delete_on context.now.tops) self.old.states.items self.new.states.items result }
    {
        let place = SeatKey::try_from(at)?;
        let state = &mut self.states[place.index()];
        discard(&mut state.rows, &state.cells, context)
    }

    pub fn get(&self, at: Spot) -> Result<Reading, Refusal>
        ensures { Tells at self.now.states.items result }
    {
        let place = SeatKey::try_from(at)?;
        let state = &self.states[place.index()];
        Ok(state.reading(place.key))
    }

    // The frame of what the seat has of the key.
    pub fn send(&self, at: Spot) -> Result<Frame, Refusal>
        ensures { Sends at self.now.states.items result }
    {
        let place = SeatKey::try_from(at)?;
        let state = &self.states[place.index()];
        Ok(state.frame(place.key))
    }

    // The seat merges a frame into what it has of the key; the answer is the frame's key.
    pub fn deliver(&mut self, at: Spot, frame: &[u8]) -> Result<u8, Refusal>
        ensures { Changes at (there at) (deliver_on frame.now) self.old.states.items self.new.states.items result }
    {
        let place = SeatKey::try_from(at)?;
        let state = &mut self.states[place.index()];
        merge_frame(frame, &mut state.rows, &mut state.cells)
    }
}
