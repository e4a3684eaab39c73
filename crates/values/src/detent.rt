// A detent: the signed step of a knob.
ghost use Rattle.values.specs.Layouts.{DetentFits, detent_bytes, detent_of};
ghost use Rattle.values.specs.LayoutsLemmas.{detent_back};
ghost use Rattle.std.specs.Int.{w16};
ghost use Rattle.values.specs.BigEndianLemmas.{signed_to_from_bytes};
ghost use Rattle.std.proofs.Common.{rules};

use crate::measured::Measured;
use crate::value::Value;

#[derive(Clone, Copy, PartialEq, Eq, Debug, Default)]
pub struct Detent {
    // step (2): signed, the highest byte first
    pub step: i16,
}

impl Value for Detent {
    ghost width = { 2 };

    ghost bytes_of = { detent_bytes };

    ghost value_of = { detent_of };

    ghost valid = { DetentFits };

    ghost small = { Prim.search rules };

    ghost fills = { Prim.search rules };

    ghost bytes = { Prim.search rules };

    ghost back = { detent_back };

    ghost forth = { signed_to_from_bytes w16 };

    ghost fits = { Prim.search rules };

    fn width() -> usize {
        2
    }

    fn write_to(&self, out: &mut [u8]) {
        out[0..2].copy_from_slice(&self.step.to_be_bytes());
    }

    fn read_from(src: &[u8]) -> Detent {
        Detent {
            step: i16::from_be_bytes([src[0], src[1]]),
        }
    }
}

// A detent's measure is its step.
impl Measured for Detent {
    ghost measure = { λ d. d.step };

    fn measure(&self) -> i32 {
        i32::from(self.step)
    }
}
