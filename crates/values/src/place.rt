// A place: where a value stands in an archive.
ghost use Rattle.values.specs.Layouts.{PlaceFits, place_bytes, place_of};
ghost use Rattle.values.specs.LayoutsLemmas.{place_back, place_forth, place_fits};
ghost use Rattle.std.proofs.Common.{rules};

use crate::value::Value;

#[derive(Clone, Copy, PartialEq, Eq, Debug, Default)]
pub struct Place {
    // offset (4): the highest byte first
    pub offset: u32,
    // length (4): the highest byte first
    pub length: u32,
}

impl Value for Place {
    ghost width = { 8 };

    ghost bytes_of = { place_bytes };

    ghost value_of = { place_of };

    ghost valid = { PlaceFits };

    ghost small = { Prim.search rules };

    ghost fills = { Prim.search rules };

    ghost bytes = { Prim.search rules };

    ghost back = { place_back };

    ghost forth = { place_forth };

    ghost fits = { place_fits };

    fn width() -> usize {
        8
    }

    fn write_to(&self, out: &mut [u8]) {
        let Place { offset, length } = *self;
        out[0..4].copy_from_slice(&offset.to_be_bytes());
        out[4..8].copy_from_slice(&length.to_be_bytes());
    }

    fn read_from(src: &[u8]) -> Place {
        Place {
            offset: u32::from_be_bytes([src[0], src[1], src[2], src[3]]),
            length: u32::from_be_bytes([src[4], src[5], src[6], src[7]]),
        }
    }
}
