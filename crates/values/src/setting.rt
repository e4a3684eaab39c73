// A setting: a measure with a label.
ghost use Rattle.std.specs.Prelude.{◌≡◌, ◌↔◌, ◌==◌, IsTrue};
ghost use Rattle.std.specs.Cmp.Lexicographic.{pointwise};
ghost use Rattle.values.specs.Layouts.{SettingFits, setting_bytes, setting_of};
ghost use Rattle.std.specs.Cmp.Rules.{comparing};
ghost use Rattle.std.specs.Ordering.{eq_of_both, flip_args, int_eq, on};
ghost use Rattle.std.proofs.Common.{rules};
ghost use Rattle.std.specs.Cmp as Keys;
ghost use Rattle.values.specs.LayoutsLemmas.{setting_back, setting_fits, setting_forth};

use crate::measured::Measured;
use crate::value::Value;

#[derive(Clone, Copy, Debug, Default)]
pub struct Setting {
    // measure (4): signed, the highest byte first
    pub measure: i32,
    // label (12)
    pub label: [u8; 12],
}

// The measures and the labels are the same. By hand, since a derived comparison has no clause that the two settings are then the same.
impl PartialEq for Setting {
    ghost eq = { flip_args (eq_of_both (on (λ s. s.measure) int_eq) (on (λ s. s.label) (pointwise (λ x y. x == y)))) };

    fn eq(&self, other: &Setting) -> bool
        ensures computed { result ≡ flip_args (eq_of_both (on (λ s. s.measure) int_eq) (on (λ s. s.label) (pointwise (λ x y. x == y)))) self.now other.now }
        ensures same { IsTrue result ↔ (self.now ≡ other.now) }
    {
        other.measure == self.measure && other.label == self.label
    }

    ghost laws = { Keys.partial_equiv_from_equiv (Prim.search (comparing, rules)) };
}

impl Eq for Setting {
    ghost laws = { Prim.search (comparing, rules) };
}

// What equality of settings means.
pub fn are_equal(a: &Setting, b: &Setting) -> bool
    ensures { IsTrue result ↔ (a.now ≡ b.now) }
{
    a.eq(b)
}

impl Value for Setting {
    ghost width = { 16 };

    ghost bytes_of = { setting_bytes };

    ghost value_of = { setting_of };

    ghost valid = { SettingFits };

    ghost small = { Prim.search rules };

    ghost fills = { Prim.search rules };

    ghost bytes = { Prim.search rules };

    ghost back = { setting_back };

    ghost forth = { setting_forth };

    ghost fits = { setting_fits };

    fn width() -> usize {
        16
    }

    fn write_to(&self, out: &mut [u8]) {
        out[0..4].copy_from_slice(&self.measure.to_be_bytes());
        out[4..16].copy_from_slice(&self.label);
    }

    fn read_from(src: &[u8]) -> Setting {
        let mut label = [0; 12];
        label.copy_from_slice(&src[4..16]);
        Setting {
            measure: i32::from_be_bytes([src[0], src[1], src[2], src[3]]),
            label,
        }
    }
}

impl Measured for Setting {
    ghost measure = { λ s. s.measure };

    fn measure(&self) -> i32 {
        self.measure
    }
}
