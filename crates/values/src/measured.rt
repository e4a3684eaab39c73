// Values with a signed measure, and the test of two measures.
ghost use Rattle.std.specs.Prelude.{◌≡◌, ℤ, int_lt};

use crate::value::Value;

// A value with a signed measure.
pub trait Measured: Value {
    ghost measure: { Self → ℤ };

    fn measure(&self) -> i32
        ensures { result ≡ measure self.now };
}

// Whether the first has the lower measure.
pub fn lower<V: Measured>(a: &V, b: &V) -> bool
    ensures { result ≡ int_lt (V.Measured.measure a.now) (V.Measured.measure b.now) }
{
    a.measure() < b.measure()
}
