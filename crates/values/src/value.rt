// What every value has, and the two calls that take memory of any length.
ghost use Rattle.std.specs.Prelude.{◌≡◌, ℕ, ◌≤◌, List, ◌++◌, length, take, drop, IfOk, OnOk};
ghost use Rattle.values.specs.BigEndian.{Bytes};
ghost use Rattle.values.specs.Memory.{in_memory, overwritten};

use refusals::Refusal;

// A value writes itself as `width` bytes and reads itself from `width` bytes; the two undo each other.
pub trait Value: Copy {
    ghost width: { ℕ };

    // the bytes that a value writes
    ghost bytes_of: { Self → List ℕ };

    // the value that bytes read as
    ghost value_of: { List ℕ → Self };

    // the value's numbers fit their machine types, and its arrays have their lengths
    ghost valid: { Self → Type 0 };

    fn width() -> usize
        ensures { result ≡ width };

    // Writes the first `width` bytes of `out`, and no others. For memory of any length there is `write_value`.
    fn write_to(&self, out: &mut [u8])
        requires { width ≤ length out.old }
        ensures memory { out.new ≡ bytes_of self.now ++ drop width out.old }
        ensures valid { valid self.now };

    // Reads the first `width` bytes of `src`. For memory of any length there is `read_value`.
    fn read_from(src: &[u8]) -> Self
        requires { width ≤ length src.now }
        ensures value { result ≡ value_of (take width src.now) }
        ensures valid { valid result };

    // 1 to 16 bytes
    ghost small: { (1 ≤ width) × (width ≤ 16) };

    // a value fills its width with bytes
    ghost fills: { (v : Self) → valid v → length (bytes_of v) ≡ width };

    ghost bytes: { (v : Self) → valid v → Bytes (bytes_of v) };

    // what a value wrote reads as that value
    ghost back: { (v : Self) → valid v → value_of (bytes_of v) ≡ v };

    // what bytes read as writes those bytes, and is valid
    ghost forth: { (bs : List ℕ) → length bs ≡ width → Bytes bs → bytes_of (value_of bs) ≡ bs };

    ghost fits: { (bs : List ℕ) → length bs ≡ width → Bytes bs → valid (value_of bs) };
}

// Writes the value at the front of `out`; refused, with nothing written, where `out` is too short.
pub fn write_value<V: Value>(v: &V, out: &mut [u8]) -> Result<(), Refusal>
    ensures answer { result ≡ in_memory V.Value.width out.old tt }
    ensures memory { out.new ≡ overwritten V.Value.width (V.Value.bytes_of v.now) out.old }
    ensures valid { OnOk result (V.Value.valid v.now) }
{
    if out.len() < V::width() {
        return Err(Refusal::ShortMemory);
    }
    v.write_to(out);
    Ok(())
}

// Reads a value from the front of `src`; refused where `src` is too short.
pub fn read_value<V: Value>(src: &[u8]) -> Result<V, Refusal>
    ensures answer { result ≡ in_memory V.Value.width src.now (V.Value.value_of (take V.Value.width src.now)) }
    ensures valid { IfOk result V.Value.valid }
{
    if src.len() < V::width() {
        return Err(Refusal::ShortMemory);
    }
    Ok(V::read_from(src))
}
