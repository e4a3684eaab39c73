// Known bytes of the three values, the order of measures around zero, and a round trip for every value.
#![tactic(auto)]

ghost use Rattle.std.specs.Prelude.{◌≡◌};
ghost use Rattle.values.specs.Memory.{in_memory, overwritten};

use refusals::Refusal;
use values::{Value, read_value, write_value};

// Writes the value and reads it again: it comes back the same.
pub fn there_and_back<V: Value>(v: &V, memory: &mut [u8]) -> Result<V, Refusal>
    ensures answer { result ≡ in_memory V.Value.width memory.old v.now }
    ensures memory { memory.new ≡ overwritten V.Value.width (V.Value.bytes_of v.now) memory.old }
{
    write_value(v, memory)?;
    read_value(memory)
}

#[cfg(test)]
mod tests {
    use super::there_and_back;
    use refusals::Refusal;
    use values::{Detent, Place, Setting, Value, are_equal, lower, write_value};

    // measures by rising order, each with its bytes
    const MEASURES: [(i32, [u8; 4]); 5] = [
        (-2147483648, [0x80, 0x00, 0x00, 0x00]),
        (-1, [0xFF, 0xFF, 0xFF, 0xFF]),
        (0, [0x00, 0x00, 0x00, 0x00]),
        (1, [0x00, 0x00, 0x00, 0x01]),
        (2147483647, [0x7F, 0xFF, 0xFF, 0xFF]),
    ];

    // the label, and two bytes that no setting writes
    const LABEL_AND_REST: [u8; 14] = *b"cabin lights\xEE\xEE";

    fn setting(measure: i32) -> Setting {
        Setting {
            measure,
            label: *b"cabin lights",
        }
    }

    #[test]
    fn settings(rt: HostRuntime) {
        for (i, &(measure, bytes)) in MEASURES.iter().enumerate() {
            let mut out = [0xEEu8; 18];
            let written = setting(measure);
            assert_eq!(rt; there_and_back(&written, &mut out), Ok(written));
            assert!(rt; out[0..4] == bytes[0..4]);
            assert!(rt; out[4..18] == LABEL_AND_REST[0..14]);
            for (j, &(other, _)) in MEASURES.iter().enumerate() {
                assert_eq!(rt; lower(&written, &setting(other)), i < j);
                assert_eq!(rt; are_equal(&written, &setting(other)), i == j);
            }
        }
    }

    #[test]
    fn labels_are_compared(rt: HostRuntime) {
        let mut other = setting(1);
        other.label[11] = b'S';
        assert!(rt; !are_equal(&setting(1), &other));
    }

    // steps by rising order, each with its bytes
    const STEPS: [(i16, [u8; 2]); 4] = [
        (-32768, [0x80, 0x00]),
        (-1, [0xFF, 0xFF]),
        (0, [0x00, 0x00]),
        (32767, [0x7F, 0xFF]),
    ];

    #[test]
    fn detents(rt: HostRuntime) {
        for (i, &(step, bytes)) in STEPS.iter().enumerate() {
            let mut out = [0xEEu8; 2];
            let detent = Detent { step };
            assert_eq!(rt; there_and_back(&detent, &mut out), Ok(detent));
            assert_eq!(rt; out, bytes);
            for (j, &(other, _)) in STEPS.iter().enumerate() {
                assert_eq!(rt; lower(&detent, &Detent { step: other }), i < j);
            }
        }
    }

    #[test]
    fn places(rt: HostRuntime) {
        let mut out = [0xEEu8; 9];
        let place = Place {
            offset: 0x01020304,
            length: 0xA0B0C0D0,
        };
        assert_eq!(rt; there_and_back(&place, &mut out), Ok(place));
        assert_eq!(rt; out, [0x01, 0x02, 0x03, 0x04, 0xA0, 0xB0, 0xC0, 0xD0, 0xEE]);
    }

    #[test]
    fn short_memory(rt: HostRuntime) {
        let mut out = [0xEEu8; 15];
        assert_eq!(rt;
            write_value(&setting(1), &mut out),
            Err(Refusal::ShortMemory)
        );
        assert_eq!(rt; out, [0xEEu8; 15]);
    }
}
