// Tests of the media: known bytes, refusals, and layers over layers.
#![tactic(auto)]

#[cfg(test)]
mod tests {
    use journal::{fresh, open, save_and_reopen};
    use media::{Medium, Order, Slots, Thrift};
    use refusals::Refusal;
    use std::test::Fail;

    // Key 15 with no writes.
    const FRAME: [u8; 4] = [0x01, 0x00, 0x01, 0x0F];

    #[test]
    fn thrift_over_thrift_over_journal(rt: HostRuntime) -> Result<(), Fail> {
        let mut buffer = [0xFF; 1760];
        let Ok(journal) = fresh(&mut buffer) else {
            return Err(Fail::new("1,760 bytes are enough"));
        };
        let mut medium = Thrift {
            below: Thrift { below: journal },
        };
        assert_eq!(rt; medium.left(), 1760);
        assert_eq!(rt; medium.save(15, &FRAME), Ok(()));
        assert_eq!(rt; medium.left(), 1752);
        assert_eq!(rt; medium.save(15, &FRAME), Ok(()));
        assert_eq!(rt; medium.left(), 1752);
        assert_eq!(rt; medium.save(14, &FRAME), Ok(()));
        assert_eq!(rt; medium.left(), 1744);
        let mut out = [9; 5];
        assert_eq!(rt; medium.read(15, &mut out), Ok(Some(4)));
        assert_eq!(rt; out, [0x01, 0x00, 0x01, 0x0F, 9]);
        assert_eq!(rt; medium.read(13, &mut out), Ok(None));
        Ok(())
    }

    #[test]
    fn entry_bytes(rt: HostRuntime) -> Result<(), Fail> {
        let mut buffer = [0xFF; 1760];
        let Ok(mut journal) = fresh(&mut buffer) else {
            return Err(Fail::new("1,760 bytes are enough"));
        };
        assert_eq!(rt; journal.save(15, &FRAME), Ok(()));
        let bytes = journal.into_bytes();
        assert_eq!(rt;
            &bytes[0..9],
            [0x10, 0x00, 0x05, 0x0F, 0x01, 0x00, 0x01, 0x0F, 0x00].as_slice()
        );
        Ok(())
    }

    #[test]
    fn refusals_in_order(rt: HostRuntime) {
        let mut slots = Slots::new();
        assert_eq!(rt; slots.save(16, &[0; 3]), Err(Refusal::NoSuchSeatOrKey));
        assert_eq!(rt; slots.save(15, &[0; 3]), Err(Refusal::WrongLength(0)));
        assert_eq!(rt; slots.save(15, &[0; 1757]), Err(Refusal::WrongLength(0)));
        assert_eq!(rt; slots.save(15, &[7; 1756]), Ok(()));
        assert_eq!(rt; slots.left(), 1760);
        let mut out = [0; 1755];
        assert_eq!(rt; slots.read(16, &mut out), Err(Refusal::NoSuchSeatOrKey));
        assert_eq!(rt; slots.read(15, &mut out), Err(Refusal::ShortMemory));
    }

    #[test]
    fn full_even_for_an_equal_frame(rt: HostRuntime) -> Result<(), Fail> {
        let mut buffer = [0; 1760];
        let Ok(journal) = fresh(&mut buffer) else {
            return Err(Fail::new("1,760 bytes are enough"));
        };
        let mut medium = Thrift { below: journal };
        assert_eq!(rt; medium.save(0, &[7; 1756]), Ok(()));
        assert_eq!(rt; medium.left(), 0);
        assert_eq!(rt; medium.save(0, &[7; 1756]), Err(Refusal::MediumFull));
        Ok(())
    }

    // What opening answers, or none where it is accepted.
    // No `err` and `map`: an error that holds a `&mut` cannot be passed to a closure.
    fn refusal_of(bytes: &mut [u8]) -> Option<Refusal> {
        let Err(unopened) = open(bytes) else {
            return None;
        };
        Some(unopened.why)
    }

    #[test]
    fn openings(rt: HostRuntime) {
        assert_eq!(rt; refusal_of(&mut []), None);
        assert_eq!(rt; refusal_of(&mut [0x00, 0x10]), None);
        assert_eq!(rt; refusal_of(&mut [0x10, 0x00]), Some(Refusal::Truncated(0)));
        assert_eq!(rt;
            refusal_of(&mut [0x10, 0x00, 0x05, 0x0F, 0x01, 0x00, 0x01]),
            Some(Refusal::Truncated(0))
        );
        assert_eq!(rt;
            refusal_of(&mut [0x11, 0x00, 0x00]),
            Some(Refusal::UnexpectedTag(0))
        );
        assert_eq!(rt;
            refusal_of(&mut [0x10, 0x00, 0x04, 0x10, 0x01, 0x00, 0x01]),
            Some(Refusal::WrongLength(0))
        );
        assert_eq!(rt;
            refusal_of(&mut [
                0x10, 0x00, 0x05, 0x0F, 0x01, 0x00, 0x01, 0x0F, 0x10, 0x00, 0x05, 0x10, 0x01, 0x00,
                0x01, 0x10,
            ]),
            Some(Refusal::OutOfRange(8))
        );
    }

    #[test]
    fn saves_and_reopening(rt: HostRuntime) -> Result<(), Fail> {
        let mut buffer = [0xFF; 1760];
        let Ok(journal) = fresh(&mut buffer) else {
            return Err(Fail::new("1,760 bytes are enough"));
        };
        let frames = [1, 2, 3, 4, 5];
        let orders = [
            Order {
                key: 3,
                start: 0,
                length: 4,
            },
            Order {
                key: 3,
                start: 3,
                length: 9,
            },
            Order {
                key: 3,
                start: 1,
                length: 4,
            },
        ];
        let mut answers = [Ok(0); 3];
        let Ok(again) = save_and_reopen(journal, &frames, &orders, &mut answers) else {
            return Err(Fail::new("it opens again"));
        };
        assert_eq!(rt; answers, [Ok(8), Err(Refusal::WrongLength(0)), Ok(8)]);
        assert_eq!(rt; again.left(), 1744);
        assert!(rt; again.holds(3, &[2, 3, 4, 5]));
        Ok(())
    }
}
