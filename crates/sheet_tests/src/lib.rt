// Tests of the crate `sheets`, in a crate of their own so that they are not proved with it again and again.
#![tactic(auto)]

#[cfg(test)]
mod tests {
    use sheets::{Refusal, Sheet};
    use std::alloc::{AllocError, Global};
    use std::test::Fail;

    // The number with which bytes are refused, or none where they are a sheet.
    fn verdict(heap: Global, bytes: &[u8]) -> Option<u32> {
        Sheet::read(heap, bytes).err().map(Refusal::number)
    }

    const SMALL: [u8; 32] = [
        1, 3, 1, 0, 3, //
        1, 0, 0, 0, 1, 0, 0, 0, 0, //
        4, 0, 0, 0, 0, 0, 0, 0, 0, //
        5, 0, 0, 0, 1, 0, 0, 0, 0,
    ];

    // SMALL with some byte changed, and what comes of it.
    const CHANGED: [(usize, u8, Option<u32>); 18] = [
        (0, 1, None),
        (0, 2, Some(1)),
        (1, 0, Some(2)),
        (1, 16, Some(2)),
        (2, 2, Some(2)),
        (4, 2, Some(1)),
        (5, 0, Some(1)),
        (5, 6, Some(1)),
        (9, 0, Some(3)),
        (9, 4, Some(3)),
        (13, 1, Some(1)),
        (15, 128, Some(3)),
        (18, 1, Some(4)),
        (22, 1, Some(4)),
        (23, 7, Some(1)),
        (27, 2, Some(4)),
        (24, 127, Some(4)),
        (31, 1, Some(1)),
    ];

    #[test]
    fn one_byte_changed(rt: HostRuntime) {
        let heap = rt.alloc();
        for (at, byte, number) in CHANGED {
            let mut bytes = SMALL;
            assert!(rt; at < 32);
            bytes[at] = byte;
            assert_eq!(rt; verdict(heap, &bytes), number);
        }
    }

    // Two bytes changed: the lower number wins.
    const TWICE: [(usize, u8, usize, u8, Option<u32>); 6] = [
        (1, 16, 5, 6, Some(1)),
        (1, 16, 9, 0, Some(2)),
        (9, 4, 27, 2, Some(3)),
        (15, 128, 27, 2, Some(3)),
        (2, 2, 23, 9, Some(1)),
        (27, 2, 31, 1, Some(1)),
    ];

    #[test]
    fn two_bytes_changed(rt: HostRuntime) {
        let heap = rt.alloc();
        for (at, byte, other, second, number) in TWICE {
            let mut bytes = SMALL;
            assert!(rt; at < 32);
            assert!(rt; other < 32);
            bytes[at] = byte;
            bytes[other] = second;
            assert_eq!(rt; verdict(heap, &bytes), number);
        }
    }

    #[test]
    fn cut_at_every_length(rt: HostRuntime) {
        let heap = rt.alloc();
        for length in 0..32 {
            assert_eq!(rt; verdict(heap, &SMALL[0..length]), Some(1));
        }
        assert_eq!(rt;
            verdict(heap, &[1, 4, 2, 0, 1, 1, 0, 0, 0, 1, 0, 0, 0, 0]),
            Some(2)
        );
        assert_eq!(rt;
            verdict(heap, &[1, 3, 1, 0, 1, 5, 0, 0, 0, 0, 0, 0, 0, 0]),
            Some(4)
        );
        assert_eq!(rt; verdict(heap, &[1, 3, 1, 0, 0]), Some(2));
    }

    // A sheet of so many lines, of which the first so many are inputs and the others multiples of value 0.
    fn long(heap: Global, inputs: u16, lines: u16) -> Result<Vec<u8>, AllocError> {
        let [high, low] = lines.to_be_bytes();
        let mut bytes = Vec::from_slice(heap, &[1, 15, 7, high, low])?;
        for k in 0..lines {
            if k < inputs {
                bytes.extend_from_slice(&[1, 0, 0, 0, 15, 0, 0, 0, 0])?;
            } else {
                bytes.extend_from_slice(&[3, 0, 0, 0, 7, 0, 0, 0, 0])?;
            }
        }
        Ok(bytes)
    }

    #[test]
    fn limits(rt: HostRuntime) -> Result<(), Fail> {
        let heap = rt.alloc();
        assert_eq!(rt; verdict(heap, &long(heap, 1, 4096)?), None);
        assert_eq!(rt; verdict(heap, &long(heap, 1, 4097)?), Some(2));
        assert_eq!(rt; verdict(heap, &long(heap, 1024, 1025)?), None);
        assert_eq!(rt; verdict(heap, &long(heap, 1025, 1026)?), Some(12));
        let mut unknown = long(heap, 1, 4097)?;
        unknown.truncate(5 + 9 * 4096);
        unknown.extend_from_slice(&[9, 0, 0, 0, 0, 0, 0, 0, 0])?;
        assert_eq!(rt; verdict(heap, &unknown), Some(1));
        Ok(())
    }

    #[test]
    fn written_and_opened(rt: HostRuntime) -> Result<(), Fail> {
        let heap = rt.alloc();
        let sheet = Sheet::read(heap, &SMALL)?;
        let mut bytes = Vec::new(heap);
        sheet.write(&mut bytes)?;
        assert!(rt; bytes.as_slice() == SMALL.as_slice());
        assert_eq!(rt; sheet.members(), 3);
        assert_eq!(rt; sheet.threshold(), 1);
        assert_eq!(rt; sheet.figures_needed(1), 1);
        assert_eq!(rt; sheet.figures_needed(2), 0);
        assert_eq!(rt; sheet.coins_needed(1), 2);
        assert_eq!(rt; sheet.coins_needed(3), 1);
        assert!(rt; sheet.result(heap, &[&[9]])?.as_slice() == [81].as_slice());
        assert_eq!(rt;
            sheet.result(heap, &[&[], &[9]]).err(),
            Some(Refusal::NoFigure)
        );
        assert_eq!(rt;
            sheet.result(heap, &[&[9], &[2147483647]]).err(),
            Some(Refusal::OutOfRange)
        );
        Ok(())
    }
}
