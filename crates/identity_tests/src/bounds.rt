// Depth, capacity and room at their bounds.
use identity::{Identified, Identity, read_identity, write_identity};
use refusals::Refusal;

// What every byte of a buffer is before the call, so that one that is written shows.
const UNTOUCHED: u8 = 0xEE;

// The least and the most that fit: read back, and nothing is written behind the page.
#[test]
fn what_fits(rt: HostRuntime) {
    for (depth, capacity) in [
        (1u8, 0u64),
        (1, 1),
        (32, 0xFFFF),
        (32, 0x1_0000),
        (32, 0xFFFF_FFFF_FFFF),
    ] {
        let mut buf = [UNTOUCHED; 520];
        let identity = Identity {
            depth: u32::from(depth),
            capacity,
        };
        assert_eq!(rt; write_identity(&mut buf, identity), Ok(512));
        assert_eq!(rt;
            read_identity(buf.get(..512).unwrap_or_default()),
            Ok(Identified {
                queue: Some(depth),
                capacity: Some(capacity),
            })
        );
        assert_eq!(rt;
            buf.get(512..).unwrap_or_default(),
            [UNTOUCHED; 8].as_slice()
        );
    }
}

// 25 for a depth and a capacity that have no place, in a short buffer too; 26 for that alone. No byte is changed.
#[test]
fn what_is_refused(rt: HostRuntime) {
    for (size, depth, capacity, refusal) in [
        (512usize, 0u32, 1u64, Refusal::Unfit),
        (512, 33, 1, Refusal::Unfit),
        (512, 1, 0x1_0000_0000_0000, Refusal::Unfit),
        (511, 0, 1, Refusal::Unfit),
        (511, 1, 1, Refusal::BufferShort),
        (0, 1, 1, Refusal::BufferShort),
    ] {
        let mut buf = [UNTOUCHED; 512];
        let identity = Identity { depth, capacity };
        assert_eq!(rt; write_identity(&mut buf[..size], identity), Err(refusal));
        assert_eq!(rt; buf, [UNTOUCHED; 512]);
    }
}
