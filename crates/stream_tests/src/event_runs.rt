// The run of an event file.
use crate::fakes::{Sink, Source};
use events::{exit_status, run_aloud};
use std::alloc::Global;
use std::io::BufReader;
use streams::Watched;

// settings, COMRESET, and the first of the two bytes of an event
const EVENTS: &[u8] = &[0x00, 32, 64, 0, 0, 0, 0x01, 0x02, 0x06, 0x01];

// The lines of the two whole events, and the same where no event follows.
const LINES: &str = "0 0 00000000\n1 0 00000000 34:20\n";

const STOPPED: &str = "0 0 00000000\n1 0 00000000 34:20\nstop\n";

// A queued read of 64 sectors with tag 5, its phase, and the four sends, of which each line in a trace is as long as one can be.
const SENDS: [u8; 26] = [
    0x27, 0x80, 0x60, 0x40, 0, 0, 0, 0x40, 0, 0, 0, 0, 0x28, 0, 0, 0, 0, 0, 0, 0, 0x01, 5, 2, 2, 2,
    2,
];

// The run, traced or not, in pieces of so many bytes, and its exit status.
fn run(
    alloc: Global,
    traced: bool,
    piece: usize,
    bytes: &[u8],
    breaks: bool,
    out: &mut Sink,
    errors: &mut Sink,
) -> u8 {
    let Ok(pieces) = BufReader::with_capacity(alloc, piece, Source { bytes, breaks }) else {
        return 0;
    };
    let mut out = Watched::new(out);
    let mut errors = Watched::new(errors);
    exit_status(&run_aloud(traced, &mut Watched::new(pieces), &mut out, &mut errors))
}

// Between two events and within one: the end of the input, and a read that fails, which is no end.
#[test]
fn ends_and_reads_that_fail(rt: HostRuntime) {
    for (read, breaks, text, status) in [
        (9, false, LINES, 0),
        (10, false, STOPPED, 1),
        (9, true, STOPPED, 3),
        (10, true, STOPPED, 3),
    ] {
        let mut out = Sink::new(rt.alloc(), u64::MAX);
        let mut errors = Sink::new(rt.alloc(), u64::MAX);
        assert_eq!(rt;
            run(
                rt.alloc(),
                false,
                5,
                &EVENTS[..read],
                breaks,
                &mut out,
                &mut errors
            ),
            status
        );
        assert_eq!(rt; out.bytes.as_slice(), text.as_bytes());
        assert!(rt; errors.bytes.is_empty());
    }
}

// Refused settings: their line, and nothing of what follows.
#[test]
fn refused_settings(rt: HostRuntime) {
    let mut events = [0x06; 48];
    events[..8].copy_from_slice(&EVENTS[..8]);
    events[1] = 33;
    let mut out = Sink::new(rt.alloc(), u64::MAX);
    let mut errors = Sink::new(rt.alloc(), u64::MAX);
    assert_eq!(rt;
        run(rt.alloc(), false, 5, &events, false, &mut out, &mut errors),
        1
    );
    assert_eq!(rt; out.bytes.as_slice(), "0 1 00000000\n".as_bytes());
    assert!(rt; errors.bytes.is_empty());
}

// Forty events, and then the end of the input, or a read that fails: where a piece holds no event whole, and where it holds all.
#[test]
fn pieces(rt: HostRuntime) {
    // the settings, and COMRESET again and again
    let mut events = [0x06; 48];
    events[..8].copy_from_slice(&EVENTS[..8]);
    for (breaks, last, length, status) in [
        (false, "40 0 00000000 34:20\n", 804, 0),
        (true, "40 0 00000000 34:20\nstop\n", 809, 3),
    ] {
        for piece in [1, 5, 64] {
            let mut out = Sink::new(rt.alloc(), u64::MAX);
            let mut errors = Sink::new(rt.alloc(), u64::MAX);
            assert_eq!(rt;
                run(
                    rt.alloc(),
                    false,
                    piece,
                    &events,
                    breaks,
                    &mut out,
                    &mut errors
                ),
                status
            );
            assert!(rt; out.bytes.ends_with(last.as_bytes()));
            assert_eq!(rt; out.bytes.len(), length);
            assert!(rt; errors.bytes.is_empty());
        }
    }
}

// The first write, the fourth, and one behind the lines that are written at once: nothing stands behind what is missing, and that is
// said where it can be.
#[test]
fn a_write_that_fails(rt: HostRuntime) {
    // the settings, and COMRESET again and again
    let mut events = [0x06; 4000];
    events[..8].copy_from_slice(&EVENTS[..8]);
    for (before_failure, front) in [(0, ""), (3, "0 0 00000000\n1 0 0000"), (5000, LINES)] {
        for (complaints, said) in [(u64::MAX, "output failed: lines are missing\n"), (0, "")] {
            let mut out = Sink::new(rt.alloc(), before_failure);
            let mut errors = Sink::new(rt.alloc(), complaints);
            assert_eq!(rt;
                run(rt.alloc(), false, 5, &events, false, &mut out, &mut errors),
                4
            );
            assert!(rt; out.bytes.starts_with(front.as_bytes()));
            assert!(rt; out.failed_last());
            assert_eq!(rt; errors.bytes.as_slice(), said.as_bytes());
        }
    }
}

// What a run writes where each write takes all that it is given.
fn run_at_once(alloc: Global, traced: bool, piece: usize, bytes: &[u8]) -> Sink {
    let mut out = Sink::new(alloc, u64::MAX);
    let mut errors = Sink::new(alloc, u64::MAX);
    out.most = usize::MAX;
    run(alloc, traced, piece, bytes, false, &mut out, &mut errors);
    out
}

// Whole lines at once: in each write, in pieces of any size; and in a trace, however near to being much the lines before the longest are.
#[test]
fn whole_lines(rt: HostRuntime) {
    // the settings, and COMRESET again and again
    let mut events = [0x06; 4000];
    events[..8].copy_from_slice(&EVENTS[..8]);
    for piece in [1, 64, 65536] {
        let out = run_at_once(rt.alloc(), false, piece, &events);
        assert!(rt; out.got_whole_lines());
        assert!(rt; out.bytes.ends_with(b"\n3992 0 00000000 34:20\n"));
    }
    for before in 220usize..240 {
        let mut events = [0x06; 300];
        events[..8].copy_from_slice(&EVENTS[..8]);
        events[8 + before..34 + before].copy_from_slice(&SENDS);
        let out = run_at_once(rt.alloc(), true, 65536, &events[..34 + before]);
        assert!(rt; out.got_whole_lines());
        assert!(rt; out.bytes.len() > 65536);
    }
}

// The write of `stop` alone: the lines before it stand, and nothing behind them.
#[test]
fn a_stop_that_is_lost(rt: HostRuntime) {
    let mut out = Sink::new(rt.alloc(), 5);
    let mut errors = Sink::new(rt.alloc(), u64::MAX);
    assert_eq!(rt;
        run(rt.alloc(), false, 5, EVENTS, false, &mut out, &mut errors),
        4
    );
    assert!(rt; out.failed_last());
    assert_eq!(rt; out.bytes.as_slice(), LINES.as_bytes());
    assert_eq!(rt;
        errors.bytes.as_slice(),
        "output failed: lines are missing\n".as_bytes()
    );
}
