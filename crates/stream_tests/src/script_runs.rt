// The run of a script of calls, and the check of several.
use crate::fakes::{Signalled, Sink, Source};
use call_scripts::{check_scripts, run_script};
use page_text::Shelf;
use std::alloc::Global;
use std::io;
use std::io::{Error, ErrorKind};

// two lines, and a third that does not end
const SCRIPT: &[u8] = b"power 20 40 201\ncount\ncount";

// What the three print.
const LINES: &str = "0 0\n0\n0\n";

// The run, and its exit status.
fn run(alloc: Global, bytes: &[u8], breaks: bool, out: &mut Sink, errors: &mut Sink) -> u8 {
    run_script(alloc, Source { bytes, breaks }, out, errors).exit_status()
}

// At the end, at a line's end and within a line: the input ends there, or a read fails, which is no end and ends no line.
#[test]
fn ends_and_reads_that_fail(rt: HostRuntime) {
    for (read, breaks, text, status) in [
        (27, false, LINES, 0),
        (16, false, "0 0\n", 0),
        (19, false, "0 0\nwhat?\n", 0),
        (0, false, "", 0),
        (27, true, "0 0\n0\nstop\n", 3),
        (16, true, "0 0\nstop\n", 3),
        (19, true, "0 0\nstop\n", 3),
        (0, true, "stop\n", 3),
    ] {
        let mut out = Sink::new(rt.alloc(), u64::MAX);
        let mut errors = Sink::new(rt.alloc(), u64::MAX);
        assert_eq!(rt;
            run(rt.alloc(), &SCRIPT[..read], breaks, &mut out, &mut errors),
            status
        );
        assert_eq!(rt; out.bytes.as_slice(), text.as_bytes());
        assert!(rt; errors.bytes.is_empty());
    }
}

// A read that a signal breaks off is one that fails; such a write is tried again.
#[test]
fn signals(rt: HostRuntime) {
    let mut out = Sink::new(rt.alloc(), u64::MAX);
    let mut errors = Sink::new(rt.alloc(), u64::MAX);
    let reader = Signalled {
        bytes: &SCRIPT[..19],
    };
    let ended = run_script(rt.alloc(), reader, &mut out, &mut errors);
    assert_eq!(rt; ended.exit_status(), 3);
    assert_eq!(rt; out.bytes.as_slice(), b"0 0\nstop\n".as_slice());
    let mut out = Sink::new(rt.alloc(), 1);
    out.failure = ErrorKind::Interrupted;
    assert_eq!(rt; run(rt.alloc(), SCRIPT, false, &mut out, &mut errors), 0);
    assert_eq!(rt; out.bytes.as_slice(), LINES.as_bytes());
    assert!(rt; errors.bytes.is_empty());
}

// A writer that takes a byte a write, and one that takes none; the first write fails, one within a line and one at a line's end, and where
// a read failed too: nothing stands behind what is missing, and that is said where it can be.
#[test]
fn writes_that_fail(rt: HostRuntime) {
    for (most, before_failure, breaks, front, status) in [
        (1, u64::MAX, false, LINES, 0),
        (1, u64::MAX, true, "0 0\n0\nstop\n", 3),
        (0, u64::MAX, false, "", 4),
        (1, 0, false, "", 4),
        (1, 2, false, "0 ", 4),
        (1, 4, false, "0 0\n", 4),
        (1, 8, true, "0 0\n0\nst", 4),
    ] {
        for (complaints, said) in [(u64::MAX, "output failed: lines are missing\n"), (0, "")] {
            let mut out = Sink::new(rt.alloc(), before_failure);
            out.most = most;
            let mut errors = Sink::new(rt.alloc(), complaints);
            assert_eq!(rt;
                run(rt.alloc(), SCRIPT, breaks, &mut out, &mut errors),
                status
            );
            assert_eq!(rt; out.bytes.as_slice(), front.as_bytes());
            let said = if status == 4 { said } else { "" };
            assert_eq!(rt; errors.bytes.as_slice(), said.as_bytes());
        }
    }
}

// Four lines say what they are to print, and two print something else; two are at fault, and the last does not end.
const CHECKED: &[u8] =
    b"power 20 40 201 -> 0 0\ncount -> 1 # not so\nlink 1\ncount\nshown\t->  what\ngo\ncount->0 # -> 1";

const DIFFERENCES: &str =
    "s:2:\n  asked 1\n  got   0\ns:5:\n  asked what\n  got   what?\ns:6:\n  fault what? is printed, and not asked for\ns:7:\n  fault a -> behind # asks for nothing\n";

const UNREAD: &str =
    "run_calls: broken: input failed: other error\nrun_calls: gone: input failed: entity not found\n";

// Of a script with a line and no `->`, and of one without a byte.
const SILENT: &str =
    "unsaid:\n  fault no line says what it is to print\nempty:\n  fault no line says what it is to print\n";

/// Scripts by their names.
#[derive(Clone, Copy)]
struct Scripts;

impl Shelf for Scripts {
    ghost use Rattle.std.specs.Prelude.{None};

    type Page = Source<'static>;

    ghost holds = { λ scripts name. None };

    fn open(&self, name: &str) -> io::Result<Source<'static>> {
        let (bytes, breaks) = match name {
            "s" => (CHECKED, false),
            "broken" => (CHECKED, true),
            "same" => (b"count -> refused 1".as_slice(), false),
            "unsaid" => (b"count\n".as_slice(), false),
            "empty" => (b"".as_slice(), false),
            _ => return Err(Error::from(ErrorKind::NotFound)),
        };
        Ok(Source { bytes, breaks })
    }
}

fn check(alloc: Global, names: &[&str], out: &mut Sink, errors: &mut Sink) -> u8 {
    check_scripts(alloc, &Scripts, names, out, errors).exit_status()
}

// Each line that differs or is at fault, with its place; and a front of all that where a write fails, which is said.
#[test]
fn lines_of_a_script(rt: HostRuntime) {
    let lost = "output failed: lines are missing\n";
    for (before_failure, front, last, said, status) in [
        (
            u64::MAX,
            DIFFERENCES,
            "4 lines asked for, 2 differ, 2 faults\n",
            "",
            1,
        ),
        (0, "", "", lost, 4),
        (1, "s:2:\n  ", "", lost, 4),
        (4, "s:2:\n  asked 1\n  got   0\n", "", lost, 4),
        (23, DIFFERENCES, "", lost, 4),
        (24, DIFFERENCES, "4 lines", lost, 4),
    ] {
        let mut out = Sink::new(rt.alloc(), before_failure);
        let mut errors = Sink::new(rt.alloc(), u64::MAX);
        assert_eq!(rt; check(rt.alloc(), &["s"], &mut out, &mut errors), status);
        assert!(rt; out.bytes.starts_with(front.as_bytes()));
        assert_eq!(rt;
            &out.bytes[front.len().min(out.bytes.len())..],
            last.as_bytes()
        );
        assert_eq!(rt; errors.bytes.as_slice(), said.as_bytes());
    }
}

// Scripts one behind the other, and what is told of those that ask nothing and said of those that are unread: they are counted, and the
// others are checked.
#[test]
fn several_scripts(rt: HostRuntime) {
    let none_asked = "run_calls: no line says what it is to print\n";
    for (names, front, last, said, status) in [
        (
            ["same"].as_slice(),
            "",
            "1 lines asked for, 0 differ\n",
            "",
            0,
        ),
        (
            ["unsaid", "same", "empty"].as_slice(),
            SILENT,
            "1 lines asked for, 0 differ, 2 faults\n",
            "",
            1,
        ),
        (
            ["same", "same", "s", "same"].as_slice(),
            DIFFERENCES,
            "7 lines asked for, 2 differ, 2 faults\n",
            "",
            1,
        ),
        (["unsaid", "empty"].as_slice(), SILENT, "", none_asked, 2),
        ([].as_slice(), "", "", none_asked, 2),
        (
            ["broken", "same", "gone", "s"].as_slice(),
            DIFFERENCES,
            "",
            UNREAD,
            3,
        ),
        (["broken", "gone"].as_slice(), "", "", UNREAD, 3),
    ] {
        let mut out = Sink::new(rt.alloc(), u64::MAX);
        let mut errors = Sink::new(rt.alloc(), u64::MAX);
        assert_eq!(rt; check(rt.alloc(), names, &mut out, &mut errors), status);
        assert!(rt; out.bytes.starts_with(front.as_bytes()));
        assert_eq!(rt;
            &out.bytes[front.len().min(out.bytes.len())..],
            last.as_bytes()
        );
        assert_eq!(rt; errors.bytes.as_slice(), said.as_bytes());
    }
}
