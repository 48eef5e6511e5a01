// Log pages told in words.
use crate::fakes::{Months, Sink, Source};
use page_text::Notation::{Bytes, Words};
use page_text::{Lost, Notation, PageKind, Query, exit_status};
use std::alloc::Global;
use std::io;

// The text of page 10h with no error in it: NQ alone, and the byte that sees to the sum.
const TEXT: &str =
    "NQ 1\ntag 0\nstatus 00h\nerror 00h\nLBA 000000000000h\ndevice 00h\ncount 0000h\nother bytes 0\n";

fn blank() -> [u8; 512] {
    let mut page = [0; 512];
    page[0] = 0x80;
    page[511] = 0x80;
    page
}

fn query(alloc: Global, notation: Option<Notation>) -> Query {
    Query {
        alloc,
        page: PageKind::Errors,
        notation,
    }
}

// The page of an input that no file is named beside.
fn tell(
    query: Query,
    bytes: &[u8],
    breaks: bool,
    out: &mut Sink,
    errors: &mut Sink,
) -> Result<u8, Lost> {
    let shelf = Months {
        may: &[],
        june: &[],
    };
    query.run(&shelf, &[], &mut Source { bytes, breaks }, out, errors)
}

// A page told, in bytes and in hex; a page, and behind it a read that fails; two pages that have run together; what is not hex.
#[test]
fn a_page_of_an_input(rt: HostRuntime) -> io::Result<()> {
    let page = blank();
    let twice = [page, page];
    let bytes = format!(in rt.alloc(); "80{:01020}80\n", 0)?;
    let words = format!(in rt.alloc(); "0080{:01016}8000\n", 0)?;
    for (input, breaks, notation, text, status) in [
        (page.as_slice(), false, None, TEXT, 0),
        (bytes.as_bytes(), false, Some(Bytes), TEXT, 0),
        (words.as_bytes(), false, Some(Words), TEXT, 0),
        (page.as_slice(), true, None, "stop\n", 3),
        (bytes.as_bytes(), true, Some(Bytes), "stop\n", 3),
        (twice.as_flattened(), false, None, "refused 20\n", 1),
        (page.as_slice(), false, Some(Bytes), "unread\n", 3),
    ] {
        let mut out = Sink::new(rt.alloc(), u64::MAX);
        let mut errors = Sink::new(rt.alloc(), u64::MAX);
        let query = query(rt.alloc(), notation);
        assert_eq!(rt;
            tell(query, input, breaks, &mut out, &mut errors),
            Ok(status)
        );
        assert_eq!(rt; out.bytes.as_slice(), text.as_bytes());
        assert!(rt; errors.bytes.is_empty());
    }
    Ok(())
}

// Three files, of which the second is not there and the third is two pages that have run together. The input is not read.
#[test]
fn pages_of_files(rt: HostRuntime) -> io::Result<()> {
    let page = blank();
    let twice = [page, page];
    let shelf = Months {
        may: &page,
        june: twice.as_flattened(),
    };
    let names = ["may", "april", "june"];
    let mut reader = Source {
        bytes: &[],
        breaks: true,
    };
    let mut out = Sink::new(rt.alloc(), u64::MAX);
    let mut errors = Sink::new(rt.alloc(), u64::MAX);
    let query = query(rt.alloc(), None);
    assert_eq!(rt;
        query.run(&shelf, &names, &mut reader, &mut out, &mut errors),
        Ok(3)
    );
    let text = format!(in rt.alloc(); "may:\n{TEXT}april: unread\njune:\nrefused 20\n")?;
    assert_eq!(rt; out.bytes.as_slice(), text.as_bytes());
    assert!(rt; errors.bytes.is_empty());
    Ok(())
}

// The first write and the third: nothing stands behind what is missing, and that is said where it can be.
#[test]
fn a_write_that_fails(rt: HostRuntime) {
    let page = blank();
    for (before_failure, front) in [(0, ""), (2, "NQ 1\ntag 0\nsta")] {
        for (complaints, said, lost) in [
            (u64::MAX, "output failed: lines are missing\n", Lost::Aloud),
            (0, "", Lost::Unsaid),
        ] {
            let mut out = Sink::new(rt.alloc(), before_failure);
            let mut errors = Sink::new(rt.alloc(), complaints);
            let query = query(rt.alloc(), None);
            let ended = tell(query, &page, false, &mut out, &mut errors);
            assert_eq!(rt; ended, Err(lost));
            assert_eq!(rt; exit_status(ended), 4);
            assert_eq!(rt; out.bytes.as_slice(), front.as_bytes());
            assert_eq!(rt; errors.bytes.as_slice(), said.as_bytes());
        }
    }
}
