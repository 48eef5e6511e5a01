// A reader and a writer that fail when they are told to, and a shelf of pages. Nothing is claimed of their bytes.
use page_text::Shelf;
use std::alloc::Global;
use std::io;
use std::io::{Error, ErrorKind, Read, Write};

/// Bytes, and behind them the input's end, or reads that fail.
#[derive(Clone, Copy)]
pub(crate) struct Source<'a> {
    pub(crate) bytes: &'a [u8],
    pub(crate) breaks: bool,
}

impl<'a> Read for Source<'a> {
    fn read(&mut self, buf: &mut [u8]) -> io::Result<usize> {
        if self.breaks && self.bytes.is_empty() {
            return Err(Error::from(ErrorKind::Other));
        }
        self.bytes.read(buf)
    }
}

/// Bytes, and behind them reads that a signal breaks off.
#[derive(Drop)]
pub(crate) struct Signalled<'a> {
    pub(crate) bytes: &'a [u8],
}

impl<'a> Read for Signalled<'a> {
    fn read(&mut self, buf: &mut [u8]) -> io::Result<usize> {
        if self.bytes.is_empty() {
            return Err(Error::from(ErrorKind::Interrupted));
        }
        self.bytes.read(buf)
    }
}

/// A writer that takes so many bytes a write. Behind so many writes one fails, and those behind that go on.
#[derive(Drop)]
pub(crate) struct Sink {
    pub(crate) bytes: Vec<u8>,
    pub(crate) most: usize,
    pub(crate) failure: ErrorKind,
    before_failure: u64,
    // a write ended within a line
    cut: bool,
}

impl Sink {
    pub(crate) fn new(alloc: Global, before_failure: u64) -> Sink {
        Sink {
            bytes: Vec::new(alloc),
            most: 7,
            failure: ErrorKind::Other,
            before_failure,
            cut: false,
        }
    }

    /// Whether each write ended with a line.
    pub(crate) fn got_whole_lines(&self) -> bool {
        !self.cut
    }

    /// Whether the write that failed was the last that was tried.
    pub(crate) fn failed_last(&self) -> bool {
        self.before_failure == u64::MAX
    }
}

impl Write for Sink {
    fn write(&mut self, buf: &[u8]) -> io::Result<usize> {
        let fails = self.before_failure == 0;
        self.before_failure = self.before_failure.wrapping_sub(1);
        if fails {
            return Err(Error::from(self.failure));
        }
        self.cut = self.cut || !buf.ends_with(b"\n");
        let taken = buf.len().min(self.most);
        self.bytes.extend_from_slice(&buf[..taken])?;
        Ok(taken)
    }

    fn flush(&mut self) -> io::Result<()> {
        Ok(())
    }
}

/// The pages of two months.
#[derive(Drop)]
pub(crate) struct Months<'a> {
    pub(crate) may: &'a [u8],
    pub(crate) june: &'a [u8],
}

impl<'a> Shelf for Months<'a> {
    ghost use Rattle.std.specs.Prelude.{None};

    type Page = Source<'a>;

    ghost holds = { λ months name. None };

    fn open(&self, name: &str) -> io::Result<Source<'a>> {
        let bytes = match name {
            "may" => self.may,
            "june" => self.june,
            _ => return Err(Error::from(ErrorKind::NotFound)),
        };
        Ok(Source {
            bytes,
            breaks: false,
        })
    }
}
