// What is read from or written to, and whether that has failed. The fields are private: nothing else sets them.
ghost use Rattle.std.specs.Prelude.{◌≡◌, ◌+◌, ◌-◌, ◌^◌, ◌<◌, ◌≤◌, ◌||◌, [], false, is_err, length, drop, Some, IfOk, OnOk, OnErr};
ghost use Rattle.std.specs.Io.{ReadsAtMost};
ghost use Rattle.std.specs.Io.KnownBytes.{Appends, Consumes, ReadConsumes, WriteAppends};
ghost use Rattle.std.specs.Io.Buffered.{reader_buffer, reader_inner, reader_remaining};
ghost use Rattle.std.specs.Io.BufRead.{DropsConsumable};
ghost use Rattle.streams.specs.Fronts.{AppendsFront, Filled, StuckBefore, ReadByte};
ghost use Rattle.streams.specs.Lost.{complaint};

use std::io;
use std::io::{BufRead, BufReader, Error, ErrorKind, Read, Write};

/// A reader or a writer that keeps in mind whether it has failed.
#[derive(Drop)]
pub struct Watched<T> {
    inner: T,
    failed: bool,
    writes: u64,
}

impl<T> Watched<T> {
    /// That has not failed yet.
    pub fn new(inner: T) -> Watched<T>
        ensures inner { result.inner ≡ inner }
        ensures calm { result.failed ≡ false }
    {
        Watched {
            inner,
            failed: false,
            writes: 0,
        }
    }

    /// Whether it has failed.
    #[inline(always)]
    pub fn has_failed(&self) -> bool
        ensures { result ≡ self.now.failed }
    {
        self.failed
    }
}

impl<R: Read> Watched<R> {
    // One read.
    fn take(&mut self, buffer: &mut [u8]) -> io::Result<usize>
        ensures bound { ReadsAtMost result buffer.new }
        ensures bytes { ReadConsumes (R.remaining self.old.inner) (R.remaining self.new.inner) result buffer.new }
        ensures noted { self.new.failed ≡ (self.old.failed || is_err result) }
    {
        let read = self.inner.read(buffer);
        self.failed = self.failed || read.is_err();
        read
    }

    /// Reads until the buffer is full or the input ends: how many bytes the buffer holds then.
    ///
    /// # Errors
    /// The reader's, exactly where a read fails.
    #[tactic(auto, using(crate::proofs::Filling::grows_more))]
    pub fn fill(&mut self, buffer: &mut [u8]) -> io::Result<usize>
        ensures same { length buffer.new ≡ length buffer.old }
        ensures ok { IfOk result (λ n. Filled (R.remaining self.old.inner) (R.remaining self.new.inner) n buffer.new) }
        ensures err { OnErr result (StuckBefore (R.remaining self.old.inner) (R.remaining self.new.inner) buffer.new) }
        ensures noted { self.new.failed ≡ (self.old.failed || is_err result) }
    {
        let mut filled: usize = 0;
        while filled < buffer.len() {
            let n = self.take(&mut buffer[filled..])?;
            if n == 0 {
                return Ok(filled);
            }
            filled += n;
        }
        Ok(filled)
    }

    /// The next byte; none at the input's end.
    ///
    /// # Errors
    /// Those of `fill`: no byte was read then.
    pub fn read_byte(&mut self) -> io::Result<Option<u8>>
        ensures ok { IfOk result (λ byte. ReadByte (R.remaining self.old.inner) byte (R.remaining self.new.inner)) }
        ensures err { OnErr result (Consumes (R.remaining self.old.inner) (R.remaining self.new.inner) []) }
        ensures noted { self.new.failed ≡ (self.old.failed || is_err result) }
    {
        let mut byte = [0u8; 1];
        if self.fill(&mut byte)? == 0 {
            return Ok(None);
        }
        Ok(Some(byte[0]))
    }
}

impl<R: Read> Watched<BufReader<R>> {
    /// What lies in the buffer: to read it the reader below is not asked.
    #[inline(always)]
    pub fn buffer(&self) -> &[u8]
        ensures { result.now ≡ reader_buffer self.now.inner }
    {
        self.inner.buffer()
    }

    /// So many bytes of the buffer are taken.
    #[inline(always)]
    pub fn skip(&mut self, n: usize)
        ensures bytes { DropsConsumable (reader_remaining R.remaining self.old.inner) (reader_remaining R.remaining self.new.inner) (Some (length (reader_buffer self.old.inner))) n }
        ensures buffer { reader_buffer self.new.inner ≡ drop n (reader_buffer self.old.inner) }
        ensures below { reader_inner self.new.inner ≡ reader_inner self.old.inner }
        ensures same { self.new.failed ≡ self.old.failed }
    {
        self.inner.consume(n);
    }
}

impl<W: Write> Watched<W> {
    // One write; 0 where a signal broke it off.
    fn attempt(&mut self, bytes: &[u8]) -> io::Result<usize>
        ensures bytes { WriteAppends (W.contents self.old.inner) (W.contents self.new.inner) result bytes.now }
        ensures most { IfOk result (λ n. n ≤ length bytes.now) }
        ensures same { self.new.failed ≡ self.old.failed }
        ensures counted { OnOk result (self.new.writes ≡ self.old.writes + 1) }
        ensures left { OnOk result (self.old.writes < 2 ^ 64 - 1) }
    {
        let Some(writes) = self.writes.checked_add(1) else {
            return Err(Error::from(ErrorKind::TimedOut));
        };
        self.writes = writes;
        match self.inner.write(bytes) {
            Ok(0) => Err(Error::from(ErrorKind::WriteZero)),
            Err(e) if e.kind() == ErrorKind::Interrupted => Ok(0),
            taken => taken,
        }
    }

    // One write, of which an error is kept in mind; also where it takes nothing, and where 2^64 - 1 writes are used up.
    fn offer(&mut self, bytes: &[u8]) -> io::Result<usize>
        ensures bytes { WriteAppends (W.contents self.old.inner) (W.contents self.new.inner) result bytes.now }
        ensures most { IfOk result (λ n. n ≤ length bytes.now) }
        ensures noted { self.new.failed ≡ (self.old.failed || is_err result) }
        ensures counted { OnOk result (self.new.writes ≡ self.old.writes + 1) }
        ensures left { OnOk result (self.old.writes < 2 ^ 64 - 1) }
    {
        let taken = self.attempt(bytes);
        self.failed = self.failed || taken.is_err();
        taken
    }

    /// All of a text, or a front of it that is not all.
    ///
    /// # Errors
    /// The writer's, but for `ErrorKind::Interrupted`; `ErrorKind::WriteZero` where a write takes nothing; `ErrorKind::TimedOut`
    /// where `u64::MAX` writes have not sufficed. A front of the text is written then, and not all of it.
    #[tactic(auto, using(crate::proofs::Pieces::writes))]
    pub fn put(&mut self, text: &[u8]) -> io::Result<()>
        ensures ok { OnOk result (Appends (W.contents self.old.inner) (W.contents self.new.inner) text.now) }
        ensures err { OnErr result (AppendsFront (W.contents self.old.inner) (W.contents self.new.inner) text.now) }
        ensures noted { self.new.failed ≡ (self.old.failed || is_err result) }
    {
        let mut rest = text;
        while !rest.is_empty() {
            let n = self.offer(rest)?;
            rest = &rest[n..];
        }
        Ok(())
    }

    /// Lines that are missing are no good news: a run whose output fails says so where it still can.
    ///
    /// # Errors
    /// Those of `put`.
    pub fn complain(&mut self) -> io::Result<()>
        ensures ok { OnOk result (Appends (W.contents self.old.inner) (W.contents self.new.inner) complaint) }
        ensures err { OnErr result (AppendsFront (W.contents self.old.inner) (W.contents self.new.inner) complaint) }
        ensures noted { self.new.failed ≡ (self.old.failed || is_err result) }
    {
        self.put(b"output failed: lines are missing\n")
    }
}
