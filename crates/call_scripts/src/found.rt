// What a check finds.
ghost use Rattle.std.specs.Prelude.{◌≡◌, true, OnOk};
ghost use Rattle.std.specs.Str.{bytes_eq};
ghost use Rattle.std.specs.Io.KnownBytes.{Appends};
ghost use Rattle.call_scripts.specs.Found.{both, found_in, at_fault, is_silent, status_of, lines_text, faults_text, numbers_text, last_line};

use std::io;
use std::io::Write;

/// What a check found in scripts.
#[derive(Clone, Copy, Debug, Default, PartialEq, Eq)]
pub struct Found {
    /// lines that say what they are to print
    pub asked: u64,
    /// those that print something else
    pub differing: u64,
    /// what would be dropped: a `->` behind `#`, `what?` of a line without `->`, and a script of which no line says what it is to print
    pub faults: u64,
    /// scripts that could not be opened or read
    pub unread: u64,
}

impl Found {
    // Before the first line.
    pub(crate) const NOTHING: Found = Found {
        asked: 0,
        differing: 0,
        faults: 0,
        unread: 0,
    };

    // A script that could not be opened or read.
    pub(crate) const UNREAD: Found = Found {
        asked: 0,
        differing: 0,
        faults: 0,
        unread: 1,
    };

    /// What was found in another script too.
    pub(crate) fn add(&mut self, other: Found)
        ensures { self.new ≡ both self.old other }
    {
        self.asked = self.asked.saturating_add(other.asked);
        self.differing = self.differing.saturating_add(other.differing);
        self.faults = self.faults.saturating_add(other.faults);
        self.unread = self.unread.saturating_add(other.unread);
    }

    /// One line more that says what it is to print: whether it prints that.
    pub(crate) fn hold(&mut self, wanted: &[u8], printed: &[u8]) -> bool
        ensures same { result ≡ bytes_eq wanted.now printed.now }
        ensures found { self.new ≡ found_in self.old wanted.now printed.now }
    {
        let same = wanted == printed;
        self.asked = self.asked.saturating_add(1);
        if !same {
            self.differing = self.differing.saturating_add(1);
        }
        same
    }

    /// One fault more.
    pub(crate) fn fault(&mut self)
        ensures { self.new ≡ at_fault self.old true }
    {
        self.faults = self.faults.saturating_add(1);
    }

    /// No line says what it is to print.
    pub(crate) fn is_silent(self) -> bool
        ensures { result ≡ is_silent self }
    {
        self.asked == 0
    }

    /// The exit status of a program that has found this: 3 a script is unread, 2 no line says what it is to print, 1 a line differs or is at
    /// fault; the greatest that holds, and else 0.
    pub(crate) fn status(self) -> u8
        ensures { result ≡ status_of self }
    {
        if self.unread != 0 {
            return 3;
        }
        if self.is_silent() {
            return 2;
        }
        if self.differing == 0 && self.faults == 0 {
            0
        } else {
            1
        }
    }

    fn write_faults<W: Write>(self, out: &mut W) -> io::Result<()>
        ensures { OnOk result (Appends (W.contents out.old) (W.contents out.new) (faults_text self.faults)) }
    {
        if self.faults == 0 {
            return Ok(());
        }
        write!(out, ", {} faults", self.faults)
    }

    #[tactic(auto, unfolding(crate::specs::Found::lines_text))]
    fn write_lines<W: Write>(self, out: &mut W) -> io::Result<()>
        ensures { OnOk result (Appends (W.contents out.old) (W.contents out.new) (lines_text self)) }
    {
        write!(
            out,
            "{} lines asked for, {} differ",
            self.asked, self.differing
        )
    }

    #[tactic(auto, unfolding(crate::specs::Found::numbers_text))]
    fn write_numbers<W: Write>(self, out: &mut W) -> io::Result<()>
        ensures { OnOk result (Appends (W.contents out.old) (W.contents out.new) (numbers_text self)) }
    {
        self.write_lines(out)?;
        self.write_faults(out)?;
        out.write_all(b"\n")
    }

    /// The last line of a check, which tells how all scripts went: none where one is unread, or no line says what it is to print.
    #[tactic(auto, unfolding(crate::specs::Found::last_line))]
    pub(crate) fn write_last<W: Write>(self, out: &mut W) -> io::Result<()>
        ensures { OnOk result (Appends (W.contents out.old) (W.contents out.new) (last_line self)) }
    {
        if 1 < self.status() {
            return Ok(());
        }
        self.write_numbers(out)
    }
}
