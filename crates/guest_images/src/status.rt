// The statuses of a run, and its end line.
ghost use Rattle.std.specs.Prelude.{◌≡◌, ◌≤◌, ◌+◌, ◌++◌, ℕ, List, [], length, OnOk, OnErr};
ghost use Rattle.std.specs.Io.KnownBytes.{Appends};
ghost use Rattle.host_traits.specs.Streams.{SomePrefix, HasCause};
ghost use Rattle.guest_images.specs.Statuses.{status_number, unfit_word, end_words, end_line};

use host_traits::{Failed, Sink};
use text_lines::{Line, PlanKind, write_file_end};

/// Why nothing can be made of files that were loaded.
#[derive(Clone, Copy, Debug, PartialEq, Eq, Drop)]
pub enum UnfitKind {
    /// A file of fewer than two blocks has no stored tree.
    TooFewBlocks,
    /// A part of an empty file.
    Empty,
    /// A part that may be written, of a file that is no whole number of blocks.
    Uneven,
    /// More than 128 parts of a disk; more than 256 partitions of an image, or an image of more than 2^21 sectors.
    TooMany,
    /// No part.
    NoParts,
}

/// How a run ended.
#[derive(Drop)]
pub enum Status {
    /// What the words ask for was made.
    Done,
    /// The words are none of the forms.
    Usage,
    /// The list isn't in its grammar: its first bad line, and the first thing wrong with it.
    ListFault { line: u64, kind: PlanKind },
    /// The folder failed at this file.
    FileFault { name: String },
    /// The log failed.
    WriteFault,
    /// A limit on bytes was passed.
    TooMuch,
    /// Want of memory.
    Memory,
    /// Nothing can be made of the files.
    Unfit { kind: UnfitKind },
}

impl Status {
    /// The number that the program ends with.
    pub fn number(&self) -> u8
        ensures { result ≡ status_number self.now }
    {
        match self {
            Status::Done => 0,
            Status::Usage => 1,
            Status::ListFault { line: _, kind: _ } => 2,
            Status::FileFault { name: _ } => 3,
            Status::WriteFault => 6,
            Status::TooMuch => 9,
            Status::Memory => 10,
            Status::Unfit { kind: _ } => 11,
        }
    }
}

fn unfit_word(kind: UnfitKind) -> &'static [u8]
    ensures word { result.now ≡ unfit_word kind }
    ensures len { length result.now ≤ 12 }
{
    match kind {
        UnfitKind::TooFewBlocks => b"toofewblocks",
        UnfitKind::Empty => b"empty",
        UnfitKind::Uneven => b"uneven",
        UnfitKind::TooMany => b"toomany",
        UnfitKind::NoParts => b"noparts",
    }
}

// The end line without its line feed, of a status whose line has no name.
fn end_words(status: &Status) -> Line
    ensures words { result ≡ end_words status.now }
    ensures len { length result ≤ 60 }
{
    let mut line = Line::new();
    match status {
        Status::Usage => line.put(b"end 1 usage"),
        Status::ListFault { line: number, kind } => {
            line.put(b"end 2 list ");
            line.fault(*number, *kind);
        }
        Status::TooMuch => line.put(b"end 9 much"),
        Status::Memory => line.put(b"end 10 memory"),
        Status::Unfit { kind } => {
            line.put(b"end 11 unfit ");
            line.put(unfit_word(*kind));
        }
        _ => {}
    }
    line
}

/// Writes the end line of a status. A finished run and a fault of the log have none, and then the log isn't asked. After
/// `Failed` a front part of it was written. It takes no memory.
pub fn write_end<L: Sink>(status: &Status, log: &mut L) -> Result<(), Failed>
    ensures ok { OnOk result (Appends (L.holds log.old) (L.holds log.new) (end_line status.now)) }
    ensures err { OnErr result
        (SomePrefix (L.holds log.old) (L.holds log.new) (end_line status.now)) }
    ensures cause { HasCause (L.faults log.old) (L.faults log.new) result }
{
    match status {
        Status::FileFault { name } => write_file_end(name.as_str(), log),
        Status::Done | Status::WriteFault => Ok(()),
        _ => {
            let mut line = end_words(status);
            line.put(b"\n");
            log.write_all(line.bytes())
        }
    }
}
