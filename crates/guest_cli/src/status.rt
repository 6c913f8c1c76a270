// The statuses of a run, and its end line.
ghost use Rattle.std.specs.Prelude.{◌≡◌, ◌≤◌, ◌+◌, ◌++◌, ℕ, List, [], length, OnOk, OnErr};
ghost use Rattle.std.specs.Io.KnownBytes.{Appends};
ghost use Rattle.host_traits.specs.Streams.{SomePrefix, HasCause};
ghost use Rattle.guest_cli.specs.Statuses.{status_number, form_word, end_words, end_line};

use guest_boot::{BootFault, write_boot_end};
use host_traits::{Failed, Sink};
use text_lines::{Line, PlanKind, write_file_end};

/// What isn't served yet.
#[derive(Clone, Copy, Debug, PartialEq, Eq, Drop)]
pub enum Form {
    /// A form of the words.
    Command,
    /// A line of the plan.
    Plan,
}

/// How a run ended.
#[derive(Drop)]
pub enum Status {
    /// The input was read to its end at a frame's border, and each frame was answered.
    Done,
    /// The words are none of the forms.
    Usage,
    /// The plan isn't in its grammar: its first bad line, and the first thing wrong with it.
    PlanFault { line: u64, kind: PlanKind },
    /// The folder failed at this file.
    FileFault { name: String },
    /// From this offset on the tape isn't in its grammar.
    TapeFault { at: u64 },
    /// The store list isn't in its grammar, or one of its files is none that its line can use: the line, and what is wrong.
    StoreFault { line: u64, kind: PlanKind },
    /// The source failed.
    ReadFault,
    /// The output or the log failed.
    WriteFault,
    /// At this offset of the stream no frame begins, or the stream ends inside one.
    BadFrame { at: u64 },
    /// A line of the plan couldn't be opened over the host.
    BootFault(BootFault),
    /// A limit on bytes was passed.
    TooMuch,
    /// Want of memory.
    Memory,
    /// What isn't served yet stands here: in the words, or in this line of the plan.
    Unbuilt { form: Form, at: u64 },
}

impl Status {
    /// The number that the program ends with.
    pub fn number(&self) -> u8
        ensures { result ≡ status_number self.now }
    {
        match self {
            Status::Done => 0,
            Status::Usage => 1,
            Status::PlanFault { line: _, kind: _ } => 2,
            Status::FileFault { name: _ } => 3,
            Status::TapeFault { at: _ } | Status::StoreFault { line: _, kind: _ } => 4,
            Status::ReadFault => 5,
            Status::WriteFault => 6,
            Status::BadFrame { at: _ } => 7,
            Status::BootFault(_) => 8,
            Status::TooMuch => 9,
            Status::Memory => 10,
            Status::Unbuilt { form: _, at: _ } => 12,
        }
    }
}

fn form_word(form: Form) -> &'static [u8]
    ensures word { result.now ≡ form_word form }
    ensures len { length result.now ≤ 7 }
{
    match form {
        Form::Command => b"command",
        Form::Plan => b"plan",
    }
}

// The end line without its line feed, of a status whose line has no name.
fn end_words(status: &Status) -> Line
    ensures words { result ≡ end_words status.now }
    ensures len { length result ≤ 60 }
{
    let mut line = Line::new();
    match status {
        Status::Usage => line.put(b"end 1 usage"),
        Status::PlanFault { line: number, kind } => {
            line.put(b"end 2 plan ");
            line.fault(*number, *kind);
        }
        Status::TapeFault { at } => {
            line.put(b"end 4 tape ");
            line.number(*at);
        }
        Status::StoreFault { line: number, kind } => {
            line.put(b"end 4 store ");
            line.fault(*number, *kind);
        }
        Status::ReadFault => line.put(b"end 5 read"),
        Status::BadFrame { at } => {
            line.put(b"end 7 frame ");
            line.number(*at);
        }
        Status::TooMuch => line.put(b"end 9 much"),
        Status::Memory => line.put(b"end 10 memory"),
        Status::Unbuilt { form, at } => {
            line.put(b"end 12 unbuilt ");
            line.put(form_word(*form));
            line.put(b" ");
            line.number(*at);
        }
        _ => {}
    }
    line
}

/// Writes the end line of a status. A finished run and a fault of the output have none, and then the log isn't asked. After
/// `Failed` a front part of it was written. It takes no memory.
pub fn write_end<L: Sink>(status: &Status, log: &mut L) -> Result<(), Failed>
    ensures ok { OnOk result (Appends (L.holds log.old) (L.holds log.new) (end_line status.now)) }
    ensures err { OnErr result
        (SomePrefix (L.holds log.old) (L.holds log.new) (end_line status.now)) }
    ensures cause { HasCause (L.faults log.old) (L.faults log.new) result }
{
    match status {
        Status::FileFault { name } => write_file_end(name.as_str(), log),
        Status::BootFault(fault) => write_boot_end(fault, log),
        Status::Done | Status::WriteFault => Ok(()),
        _ => {
            let mut line = end_words(status);
            line.put(b"\n");
            log.write_all(line.bytes())
        }
    }
}
