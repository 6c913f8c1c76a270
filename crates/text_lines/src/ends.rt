// The words that the line has with which a run ends.
ghost use Rattle.std.specs.Prelude.{◌≡◌, ◌≤◌, ◌++◌, ◌+◌, length, OnOk, OnErr};
ghost use Rattle.std.specs.Io.KnownBytes.{Appends};
ghost use Rattle.host_traits.specs.Streams.{SomePrefix, HasCause};
ghost use Rattle.text_lines.specs.Ends.{fault_words, file_end, kind_word};

use crate::kinds::PlanKind;
use crate::line::Line;
use host_traits::{Failed, Sink};

impl PlanKind {
    /// The kind's name in lower case.
    pub fn word(self) -> &'static [u8]
        ensures word { result.now ≡ kind_word self }
        ensures len { length result.now ≤ 7 }
    {
        match self {
            PlanKind::Header => b"header",
            PlanKind::End => b"end",
            PlanKind::Lines => b"lines",
            PlanKind::Word => b"word",
            PlanKind::Fields => b"fields",
            PlanKind::Number => b"number",
            PlanKind::Hex => b"hex",
            PlanKind::Name => b"name",
            PlanKind::Uuid => b"uuid",
            PlanKind::Range => b"range",
            PlanKind::Twice => b"twice",
            PlanKind::Missing => b"missing",
            PlanKind::Length => b"length",
            PlanKind::Spec => b"spec",
        }
    }
}

impl Line {
    /// Adds the number of a line and the word of what is wrong with it.
    pub fn fault(&mut self, number: u64, kind: PlanKind)
        requires { length self.old + 28 ≤ 384 }
        ensures value { self.new ≡ self.old ++ fault_words number kind }
        ensures len { length self.new ≤ length self.old + 28 }
    {
        self.number(number);
        self.put(b" ");
        self.put(kind.word());
    }
}

/// Writes the end line of a run that failed at a file: `end 3 file NAME`. After `Failed` a prefix of it was written. It takes
/// no memory.
pub fn write_file_end<L: Sink>(name: &str, log: &mut L) -> Result<(), Failed>
    ensures ok { OnOk result (Appends (L.holds log.old) (L.holds log.new) (file_end name.now)) }
    ensures err { OnErr result
        (SomePrefix (L.holds log.old) (L.holds log.new) (file_end name.now)) }
    ensures cause { HasCause (L.faults log.old) (L.faults log.new) result }
{
    match log.write_all(b"end 3 file ") {
        Ok(()) => {}
        Err(failed) => return Err(failed),
    }
    match log.write_all(name.as_bytes()) {
        Ok(()) => {}
        Err(failed) => return Err(failed),
    }
    log.write_all(b"\n")
}
