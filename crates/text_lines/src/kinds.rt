// What can be wrong with a text of lines, and names.
ghost use Rattle.std.specs.Prelude.{◌≡◌, string_bytes};
ghost use Rattle.text_lines.specs.declared.kinds.LineFault.TheVariants.{Memory};

use std::alloc::{AllocError, AllocFailed};
use std::marker::Model;

/// A name, as its bytes.
#[derive(Drop)]
pub struct Name {
    text: String,
}

impl Model for Name {
    ghost use Rattle.std.specs.Prelude.{List, ℕ, string_bytes};

    ghost Value = { List ℕ };

    ghost view = { λ n. string_bytes n.text };
}

impl Name {
    /// The text as a name.
    pub fn new(text: String) -> Name
        ensures { result ≡ string_bytes text }
    {
        Name { text }
    }

    /// The name's text.
    pub fn as_str(&self) -> &str
        ensures { result.now ≡ self.now }
    {
        self.text.as_str()
    }

    /// The text, given back.
    pub fn into_string(self) -> String
        ensures { string_bytes result ≡ self }
    {
        self.text
    }
}

/// What is wrong with a line, or with the lines together.
#[derive(Clone, Copy, Debug, PartialEq, Eq, Drop)]
pub enum PlanKind {
    /// The first line is another than the text's header.
    Header,
    /// The last line has no line feed, or the text is empty.
    End,
    /// There are more than 4,096 lines.
    Lines,
    /// A word that no line begins with, or that cannot stand at its place.
    Word,
    /// Too few fields, or too many.
    Fields,
    /// No decimal number: digits without a leading zero.
    Number,
    /// No hexadecimal digits in lower case, or another number of them.
    Hex,
    /// No name: too short, too long, or with other bytes than a name has.
    Name,
    /// No UUID: 36 characters, hyphenated, in lower case.
    Uuid,
    /// A number below or above its range.
    Range,
    /// What may stand once stands in an earlier line too.
    Twice,
    /// What the line needs stands in no line.
    Missing,
    /// A file of a length that cannot be served.
    Length,
    /// A composite file that is not in its grammar, or names one file twice.
    Spec,
}

/// Why a text could not be read: the first bad line, from 1, and the first thing wrong with it.
#[derive(Clone, Copy, Debug, PartialEq, Eq, Drop)]
pub enum PlanFault {
    At { line: u64, kind: PlanKind },
    Memory,
}

/// What is wrong with one line.
#[derive(Clone, Copy, Debug, PartialEq, Eq, Drop)]
pub enum LineFault {
    Kind(PlanKind),
    Memory,
}

impl From<AllocError> for LineFault {
    ghost from_gives = { λ _ e. e ≡ Memory };

    fn from(_refused: AllocError) -> LineFault {
        LineFault::Memory
    }
}

impl<T: Drop> From<AllocFailed<T>> for LineFault {
    ghost from_gives = { λ _ e. e ≡ Memory };

    fn from(_refused: AllocFailed<T>) -> LineFault {
        LineFault::Memory
    }
}
