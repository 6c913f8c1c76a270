// How a run of one of the two programs ended.
ghost use Rattle.std.specs.Prelude.{◌≡◌};
ghost use Rattle.frame_text.specs.Programs.{status_number};

/// How a run ended.
#[derive(Clone, Copy, Debug, PartialEq, Eq, Drop)]
pub enum Status {
    /// All of the input was read, and what it says was written.
    Done,
    /// The input is bad, and the line that says where was written.
    Bad,
    /// There are words.
    Usage,
    /// The input failed.
    Read,
    /// The output or the log failed.
    Write,
    /// Want of memory.
    Memory,
}

impl Status {
    /// The number that the program ends with.
    pub fn number(self) -> u8
        ensures { result ≡ status_number self }
    {
        match self {
            Status::Done => 0,
            Status::Bad => 1,
            Status::Usage => 2,
            Status::Read => 5,
            Status::Write => 6,
            Status::Memory => 10,
        }
    }
}
