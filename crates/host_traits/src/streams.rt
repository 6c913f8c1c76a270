// Where requests come from, and where replies go.
ghost use Rattle.std.specs.Prelude.{◌≡◌, ◌≤◌, List, ℕ, length, OnOk, OnErr, IfOk};
ghost use Rattle.std.specs.declared.option.Option.{Option};
ghost use Rattle.std.specs.Io.KnownBytes.{Appends, ReadConsumes};
ghost use Rattle.host_traits.specs.Streams.{HasCause, SomePrefix};

/// A read or a write failed. The count of faults of its source or sink rose.
#[derive(Clone, Copy, Debug, PartialEq, Eq, Drop)]
pub struct Failed;

/// Where bytes come from, in order, each of them once. It keeps its count of faults itself.
pub trait Source {
    /// The bytes that are left, where they are known.
    ghost left: { Self → Option (List ℕ) };

    /// How often it failed.
    ghost faults: { Self → ℕ };

    /// Puts the next bytes into the front of `out`, and gives their number, at most that of `out`:
    /// fewer don't say that the input ends. 0 for an `out` that isn't empty says that it ended, and
    /// nothing is left. After `Failed` nothing was taken: the bytes that are left are as before.
    fn read(&mut self, out: &mut [u8]) -> Result<usize, Failed>
        ensures most { IfOk result (λ n. n ≤ length out.old) }
        ensures given { ReadConsumes (left self.old) (left self.new) result out.new }
        ensures cause { HasCause (faults self.old) (faults self.new) result };
}

/// Where bytes go, in order. It keeps its count of faults itself.
pub trait Sink {
    /// The bytes that it holds, where they are known.
    ghost holds: { Self → Option (List ℕ) };

    /// How often it failed.
    ghost faults: { Self → ℕ };

    /// Adds the bytes to those that it holds, all of them after Ok. After `Failed` a prefix of them
    /// was added, of any length from none to all.
    fn write_all(&mut self, bytes: &[u8]) -> Result<(), Failed>
        ensures ok { OnOk result (Appends (holds self.old) (holds self.new) bytes.now) }
        ensures err { OnErr result (SomePrefix (holds self.old) (holds self.new) bytes.now) }
        ensures cause { HasCause (faults self.old) (faults self.new) result };
}
