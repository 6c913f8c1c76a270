// Laws of runs.
ghost use Rattle.guest_rules.specs.Faithful.{ReadsAreServed, FileReadsAreServed};
ghost use Rattle.guest_rules.specs.Run.{RunsStand};
ghost use Rattle.guest_rules.specs.Written.{WritesAreRead, HostsAgree, RunsAgree, WritesAreServed};

/// A run whose bytes are cut from pages that are tied to the roots is a run in each world that meets the premises, where the files
/// were opened before it: there each byte is the content's. Its contract is the law; it does nothing.
pub fn runs_stand_in_each_world()
    ensures { RunsStand }
{}

/// Over a faithful host that holds an item as the world has it, a read of the item in which no call fails has its defined reply,
/// or want of memory, and over an honest host each read of it has; and what is held stays. The same of a READ of a read-only
/// file that its checks let through. Its contract is the law; it does nothing.
pub fn reads_are_served()
    ensures items { ReadsAreServed }
    ensures files { FileReadsAreServed }
{}

/// What is read of a writable file in a run, whatever the host answered, is what was last written with success: its bytes at
/// first, changed by the counts and the sizes that were answered since, where nothing that was hashed for a request clashes. Its
/// contract is the law; it does nothing.
pub fn writes_are_read()
    ensures { WritesAreRead }
{}

/// Where the host holds the bytes of a writable file, each request leaves it so, whatever fails, and so does a run: what the host
/// holds of the file is what was last written with success. Its contract is the law; it does nothing.
pub fn writes_are_held()
    ensures request { HostsAgree }
    ensures run { RunsAgree }
{}

/// Over a host that holds a file's bytes, where no call failed or it is honest, a request on the file has its defined answer, or
/// want of memory. Its contract is the law; it does nothing.
pub fn writes_are_served()
    ensures { WritesAreServed }
{}
