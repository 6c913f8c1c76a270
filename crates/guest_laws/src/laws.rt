// Laws of a boot and the reads behind it.
ghost use Rattle.guest_laws.specs.Fitting.{ApkReadsAreServed};
ghost use Rattle.guest_laws.specs.Passing.{BootsPass};
ghost use Rattle.guest_laws.specs.Measures.{MeasuresWereSealed};
ghost use Rattle.guest_laws.specs.Writes.{WrittenIsRead};
ghost use Rattle.guest_laws.specs.Naming.{NamesStay};
ghost use Rattle.guest_laws.specs.Lies.{ItemMismatchesLie, ReadMismatchesLie};
ghost use Rattle.guest_laws.specs.Seals.{HonestHostsForgeNone, GetsCauseNone, InstancesHaveSecrets};
ghost use Rattle.guest_laws.specs.Sessions.{BootsAreServed, SessionsAreServed, RecordsAreServed, HonestHostsCauseNone};

/// Over a host that holds what each line of the plan needs, and is honest or of whose calls none failed, boot opens all lines, or
/// there was no memory; and what is held stays. Its contract is the law; it does nothing.
pub fn boots_pass()
    ensures { BootsPass }
{}

/// In a world that meets the premises, where what the host holds has an APK's content at an `apk` line, and the answers of boot for
/// the line's disk and those of a read of its device are what is held, the read has its defined reply, or want of memory, or a
/// call of it failed and is its cause. Its contract is the law; it does nothing.
pub fn apk_reads_are_served()
    ensures { ApkReadsAreServed }
{}

/// Over the host that a store list makes, where it holds what each line of the plan needs, boot passes: no session of `serve`
/// ends with the status of a line that was not opened. Its contract is the law; it does nothing.
pub fn boots_are_served()
    ensures { BootsAreServed }
{}

/// A session of `serve` over the host that a store list makes, in a world that meets the premises: each read of an item or a file
/// that the host holds as its line needs it has its defined reply, and no cause; of an item on the instance image's disk that is so
/// where no record is written. Its contract is the law; it does nothing.
pub fn sessions_are_served()
    ensures { SessionsAreServed }
{}

/// A session of `serve` over the host that a store list makes: each get of a record that stands has its text, or want of memory, and
/// each put that may be made is answered with 0, or want of memory; neither has a cause. A put that is answered with 0 has put its
/// record, and where the host holds at first what the instance line needs it stands until the next such put into its UUID. Its
/// contract is the law; it does nothing.
pub fn records_are_served()
    ensures { RecordsAreServed }
{}

/// A session of `serve` over the host that a store list makes, where it holds at first what the instance line needs, and each record
/// of the image is one of those that were sealed before the run. `seals`: where no request reads other sectors of a disk, it hears no
/// sealed form but theirs and those that it has put, and so meets the premise on seals. `gets`: no get of it has a cause. Its contract
/// is the law; it does nothing.
pub fn honest_hosts_forge_none()
    ensures seals { HonestHostsForgeNone }
    ensures gets { GetsCauseNone }
{}

/// A session of `serve` over the host that a store list makes, where it holds what each line of the plan needs, and what it holds
/// for items stays, in a world that meets the premises: no frame that asks for no record has a cause. Its contract is the law; it
/// does nothing.
pub fn honest_hosts_cause_none()
    ensures { HonestHostsCauseNone }
{}

/// In a world that meets the premises, a mismatch that a read is answered with names an answer to the read's own calls, its last,
/// that isn't the content's page: of a read of an item, and of a READ of a read-only file. Its contract is the law; it does
/// nothing.
pub fn mismatches_lie()
    ensures items { ItemMismatchesLie }
    ensures files { ReadMismatchesLie }
{}

/// Behind each run from the state after boot, each name of a plan's `file` or `write` line leads to its node, a read-only or a writable
/// file with the line's number; no other name is found in the root; the root lists these names, and no others; and the read-only
/// files are those that boot opened. Its contract is the law; it does nothing.
pub fn names_stay()
    ensures { NamesStay }
{}

/// A plan in the grammar with an instance line has a secret of 32 bytes, so no image that opened is without its records. Its contract
/// is the law; it does nothing.
pub fn instances_have_secrets()
    ensures { InstancesHaveSecrets }
{}

/// The measure that boot gets from a record is the text of one of some sealings, for the record's UUID, where no sealed form was heard
/// for it but theirs. Its contract is the law; it does nothing.
pub fn measures_were_sealed()
    ensures { MeasuresWereSealed }
{}

/// In a run from the state after boot each READ of a writable file that is answered with bytes has what was last written with success,
/// whatever the host answered. Its contract is the law; it does nothing.
pub fn written_is_read()
    ensures { WrittenIsRead }
{}
