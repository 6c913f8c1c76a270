// A composite disk's map over the files of its components.
ghost use Rattle.std.specs.Prelude.{◌≡◌, ◌+◌, ◌-◌, ◌<◌, ◌≤◌, ◌++◌, OnOk, OnErr, IfErr, IfOk, MatchResult, length, take, drop};
ghost use Rattle.composite_spec.specs.Said.{Composite, IsComposite, composite};
ghost use Rattle.block_map.specs.Disk.{contents, disk_bytes, Aliases, Judges, AreWritten};
ghost use Rattle.block_map.specs.declared.map.MapFault.TheVariants.{OutOfDisk, Memory};

use crate::aliases::judge_aliases;
use crate::moves::{copy, judge, overwrite};
use composite_spec::Spec;
use std::alloc::{AllocFailed, Global};
use std::marker::Model;

/// Why a map cannot be made, or a range not be read or written. Components are counted from 0.
#[derive(Clone, Copy, Debug, PartialEq, Eq, Drop)]
pub enum MapFault {
    /// Two components have one path, and one of the two is writable.
    Alias { a: u64, b: u64 },
    /// The range passes the disk's length.
    OutOfDisk,
    /// A component of the range is not writable.
    ReadOnly { component: u64 },
    /// Bytes of the range would fall past the component's file.
    PastComponent { component: u64 },
    /// Want of memory.
    Memory,
}

impl<T: Drop> From<AllocFailed<T>> for MapFault {
    ghost from_gives = { λ _ e. e ≡ Memory };

    fn from(_refused: AllocFailed<T>) -> MapFault {
        MapFault::Memory
    }
}

/// The map of a composite disk. Contracts see what its description says.
#[derive(Drop)]
pub struct Map {
    spec: Spec,
}

impl Model for Map {
    ghost use Rattle.composite_spec.specs.Said.{Composite, IsComposite, composite};

    ghost Value = { Composite };

    ghost view = { λ m. composite m.spec };

    ghost invariant = { λ m. IsComposite (composite m.spec) };
}

impl Map {
    /// The map of a disk. The time is that of a look-up by path for each component.
    pub fn new(alloc: Global, spec: Spec) -> Result<Map, MapFault>
        requires { IsComposite (composite spec) }
        // The map is that of the description.
        ensures value { IfOk result (λ m. m ≡ composite spec) }
        // It is refused exactly where a component is an alias of an earlier one, by the first such, unless memory
        // runs out.
        ensures alias { Aliases (composite spec) result }
    {
        match judge_aliases(alloc, &spec) {
            Ok(()) => Ok(Map { spec }),
            Err(fault) => Err(fault),
        }
    }

    /// The description that the map was made of.
    pub fn spec(&self) -> &Spec
        ensures { composite result.now ≡ self.now }
    {
        &self.spec
    }

    /// How many components there are, and so how many files a call needs.
    pub fn components(&self) -> usize
        ensures { result ≡ length self.now.components }
    {
        self.spec.components.len()
    }

    /// The bytes of the disk.
    pub fn length(&self) -> u64
        ensures { result ≡ self.now.length }
    {
        self.spec.length
    }

    /// Reads the bytes of the disk from `at` on into all of `out`, from one file a component; past a file's end
    /// they are zeros. It takes no memory.
    pub fn read(&self, files: &[Vec<u8>], at: u64, out: &mut [u8]) -> Result<(), MapFault>
        requires { length files.now ≡ length self.now.components }
        // The bytes are the disk's.
        ensures read { OnOk result
            (out.new ≡ take (length out.old) (drop at (disk_bytes self.now (contents files.now)))) }
        ensures range { OnOk result (at + length out.old ≤ self.now.length) }
        // It is refused exactly where the range passes the disk's length.
        ensures beyond { IfErr result
            (λ e. (e ≡ OutOfDisk) × (self.now.length < at + length out.old)) }
        ensures kept { OnErr result (out.new ≡ out.old) }
    {
        let length = self.spec.length;
        if at > length || length - at < out.len() as u64 {
            return Err(MapFault::OutOfDisk);
        }
        copy(&self.spec, files, at, out);
        Ok(())
    }

    /// Writes the bytes to the disk from `at` on, into one file a component. Each component that they touch is
    /// tested before a byte is changed. It takes no memory.
    pub fn write(&self, files: &mut [Vec<u8>], at: u64, bytes: &[u8]) -> Result<(), MapFault>
        requires { length files.old ≡ length self.now.components }
        // It is refused exactly for the first reason, by the range and then by the touched components in order.
        ensures judged { Judges self.now (contents files.old) at (at + length bytes.now) result }
        // Just the bytes of the range change in the files.
        ensures wrote { OnOk result
            (AreWritten self.now at bytes.now (contents files.old) (contents files.new)) }
        // The disk has the bytes from `at` on.
        ensures disk { OnOk result
            (disk_bytes self.now (contents files.new)
            ≡ take at (disk_bytes self.now (contents files.old)) ++ bytes.now ++ drop
            (at + length bytes.now) (disk_bytes self.now (contents files.old))) }
        // After a refusal no file has changed.
        ensures kept { OnErr result (files.new ≡ files.old) }
    {
        let length = self.spec.length;
        if at > length || length - at < bytes.len() as u64 {
            return Err(MapFault::OutOfDisk);
        }
        if bytes.is_empty() {
            return Ok(());
        }
        match judge(&self.spec, files, at, at + bytes.len() as u64) {
            Ok(()) => {}
            Err(fault) => return Err(fault),
        }
        overwrite(&self.spec, files, at, bytes);
        Ok(())
    }
}
