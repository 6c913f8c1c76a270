// The files that the guest writes.
ghost use Rattle.std.specs.Prelude.{◌≡◌, [], OnOk, OnErr};
ghost use Rattle.std.specs.Ordering.{nat_cmp};
ghost use Rattle.std.specs.BTreeMap.{insert_entry};
ghost use Rattle.fuse_server.specs.State.{empty_file};

use mg_base::Memory;
use rw_file::RwFile;
use rw_leaves::Leaves;
use std::alloc::Global;
use std::collections::BTreeMap;
use std::marker::Model;

/// The files that the guest writes, by the numbers that their nodes name. Contracts see numbers and files, by rising numbers.
#[derive(Drop)]
pub struct Writables {
    files: BTreeMap<u32, RwFile<Leaves>>,
}

impl Model for Writables {
    ghost use Rattle.fuse_server.specs.State.{Writables};

    ghost Value = { Writables };

    ghost view = { λ a. a.files.entries };
}

impl Writables {
    /// No file. It takes no memory.
    pub fn new(alloc: Global) -> Writables
        ensures { result ≡ [] }
    {
        Writables {
            files: BTreeMap::new(alloc),
        }
    }

    /// Puts the file of this number at the host at this number, in the place of one that stands there; it is empty.
    pub fn add(&mut self, alloc: Global, number: u32) -> Result<(), Memory>
        ensures ok { OnOk result
            (self.new ≡ insert_entry nat_cmp self.old number (empty_file number)) }
        ensures err { OnErr result (self.new ≡ self.old) }
    {
        match self
            .files
            .insert(number, RwFile::new(number, Leaves::new(alloc)))
        {
            Ok(_) => Ok(()),
            Err(_) => Err(Memory),
        }
    }

    /// The files by their numbers.
    pub(crate) fn into_map(self) -> BTreeMap<u32, RwFile<Leaves>>
        ensures { result.entries ≡ self }
    {
        self.files
    }
}
