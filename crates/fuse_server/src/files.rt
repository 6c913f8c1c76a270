// The files behind the nodes.
ghost use Rattle.std.specs.Prelude.{◌≡◌, [], OnOk, OnErr};
ghost use Rattle.std.specs.Option.{option_map};
ghost use Rattle.std.specs.Ordering.{nat_cmp};
ghost use Rattle.std.specs.BTreeMap.{insert_entry};
ghost use Rattle.ro_file.specs.Files.{MeasuredFile};
ghost use Rattle.fuse_server.specs.State.{file_at};

use mg_base::Memory;
use ro_file::RoFile;
use std::alloc::Global;
use std::collections::BTreeMap;
use std::marker::Model;

/// The read-only files, by the numbers that their nodes name. Contracts see numbers and files, by rising numbers.
#[derive(Drop)]
pub struct Files {
    files: BTreeMap<u32, RoFile>,
}

impl Model for Files {
    ghost use Rattle.std.specs.Prelude.{List, ℕ};
    ghost use Rattle.ro_file.specs.Files.{MeasuredFile};

    ghost Value = { List (ℕ × MeasuredFile) };

    ghost view = { λ a. a.files.entries };
}

impl Files {
    /// No file. It takes no memory.
    pub fn new(alloc: Global) -> Files
        ensures { result ≡ [] }
    {
        Files {
            files: BTreeMap::new(alloc),
        }
    }

    /// Puts a file at a number, in the place of one that stands there.
    pub fn add(&mut self, number: u32, file: RoFile) -> Result<(), Memory>
        ensures ok { OnOk result (self.new ≡ insert_entry nat_cmp self.old number file) }
        ensures err { OnErr result (self.new ≡ self.old) }
    {
        match self.files.insert(number, file) {
            Ok(_) => Ok(()),
            Err(_) => Err(Memory),
        }
    }

    /// The file of a number.
    pub(crate) fn at(&self, number: u32) -> Option<RoFile>
        ensures { result ≡ file_at self.now number }
    {
        match self.files.get(&number) {
            Some(file) => Some(*file),
            None => None,
        }
    }
}
