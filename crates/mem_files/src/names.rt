// The names of a directory.
ghost use Rattle.std.specs.Prelude.{◌≡◌, List, ℕ, [], OnOk, OnErr, true, false};
ghost use Rattle.host_traits.specs.Held.{name_with};
ghost use Rattle.mem_files.specs.Files.{has_name};

use mg_base::Memory;
use std::alloc::Global;
use std::collections::BTreeSet;
use std::marker::Model;

/// The names of a directory.
#[derive(Drop)]
pub struct Names {
    names: BTreeSet<Vec<u8>>,
}

impl Model for Names {
    ghost use Rattle.std.specs.Prelude.{ℕ, map};
    ghost use Rattle.std.specs.Global.{Vec};
    ghost use Rattle.mem_files.specs.Files.{NameList};

    ghost Value = { NameList };

    ghost view = { λ n. map (λ (v : Vec ℕ). v.items) n.names.keys };
}

impl Names {
    pub fn new(alloc: Global) -> Names
        ensures { result ≡ [] }
    {
        Names {
            names: BTreeSet::new(alloc),
        }
    }

    /// Is the name there?
    pub fn has(&self, name: &[u8]) -> bool
        ensures { result ≡ has_name self.now name.now }
    {
        self.names.contains(name)
    }

    /// Adds a name.
    pub fn add(&mut self, alloc: Global, name: &[u8]) -> Result<(), Memory>
        ensures ok { OnOk result
            ((other : List ℕ) → has_name self.new other
            ≡ name_with (has_name self.old) name.now true other) }
        ensures err { OnErr result (self.new ≡ self.old) }
    {
        let key = match Vec::from_slice(alloc, name) {
            Ok(key) => key,
            Err(_) => return Err(Memory),
        };
        match self.names.insert(key) {
            Ok(_) => {}
            Err(_) => return Err(Memory),
        }
        Ok(())
    }

    /// Takes a name away. It takes no memory.
    pub fn remove(&mut self, name: &[u8])
        ensures { (other : List ℕ) → has_name self.new other
            ≡ name_with (has_name self.old) name.now false other }
    {
        let _ = self.names.remove(name);
    }
}
