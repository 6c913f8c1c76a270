// The tree pages of a file, by level and index.
ghost use Rattle.std.specs.Prelude.{◌≡◌, ◌≤◌, ◌<◌, ◌+◌, ◌-◌, ◌*◌, List, ℕ, [], length, OnOk, OnErr};
ghost use Rattle.std.specs.Bool.{OnFalse, OnTrue};
ghost use Rattle.host_traits.specs.Held.{tree_with};
ghost use Rattle.mem_files.specs.Files.{page_in};

use host_traits::Raw;
use mg_base::{Memory, Page};
use std::alloc::Global;
use std::collections::BTreeMap;
use std::marker::Model;

const ZEROS: [u8; 4096] = [0; 4096];

/// The tree pages of a file, by level and index. One that isn't there reads as zeros.
#[derive(Drop)]
pub(crate) struct TreePages {
    pages: BTreeMap<(u32, u64), Page>,
}

impl Model for TreePages {
    ghost use Rattle.mem_files.specs.Files.{Pages};

    ghost Value = { Pages };

    ghost view = { λ t. t.pages.entries };
}

// Puts a page over one that is there. Is one?
fn replace(pages: &mut BTreeMap<(u32, u64), Page>, level: u32, index: u64, bytes: &[u8]) -> bool
    requires { length bytes.now ≡ 4096 }
    ensures put { OnTrue result ((l i : ℕ) → page_in pages.new.entries l i
        ≡ tree_with (page_in pages.old.entries) level index bytes.now l i) }
    ensures none { OnFalse result (pages.new.entries ≡ pages.old.entries) }
{
    match pages.get_mut(&(level, index)) {
        Some(page) => {
            page.put(0, bytes);
            true
        }
        None => false,
    }
}

impl TreePages {
    pub(crate) fn new(alloc: Global) -> TreePages
        ensures { result ≡ [] }
    {
        TreePages {
            pages: BTreeMap::new(alloc),
        }
    }

    /// Reads a page.
    pub(crate) fn read(&self, level: u32, index: u64, raw: &mut Raw)
        ensures value { raw.new ≡ page_in self.now level index }
        ensures len { length raw.new ≡ 4096 }
    {
        match self.pages.get(&(level, index)) {
            Some(page) => raw.put(page.bytes()),
            None => raw.put(&ZEROS),
        }
    }

    /// Puts a page, over one that was there: then it takes no memory.
    pub(crate) fn put(
        &mut self,
        alloc: Global,
        level: u32,
        index: u64,
        bytes: &[u8],
    ) -> Result<(), Memory>
        requires { length bytes.now ≡ 4096 }
        ensures ok { OnOk result
            ((l i : ℕ) → page_in self.new l i ≡ tree_with (page_in self.old) level index bytes.now l
            i) }
        ensures err { OnErr result (self.new ≡ self.old) }
    {
        if replace(&mut self.pages, level, index, bytes) {
            return Ok(());
        }
        let mut page = match Page::new(alloc) {
            Ok(page) => page,
            Err(_) => return Err(Memory),
        };
        page.put(0, bytes);
        match self.pages.insert((level, index), page) {
            Ok(_) => {}
            Err(_) => return Err(Memory),
        }
        Ok(())
    }
}
