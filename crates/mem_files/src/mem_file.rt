// A file in memory.
ghost use Rattle.std.specs.Prelude.{◌≡◌, ◌≤◌, ◌+◌, ◌^◌, List, ℕ, [], length, take, drop, OnOk, OnErr, IfOk};
ghost use Rattle.host_traits.specs.Held.{over, resized, tree_with};
ghost use Rattle.mem_files.specs.Files.{FileData, blank_file, page_in};

use crate::content::Content;
use crate::tree_pages::TreePages;
use host_traits::Raw;
use mg_base::Memory;
use std::alloc::Global;
use std::marker::Model;

/// A file: its bytes, its descriptor, and the tree pages that it has.
#[derive(Drop)]
pub struct MemFile {
    content: Content,
    descriptor: Vec<u8>,
    tree: TreePages,
}

impl Model for MemFile {
    ghost use Rattle.mem_files.specs.Files.{FileData};

    ghost Value = { FileData };

    ghost view = { λ f. record { bytes = f.content; descriptor = f.descriptor.items; pages = f.tree } };
}

impl MemFile {
    /// An empty file.
    pub fn new(alloc: Global) -> MemFile
        ensures { result ≡ blank_file }
    {
        MemFile {
            content: Content::new(alloc),
            descriptor: Vec::new(alloc),
            tree: TreePages::new(alloc),
        }
    }

    /// A file of these parts.
    pub(crate) fn with(content: Content, descriptor: Vec<u8>, tree: TreePages) -> MemFile
        ensures { result ≡ record { bytes = content; descriptor = descriptor.items; pages = tree } }
    {
        MemFile {
            content,
            descriptor,
            tree,
        }
    }

    /// Reads from a place on, cut at the end.
    pub fn read(&self, at: u64, want: u32, raw: &mut Raw)
        requires { want ≤ 69632 }
        ensures { raw.new ≡ take want (drop at self.now.bytes) }
    {
        self.content.read(at, want, raw);
    }

    /// All the bytes.
    pub fn bytes(&self, alloc: Global) -> Result<Vec<u8>, Memory>
        ensures { IfOk result (λ v. v.items ≡ self.now.bytes) }
    {
        self.content.to_vec(alloc)
    }

    /// Reads the descriptor.
    pub fn read_descriptor(&self, raw: &mut Raw)
        ensures { raw.new ≡ take 256 self.now.descriptor }
    {
        let to = self.descriptor.len().min(256);
        raw.put(&self.descriptor[..to]);
    }

    /// Puts bytes from a place on, with zeros between.
    pub fn write(&mut self, alloc: Global, at: u64, bytes: &[u8]) -> Result<(), Memory>
        requires most { length bytes.now ≤ 4096 }
        requires end { at + length bytes.now ≤ 2 ^ 32 }
        ensures ok { OnOk result
            (self.new ≡ record self.old { bytes = over self.old.bytes at bytes.now }) }
        ensures err { OnErr result (self.new ≡ self.old) }
    {
        match self.content.write(alloc, at, bytes) {
            Ok(()) => {}
            Err(_) => return Err(Memory),
        }
        Ok(())
    }

    /// Cuts the bytes, or adds zeros. It takes no memory.
    pub fn resize(&mut self, size: u64)
        ensures { self.new ≡ record self.old { bytes = resized self.old.bytes size } }
    {
        self.content.resize(size);
    }

    /// Reads a tree page; one that isn't there is zeros.
    pub fn read_tree(&self, level: u32, index: u64, raw: &mut Raw)
        ensures value { raw.new ≡ page_in self.now.pages level index }
        ensures len { length raw.new ≡ 4096 }
    {
        self.tree.read(level, index, raw);
    }

    /// Writes a tree page.
    pub fn write_tree(
        &mut self,
        alloc: Global,
        level: u32,
        index: u64,
        bytes: &[u8],
    ) -> Result<(), Memory>
        requires { length bytes.now ≡ 4096 }
        ensures tree { OnOk result
            ((l i : ℕ) → page_in self.new.pages l i
            ≡ tree_with (page_in self.old.pages) level index bytes.now l i) }
        ensures bytes { self.new.bytes ≡ self.old.bytes }
        ensures descriptor { self.new.descriptor ≡ self.old.descriptor }
        ensures err { OnErr result (self.new ≡ self.old) }
    {
        match self.tree.put(alloc, level, index, bytes) {
            Ok(()) => {}
            Err(_) => return Err(Memory),
        }
        Ok(())
    }
}
