// A host in memory.
ghost use Rattle.std.specs.Prelude.{◌≡◌, ◌≤◌, ◌+◌, ◌*◌, ◌/◌, ◌%◌, ◌^◌, ◌||◌, List, ℕ, [], length, false, None, OnOk, OnErr, IfOk};
ghost use Rattle.std.specs.Bool.{OnFalse};
ghost use Rattle.std.specs.Option.{option_map};
ghost use Rattle.host_traits.specs.declared.calls.Call.TheVariants.{BlockSize, BlockRead, BlockWrite, BlockSync, FileRead, TreeRead, Descriptor, FileWrite, TreeWrite, Resize, Create, Mkdir, Delete};
ghost use Rattle.host_traits.specs.declared.calls.Said.TheVariants.{Number, Bytes, Done};
ghost use Rattle.host_traits.specs.Held.{empty_file, is_there, with_dir, with_file};
ghost use Rattle.host_traits.specs.Told.{Fills, Told, IsHeardSize};
ghost use Rattle.composite_spec.specs.Said.{IsComposite, composite};
ghost use Rattle.block_map.specs.Disk.{contents};
ghost use Rattle.mem_files.specs.FsVerity.{verity_file};
ghost use Rattle.host_mem.specs.Made.{RefusesAlias, composite_disk, nothing, plain_disk, with_disk};
ghost use Rattle.host_mem.specs.Mem.{Tells, mem_held, mem_told, unused};

use crate::count::Tally;
use crate::fault::CompositeFault;
use crate::mem_disk::MemDisk;
use crate::{dirs, disks, files};
use block_map::{Map, MapFault};
use composite_spec::Spec;
use host_traits::{Call, Host, HostError, HostResult, Raw};
use mem_files::verity::verity;
use mem_files::{MemFile, Names};
use mg_base::{Memory, Salt};
use std::alloc::Global;
use std::collections::BTreeMap;
use std::marker::Model;

/// A host in memory: disks, files and directories by number, and the numbers of the calls that are
/// to fail, counted from 0. A call fails exactly where its number is listed, or where what is held
/// can't serve it, and then changes nothing that is held. It tells what it holds, and not what was
/// heard.
#[derive(Drop)]
pub struct MemHost {
    disks: BTreeMap<u32, MemDisk>,
    files: BTreeMap<u32, MemFile>,
    dirs: BTreeMap<u32, Names>,
    tally: Tally,
    alloc: Global,
}

impl Model for MemHost {
    ghost use Rattle.host_mem.specs.Mem.{Mem};

    ghost Value = { Mem };

    ghost view = { λ a. record { disks = a.disks.entries; files = a.files.entries; dirs = a.dirs.entries; count = a.tally } };
}

impl MemHost {
    /// A host that holds nothing and fails at no listed call.
    pub fn new(alloc: Global) -> MemHost
        ensures held { mem_held result ≡ nothing }
        ensures count { result.count ≡ unused }
    {
        MemHost {
            disks: BTreeMap::new(alloc),
            files: BTreeMap::new(alloc),
            dirs: BTreeMap::new(alloc),
            tally: Tally::none(alloc),
            alloc,
        }
    }

    /// Lists anew the numbers of the calls that are to fail. It takes no memory.
    pub fn fail_at(&mut self, calls: Vec<u64>)
        ensures { self.new ≡ record self.old
            { count = record self.old.count { failing = calls.items } } }
    {
        self.tally.fail_at(calls);
    }

    /// Where memory is taken.
    pub fn alloc(&self) -> Global {
        self.alloc
    }

    /// Is there a disk of this number?
    pub fn has_disk(&self, disk: u32) -> bool
        ensures there { result ≡ is_there ((mem_held self.now).disk disk) }
        ensures absent { OnFalse result ((mem_held self.now).disk disk ≡ None) }
    {
        self.disks.contains_key(&disk)
    }

    /// Is there a file or a directory of this number?
    pub fn has_number(&self, number: u32) -> bool
        ensures there { result
            ≡ (is_there ((mem_held self.now).file number) || is_there
            ((mem_held self.now).dir number)) }
        ensures no_file { OnFalse result ((mem_held self.now).file number ≡ None) }
        ensures no_dir { OnFalse result ((mem_held self.now).dir number ≡ None) }
    {
        self.files.contains_key(&number) || self.dirs.contains_key(&number)
    }

    /// Adds a disk, each byte of which may be written. It needs whole sectors and a new number.
    pub fn add_disk(&mut self, disk: u32, bytes: Vec<u8>) -> Result<(), Memory>
        requires whole { length bytes.items % 512 ≡ 0 }
        requires number { (mem_held self.old).disk disk ≡ None }
        ensures added { OnOk result
            (mem_held self.new ≡ with_disk (mem_held self.old) disk (plain_disk bytes.items)) }
        ensures count { self.new.count ≡ self.old.count }
        ensures unchanged { OnErr result (self.new ≡ self.old) }
    {
        match disks::add(&mut self.disks, disk, MemDisk::plain(bytes)) {
            Ok(()) => {}
            Err(_) => return Err(Memory),
        }
        Ok(())
    }

    /// Adds a composite disk: a description, and one file a component. It needs a description that a
    /// map can be made of, and a new number. A byte may be written exactly where its component may be
    /// written and the byte lies within the component's file.
    pub fn add_composite(
        &mut self,
        disk: u32,
        spec: Spec,
        files: Vec<Vec<u8>>,
    ) -> Result<(), CompositeFault>
        requires spec { IsComposite (composite spec) }
        requires files { length files.items ≡ length (composite spec).components }
        requires number { (mem_held self.old).disk disk ≡ None }
        ensures added { OnOk result
            (mem_held self.new ≡ with_disk (mem_held self.old) disk
            (composite_disk (composite spec) (contents files.items))) }
        ensures alias { RefusesAlias (composite spec) result }
        ensures count { self.new.count ≡ self.old.count }
        ensures unchanged { OnErr result (self.new ≡ self.old) }
    {
        match Map::new(self.alloc, spec) {
            Ok(map) => match self.add_map(disk, map, files) {
                Ok(()) => Ok(()),
                Err(_) => Err(CompositeFault::Memory),
            },
            Err(MapFault::Memory) => Err(CompositeFault::Memory),
            Err(fault) => Err(CompositeFault::Map(fault)),
        }
    }

    /// Adds a composite disk by its map, with one file a component. It needs a new number.
    pub fn add_map(&mut self, disk: u32, map: Map, files: Vec<Vec<u8>>) -> Result<(), Memory>
        requires files { length files.items ≡ length map.components }
        requires number { (mem_held self.old).disk disk ≡ None }
        ensures added { OnOk result
            (mem_held self.new ≡ with_disk (mem_held self.old) disk
            (composite_disk map (contents files.items))) }
        ensures count { self.new.count ≡ self.old.count }
        ensures unchanged { OnErr result (self.new ≡ self.old) }
    {
        match disks::add(&mut self.disks, disk, MemDisk::composite(map, files)) {
            Ok(()) => {}
            Err(_) => return Err(Memory),
        }
        Ok(())
    }

    /// Adds a file of these bytes, at most 2^32, with the pages of its hash tree and its descriptor.
    /// It needs a new number.
    pub fn add_verity(&mut self, file: u32, bytes: Vec<u8>, salt: Salt) -> Result<(), Memory>
        requires most { length bytes.items ≤ 2 ^ 32 }
        requires file { (mem_held self.old).file file ≡ None }
        requires dir { (mem_held self.old).dir file ≡ None }
        ensures added { OnOk result
            (mem_held self.new ≡ with_file (mem_held self.old) file
            (verity_file bytes.items salt)) }
        ensures count { self.new.count ≡ self.old.count }
        ensures unchanged { OnErr result (self.new ≡ self.old) }
    {
        let held = match verity(self.alloc, bytes, salt) {
            Ok(held) => held,
            Err(_) => return Err(Memory),
        };
        match files::add(&mut self.files, file, held) {
            Ok(()) => {}
            Err(_) => return Err(Memory),
        }
        Ok(())
    }

    /// Adds an empty file, whose descriptor is empty. It needs a new number.
    pub fn add_empty(&mut self, file: u32) -> Result<(), Memory>
        requires file { (mem_held self.old).file file ≡ None }
        requires dir { (mem_held self.old).dir file ≡ None }
        ensures added { OnOk result
            (mem_held self.new ≡ with_file (mem_held self.old) file empty_file) }
        ensures count { self.new.count ≡ self.old.count }
        ensures unchanged { OnErr result (self.new ≡ self.old) }
    {
        match files::add(&mut self.files, file, MemFile::new(self.alloc)) {
            Ok(()) => {}
            Err(_) => return Err(Memory),
        }
        Ok(())
    }

    /// Adds an empty directory. It needs a new number.
    pub fn add_dir(&mut self, dir: u32) -> Result<(), Memory>
        requires file { (mem_held self.old).file dir ≡ None }
        requires dir { (mem_held self.old).dir dir ≡ None }
        ensures added { OnOk result
            (mem_held self.new ≡ with_dir (mem_held self.old) dir (λ name. false)) }
        ensures count { self.new.count ≡ self.old.count }
        ensures unchanged { OnErr result (self.new ≡ self.old) }
    {
        match dirs::add(self.alloc, &mut self.dirs, dir) {
            Ok(()) => {}
            Err(_) => return Err(Memory),
        }
        Ok(())
    }

    /// The bytes of a disk: None exactly where there is no disk of this number.
    pub fn disk_bytes(&self, disk: u32) -> Result<Option<Vec<u8>>, Memory>
        ensures { IfOk result
            (λ bytes. option_map (λ v. v.items) bytes
            ≡ option_map (λ d. d.bytes) ((mem_held self.now).disk disk)) }
    {
        disks::bytes(self.alloc, &self.disks, disk)
    }

    /// The bytes of a file: None exactly where there is no file of this number.
    pub fn file_bytes(&self, file: u32) -> Result<Option<Vec<u8>>, Memory>
        ensures { IfOk result
            (λ bytes. option_map (λ v. v.items) bytes
            ≡ option_map (λ f. f.bytes) ((mem_held self.now).file file)) }
    {
        files::bytes(self.alloc, &self.files, file)
    }
}

impl Host for MemHost {
    ghost told = { λ m. mem_told m };

    fn block_size(&mut self, disk: u32) -> HostResult<u64>
        ensures tells { Tells (BlockSize disk) [] (λ n. Number n) result self.old self.new }
    {
        let call = Call::BlockSize { disk };
        if self.tally.begin(call) {
            return Err(HostError::Failed);
        }
        let answer = disks::size(&self.disks, disk);
        self.tally.end_number(call, answer);
        answer
    }

    fn block_read(&mut self, disk: u32, sector: u64, count: u32, raw: &mut Raw) -> HostResult<()>
        requires { count ≤ 136 }
        ensures tells { Tells (BlockRead disk sector count) [] (λ _. Bytes raw.new)
            result self.old self.new }
        ensures fills { Fills (512 * count) result raw.new }
    {
        let call = Call::BlockRead {
            disk,
            sector,
            count,
        };
        raw.clear();
        if self.tally.begin(call) {
            return Err(HostError::Failed);
        }
        let answer = disks::read(&self.disks, disk, sector, count, raw);
        self.tally.end(call, answer);
        answer
    }

    fn block_write(&mut self, disk: u32, sector: u64, bytes: &[u8]) -> HostResult<()>
        requires whole { length bytes.now % 512 ≡ 0 }
        requires most { length bytes.now ≤ 69632 }
        ensures tells { Tells (BlockWrite disk sector (length bytes.now / 512)) bytes.now
            (λ _. Done) result self.old self.new }
    {
        let count = (bytes.len() / 512) as u32;
        let call = Call::BlockWrite {
            disk,
            sector,
            count,
        };
        if self.tally.begin(call) {
            return Err(HostError::Failed);
        }
        let answer = disks::write(&mut self.disks, disk, sector, bytes);
        self.tally.end(call, answer);
        answer
    }

    fn block_sync(&mut self, disk: u32) -> HostResult<()>
        ensures tells { Tells (BlockSync disk) [] (λ _. Done) result self.old self.new }
    {
        let call = Call::BlockSync { disk };
        if self.tally.begin(call) {
            return Err(HostError::Failed);
        }
        let answer = disks::sync(&self.disks, disk);
        self.tally.end(call, answer);
        answer
    }

    fn file_read(&mut self, file: u32, at: u64, want: u32, raw: &mut Raw) -> HostResult<()>
        requires { want ≤ 69632 }
        ensures tells { Tells (FileRead file at want) [] (λ _. Bytes raw.new)
            result self.old self.new }
        ensures fills { Fills want result raw.new }
    {
        let call = Call::FileRead { file, at, want };
        raw.clear();
        if self.tally.begin(call) {
            return Err(HostError::Failed);
        }
        let answer = files::read(&self.files, file, at, want, raw);
        self.tally.end(call, answer);
        answer
    }

    fn file_tree_read(&mut self, file: u32, level: u32, index: u64, raw: &mut Raw) -> HostResult<()>
        ensures tells { Tells (TreeRead file level index) [] (λ _. Bytes raw.new)
            result self.old self.new }
        ensures fills { Fills 4096 result raw.new }
    {
        let call = Call::TreeRead { file, level, index };
        raw.clear();
        if self.tally.begin(call) {
            return Err(HostError::Failed);
        }
        let answer = files::read_tree(&self.files, file, level, index, raw);
        self.tally.end(call, answer);
        answer
    }

    fn file_descriptor(&mut self, file: u32, raw: &mut Raw) -> HostResult<()>
        ensures tells { Tells (Descriptor file) [] (λ _. Bytes raw.new) result self.old self.new }
        ensures fills { Fills 256 result raw.new }
    {
        let call = Call::Descriptor { file };
        raw.clear();
        if self.tally.begin(call) {
            return Err(HostError::Failed);
        }
        let answer = files::read_descriptor(&self.files, file, raw);
        self.tally.end(call, answer);
        answer
    }

    fn file_write(&mut self, file: u32, at: u64, bytes: &[u8]) -> HostResult<()>
        requires most { length bytes.now ≤ 4096 }
        requires end { at + length bytes.now ≤ 2 ^ 32 }
        ensures tells { Tells (FileWrite file at (length bytes.now)) bytes.now (λ _. Done)
            result self.old self.new }
    {
        let count = bytes.len() as u32;
        let call = Call::FileWrite { file, at, count };
        if self.tally.begin(call) {
            return Err(HostError::Failed);
        }
        let answer = files::write(self.alloc, &mut self.files, file, at, bytes);
        self.tally.end(call, answer);
        answer
    }

    fn file_tree_write(&mut self, file: u32, level: u32, index: u64, bytes: &[u8]) -> HostResult<()>
        requires { length bytes.now ≡ 4096 }
        ensures tells { Tells (TreeWrite file level index) bytes.now (λ _. Done)
            result self.old self.new }
    {
        let call = Call::TreeWrite { file, level, index };
        if self.tally.begin(call) {
            return Err(HostError::Failed);
        }
        let answer = files::write_tree(self.alloc, &mut self.files, file, level, index, bytes);
        self.tally.end(call, answer);
        answer
    }

    fn file_resize(&mut self, file: u32, size: u64) -> HostResult<()>
        requires { size ≤ 2 ^ 32 }
        ensures tells { Tells (Resize file size) [] (λ _. Done) result self.old self.new }
    {
        let call = Call::Resize { file, size };
        if self.tally.begin(call) {
            return Err(HostError::Failed);
        }
        let answer = files::resize(&mut self.files, file, size);
        self.tally.end(call, answer);
        answer
    }

    fn file_create(&mut self, dir: u32, name: &[u8], file: u32) -> HostResult<()>
        ensures tells { Tells (Create dir file) name.now (λ _. Done) result self.old self.new }
    {
        let call = Call::Create { dir, file };
        if self.tally.begin(call) {
            return Err(HostError::Failed);
        }
        let answer = dirs::create(self.alloc, &mut self.files, &mut self.dirs, dir, name, file);
        self.tally.end(call, answer);
        answer
    }

    fn file_mkdir(&mut self, dir: u32, name: &[u8], file: u32) -> HostResult<()>
        ensures tells { Tells (Mkdir dir file) name.now (λ _. Done) result self.old self.new }
    {
        let call = Call::Mkdir { dir, file };
        if self.tally.begin(call) {
            return Err(HostError::Failed);
        }
        let answer = dirs::mkdir(self.alloc, &self.files, &mut self.dirs, dir, name, file);
        self.tally.end(call, answer);
        answer
    }

    fn file_delete(&mut self, dir: u32, name: &[u8]) -> HostResult<()>
        ensures tells { Tells (Delete dir) name.now (λ _. Done) result self.old self.new }
    {
        let call = Call::Delete { dir };
        if self.tally.begin(call) {
            return Err(HostError::Failed);
        }
        let answer = dirs::delete(&mut self.dirs, dir, name);
        self.tally.end(call, answer);
        answer
    }

    fn faults(&self) -> u64
        ensures { result ≡ self.now.count.faults }
    {
        self.tally.faults()
    }

    fn heard_bytes(&self) -> u64
        ensures heard { IsHeardSize (mem_told self.now).heard result }
        ensures none { result ≡ 0 }
    {
        0
    }
}
