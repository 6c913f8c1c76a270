// A host in memory whose answers are bent.
ghost use Rattle.std.specs.Prelude.{◌≡◌, ◌≤◌, ◌+◌, ◌*◌, ◌/◌, ◌%◌, ◌^◌, List, ℕ, [], length, None};
ghost use Rattle.host_traits.specs.declared.calls.Call.TheVariants.{BlockSize, BlockRead, BlockWrite, BlockSync, FileRead, TreeRead, Descriptor, FileWrite, TreeWrite, Resize, Create, Mkdir, Delete};
ghost use Rattle.host_traits.specs.declared.calls.Said.TheVariants.{Number, Bytes, Done};
ghost use Rattle.host_traits.specs.Told.{Fills, Told, IsHeardSize};
ghost use Rattle.host_bent.specs.Bent.{IsBent, bent_told};

use crate::bends::{Bend, Bends};
use host_mem::MemHost;
use host_traits::{Call, Host, HostError, HostResult, Raw};
use std::marker::Model;

/// A host in memory whose answers to listed calls are bent. Calls are numbered from 0; the first bend
/// that is listed for a number counts. Each call is passed on, and its answer is failed, replaced, or
/// has one bit flipped; a bend whose kind doesn't suit the answer, and a byte that isn't there, leave
/// it as it is. It tells its own failures, and neither what is held nor what was heard.
#[derive(Drop)]
pub struct Bent {
    host: MemHost,
    bends: Bends,
}

impl Model for Bent {
    ghost use Rattle.host_bent.specs.Bent.{BentMem};

    ghost Value = { BentMem };

    ghost view = { λ b. record { host = b.host; count = b.bends } };
}

impl Bent {
    /// This host, with the answers to the calls of these numbers bent. It takes no memory.
    pub fn new(host: MemHost, bends: Vec<(u64, Bend)>) -> Bent
        ensures { result ≡ record {
          host = host;
          count = record
              { bends = bends.items; calls = 0; faults = 0; last_failed = None };
        } }
    {
        Bent {
            host,
            bends: Bends::new(bends),
        }
    }
}

impl Host for Bent {
    ghost told = { λ b. bent_told b };

    fn block_size(&mut self, disk: u32) -> HostResult<u64>
        ensures bent { IsBent 0 (BlockSize disk) [] (λ n. Number n) result self.old self.new }
    {
        let own = self.host.block_size(disk);
        self.bends.number(Call::BlockSize { disk }, own)
    }

    fn block_read(&mut self, disk: u32, sector: u64, count: u32, raw: &mut Raw) -> HostResult<()>
        requires { count ≤ 136 }
        ensures fills { Fills (512 * count) result raw.new }
        ensures bent { IsBent (512 * count) (BlockRead disk sector count) [] (λ _. Bytes raw.new)
            result self.old self.new }
    {
        let call = Call::BlockRead {
            disk,
            sector,
            count,
        };
        raw.clear();
        let room = match self.bends.room(self.host.alloc(), 512 * count as usize) {
            Ok(room) => room,
            Err(_) => {
                self.bends.no_room(call);
                return Err(HostError::Memory);
            }
        };
        let own = self.host.block_read(disk, sector, count, raw);
        self.bends.bytes(call, 512 * count as usize, room, own, raw)
    }

    fn block_write(&mut self, disk: u32, sector: u64, bytes: &[u8]) -> HostResult<()>
        requires whole { length bytes.now % 512 ≡ 0 }
        requires most { length bytes.now ≤ 69632 }
        ensures bent { IsBent 0 (BlockWrite disk sector (length bytes.now / 512)) bytes.now
            (λ _. Done) result self.old self.new }
    {
        let own = self.host.block_write(disk, sector, bytes);
        self.bends.done(
            Call::BlockWrite {
                disk,
                sector,
                count: (bytes.len() / 512) as u32,
            },
            own,
        )
    }

    fn block_sync(&mut self, disk: u32) -> HostResult<()>
        ensures bent { IsBent 0 (BlockSync disk) [] (λ _. Done) result self.old self.new }
    {
        let own = self.host.block_sync(disk);
        self.bends.done(Call::BlockSync { disk }, own)
    }

    fn file_read(&mut self, file: u32, at: u64, want: u32, raw: &mut Raw) -> HostResult<()>
        requires { want ≤ 69632 }
        ensures fills { Fills (want) result raw.new }
        ensures bent { IsBent (want) (FileRead file at want) [] (λ _. Bytes raw.new) result self.old
            self.new }
    {
        let call = Call::FileRead { file, at, want };
        raw.clear();
        let room = match self.bends.room(self.host.alloc(), want as usize) {
            Ok(room) => room,
            Err(_) => {
                self.bends.no_room(call);
                return Err(HostError::Memory);
            }
        };
        let own = self.host.file_read(file, at, want, raw);
        self.bends.bytes(call, want as usize, room, own, raw)
    }

    fn file_tree_read(&mut self, file: u32, level: u32, index: u64, raw: &mut Raw) -> HostResult<()>
        ensures fills { Fills (4096) result raw.new }
        ensures bent { IsBent (4096) (TreeRead file level index) [] (λ _. Bytes raw.new) result
            self.old self.new }
    {
        let call = Call::TreeRead { file, level, index };
        raw.clear();
        let room = match self.bends.room(self.host.alloc(), 4096) {
            Ok(room) => room,
            Err(_) => {
                self.bends.no_room(call);
                return Err(HostError::Memory);
            }
        };
        let own = self.host.file_tree_read(file, level, index, raw);
        self.bends.bytes(call, 4096, room, own, raw)
    }

    fn file_descriptor(&mut self, file: u32, raw: &mut Raw) -> HostResult<()>
        ensures fills { Fills (256) result raw.new }
        ensures bent { IsBent (256) (Descriptor file) [] (λ _. Bytes raw.new) result self.old
            self.new }
    {
        let call = Call::Descriptor { file };
        raw.clear();
        let room = match self.bends.room(self.host.alloc(), 256) {
            Ok(room) => room,
            Err(_) => {
                self.bends.no_room(call);
                return Err(HostError::Memory);
            }
        };
        let own = self.host.file_descriptor(file, raw);
        self.bends.bytes(call, 256, room, own, raw)
    }

    fn file_write(&mut self, file: u32, at: u64, bytes: &[u8]) -> HostResult<()>
        requires most { length bytes.now ≤ 4096 }
        requires end { at + length bytes.now ≤ 2 ^ 32 }
        ensures bent { IsBent 0 (FileWrite file at (length bytes.now)) bytes.now (λ _. Done) result
            self.old self.new }
    {
        let own = self.host.file_write(file, at, bytes);
        self.bends.done(
            Call::FileWrite {
                file,
                at,
                count: bytes.len() as u32,
            },
            own,
        )
    }

    fn file_tree_write(&mut self, file: u32, level: u32, index: u64, bytes: &[u8]) -> HostResult<()>
        requires { length bytes.now ≡ 4096 }
        ensures bent { IsBent 0 (TreeWrite file level index) bytes.now (λ _. Done) result self.old
            self.new }
    {
        let own = self.host.file_tree_write(file, level, index, bytes);
        self.bends.done(Call::TreeWrite { file, level, index }, own)
    }

    fn file_resize(&mut self, file: u32, size: u64) -> HostResult<()>
        requires { size ≤ 2 ^ 32 }
        ensures bent { IsBent 0 (Resize file size) [] (λ _. Done) result self.old self.new }
    {
        let own = self.host.file_resize(file, size);
        self.bends.done(Call::Resize { file, size }, own)
    }

    fn file_create(&mut self, dir: u32, name: &[u8], file: u32) -> HostResult<()>
        ensures bent { IsBent 0 (Create dir file) name.now (λ _. Done) result self.old self.new }
    {
        let own = self.host.file_create(dir, name, file);
        self.bends.done(Call::Create { dir, file }, own)
    }

    fn file_mkdir(&mut self, dir: u32, name: &[u8], file: u32) -> HostResult<()>
        ensures bent { IsBent 0 (Mkdir dir file) name.now (λ _. Done) result self.old self.new }
    {
        let own = self.host.file_mkdir(dir, name, file);
        self.bends.done(Call::Mkdir { dir, file }, own)
    }

    fn file_delete(&mut self, dir: u32, name: &[u8]) -> HostResult<()>
        ensures bent { IsBent 0 (Delete dir) name.now (λ _. Done) result self.old self.new }
    {
        let own = self.host.file_delete(dir, name);
        self.bends.done(Call::Delete { dir }, own)
    }

    fn faults(&self) -> u64
        ensures { result ≡ self.now.count.faults }
    {
        self.bends.faults()
    }

    fn heard_bytes(&self) -> u64
        ensures heard { IsHeardSize (bent_told self.now).heard result }
        ensures none { result ≡ 0 }
    {
        0
    }
}
