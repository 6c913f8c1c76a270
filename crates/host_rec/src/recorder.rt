// A host that passes each call on, and keeps it with its answer.
ghost use Rattle.std.specs.Prelude.{◌≡◌, ◌<◌, ◌≤◌, ◌+◌, ◌-◌, ◌*◌, ◌/◌, ◌%◌, ◌^◌, min, List, ℕ, [], length, IfOk};
ghost use Rattle.host_traits.specs.declared.calls.Call.TheVariants.{BlockSize, BlockRead, BlockWrite, BlockSync, FileRead, TreeRead, Descriptor, FileWrite, TreeWrite, Resize, Create, Mkdir, Delete};
ghost use Rattle.host_traits.specs.declared.calls.Said.TheVariants.{Number, Bytes, Done};
ghost use Rattle.host_traits.specs.Told.{Asked, Fills, Told, IsHeardSize};
ghost use Rattle.host_tape.specs.Tape.{tape_bytes, IsTape};
ghost use Rattle.host_rec.specs.Recorded.{Keeps, Passed, failures, nothing, recorder_told, told_with};

use crate::kept::Records;
use host_traits::{Call, Host, HostResult, Raw};
use mg_base::Memory;
use std::alloc::Global;
use std::marker::Model;

/// A host that passes each call on to another, and keeps each with its answer, failed ones among
/// them. It takes room for an answer before it passes the call on, and answers `Memory` where that
/// is refused. It counts the calls that failed since it was made. Contracts see the host behind it,
/// the calls, and beside each its record.
#[derive(Drop)]
pub struct Recorder<H> {
    host: H,
    records: Records,
    alloc: Global,
}

impl<H> Model for Recorder<H> {
    ghost use Rattle.host_rec.specs.Recorded.{Recorded};

    ghost Value = { Recorded H };

    ghost view = { λ r. record { host = r.host; kept = r.records.kept } };
}

impl<H: Host> Recorder<H> {
    /// A recorder before a host, with nothing kept.
    pub fn new(alloc: Global, host: H) -> Recorder<H>
        ensures host { result.host ≡ host }
        ensures kept { result.kept ≡ nothing }
    {
        Recorder {
            host,
            records: Records::new(alloc),
            alloc,
        }
    }

    /// The host behind it.
    pub fn host(&self) -> &H
        ensures { result.now ≡ self.now.host }
    {
        &self.host
    }

    /// The tape of the calls that were kept, lent: the record of each, in their order.
    pub fn text(&self) -> &[u8]
        ensures bytes { result.now ≡ tape_bytes self.now.kept.items }
        // So `read_tape` reads these records again.
        ensures again { IsTape result.now self.now.kept.items }
        ensures each { length self.now.kept.calls ≡ length self.now.kept.items }
    {
        self.records.text()
    }

    /// A copy of that tape.
    pub fn tape(&self) -> Result<Vec<u8>, Memory>
        ensures bytes { IfOk result (λ bytes. bytes.items ≡ tape_bytes self.now.kept.items) }
        // So `read_tape` reads these records again.
        ensures again { IfOk result (λ bytes. IsTape bytes.items self.now.kept.items) }
        ensures each { length self.now.kept.calls ≡ length self.now.kept.items }
    {
        let mut out = Vec::new(self.alloc);
        out.extend_from_slice(self.records.text())?;
        Ok(out)
    }
}

impl<H: Host> Host for Recorder<H> {
    ghost told = { λ r. told_with (H.told r.host) r.kept };

    fn block_size(&mut self, disk: u32) -> HostResult<u64>
        ensures asked { Asked (BlockSize disk) [] (λ n. Number n)
            result (recorder_told H.told self.old) (recorder_told H.told self.new) }
        ensures passed { Passed H.told (BlockSize disk) [] (λ n. Number n)
            result self.old.host self.new.host }
        ensures kept { Keeps (BlockSize disk) (λ n. Number n) result self.old.kept self.new.kept }
    {
        self.records.reserve(9)?;
        let answer = self.host.block_size(disk);
        self.records.note_number(Call::BlockSize { disk }, answer);
        answer
    }

    fn block_write(&mut self, disk: u32, sector: u64, bytes: &[u8]) -> HostResult<()>
        requires whole { length bytes.now % 512 ≡ 0 }
        requires most { length bytes.now ≤ 69632 }
        ensures asked { Asked (BlockWrite disk sector (length bytes.now / 512)) bytes.now
            (λ _. Done)
            result (recorder_told H.told self.old) (recorder_told H.told self.new) }
        ensures passed { Passed H.told (BlockWrite disk sector (length bytes.now / 512)) bytes.now
            (λ _. Done)
            result self.old.host self.new.host }
        ensures kept { Keeps (BlockWrite disk sector (length bytes.now / 512)) (λ _. Done) result
            self.old.kept self.new.kept }
    {
        let count = (bytes.len() / 512) as u32;
        self.records.reserve(1)?;
        let answer = self.host.block_write(disk, sector, bytes);
        self.records.note_done(
            Call::BlockWrite {
                disk,
                sector,
                count,
            },
            answer,
        );
        answer
    }

    fn block_sync(&mut self, disk: u32) -> HostResult<()>
        ensures asked { Asked (BlockSync disk) [] (λ _. Done)
            result (recorder_told H.told self.old) (recorder_told H.told self.new) }
        ensures passed { Passed H.told (BlockSync disk) [] (λ _. Done)
            result self.old.host self.new.host }
        ensures kept { Keeps (BlockSync disk) (λ _. Done) result self.old.kept self.new.kept }
    {
        self.records.reserve(1)?;
        let answer = self.host.block_sync(disk);
        self.records.note_done(Call::BlockSync { disk }, answer);
        answer
    }

    fn file_write(&mut self, file: u32, at: u64, bytes: &[u8]) -> HostResult<()>
        requires most { length bytes.now ≤ 4096 }
        requires end { at + length bytes.now ≤ 2 ^ 32 }
        ensures asked { Asked (FileWrite file at (length bytes.now)) bytes.now (λ _. Done)
            result (recorder_told H.told self.old) (recorder_told H.told self.new) }
        ensures passed { Passed H.told (FileWrite file at (length bytes.now)) bytes.now (λ _. Done)
            result self.old.host self.new.host }
        ensures kept { Keeps (FileWrite file at (length bytes.now)) (λ _. Done) result self.old.kept
            self.new.kept }
    {
        let count = bytes.len() as u32;
        self.records.reserve(1)?;
        let answer = self.host.file_write(file, at, bytes);
        self.records
            .note_done(Call::FileWrite { file, at, count }, answer);
        answer
    }

    fn file_tree_write(&mut self, file: u32, level: u32, index: u64, bytes: &[u8]) -> HostResult<()>
        requires { length bytes.now ≡ 4096 }
        ensures asked { Asked (TreeWrite file level index) bytes.now (λ _. Done)
            result (recorder_told H.told self.old) (recorder_told H.told self.new) }
        ensures passed { Passed H.told (TreeWrite file level index) bytes.now (λ _. Done)
            result self.old.host self.new.host }
        ensures kept { Keeps (TreeWrite file level index) (λ _. Done) result self.old.kept
            self.new.kept }
    {
        self.records.reserve(1)?;
        let answer = self.host.file_tree_write(file, level, index, bytes);
        self.records
            .note_done(Call::TreeWrite { file, level, index }, answer);
        answer
    }

    fn file_resize(&mut self, file: u32, size: u64) -> HostResult<()>
        requires { size ≤ 2 ^ 32 }
        ensures asked { Asked (Resize file size) [] (λ _. Done)
            result (recorder_told H.told self.old) (recorder_told H.told self.new) }
        ensures passed { Passed H.told (Resize file size) [] (λ _. Done)
            result self.old.host self.new.host }
        ensures kept { Keeps (Resize file size) (λ _. Done) result self.old.kept self.new.kept }
    {
        self.records.reserve(1)?;
        let answer = self.host.file_resize(file, size);
        self.records.note_done(Call::Resize { file, size }, answer);
        answer
    }

    fn file_create(&mut self, dir: u32, name: &[u8], file: u32) -> HostResult<()>
        ensures asked { Asked (Create dir file) name.now (λ _. Done)
            result (recorder_told H.told self.old) (recorder_told H.told self.new) }
        ensures passed { Passed H.told (Create dir file) name.now (λ _. Done)
            result self.old.host self.new.host }
        ensures kept { Keeps (Create dir file) (λ _. Done) result self.old.kept self.new.kept }
    {
        self.records.reserve(1)?;
        let answer = self.host.file_create(dir, name, file);
        self.records.note_done(Call::Create { dir, file }, answer);
        answer
    }

    fn file_mkdir(&mut self, dir: u32, name: &[u8], file: u32) -> HostResult<()>
        ensures asked { Asked (Mkdir dir file) name.now (λ _. Done)
            result (recorder_told H.told self.old) (recorder_told H.told self.new) }
        ensures passed { Passed H.told (Mkdir dir file) name.now (λ _. Done)
            result self.old.host self.new.host }
        ensures kept { Keeps (Mkdir dir file) (λ _. Done) result self.old.kept self.new.kept }
    {
        self.records.reserve(1)?;
        let answer = self.host.file_mkdir(dir, name, file);
        self.records.note_done(Call::Mkdir { dir, file }, answer);
        answer
    }

    fn file_delete(&mut self, dir: u32, name: &[u8]) -> HostResult<()>
        ensures asked { Asked (Delete dir) name.now (λ _. Done)
            result (recorder_told H.told self.old) (recorder_told H.told self.new) }
        ensures passed { Passed H.told (Delete dir) name.now (λ _. Done)
            result self.old.host self.new.host }
        ensures kept { Keeps (Delete dir) (λ _. Done) result self.old.kept self.new.kept }
    {
        self.records.reserve(1)?;
        let answer = self.host.file_delete(dir, name);
        self.records.note_done(Call::Delete { dir }, answer);
        answer
    }

    fn block_read(&mut self, disk: u32, sector: u64, count: u32, raw: &mut Raw) -> HostResult<()>
        requires { count ≤ 136 }
        ensures asked { Asked (BlockRead disk sector count) [] (λ _. Bytes raw.new)
            result (recorder_told H.told self.old) (recorder_told H.told self.new) }
        ensures passed { Passed H.told (BlockRead disk sector count) [] (λ _. Bytes raw.new)
            result self.old.host self.new.host }
        ensures fills { Fills (512 * count) result raw.new }
        ensures kept { Keeps (BlockRead disk sector count) (λ _. Bytes raw.new) result self.old.kept
            self.new.kept }
    {
        raw.clear();
        self.records.reserve(5 + 512 * count as usize)?;
        let answer = self.host.block_read(disk, sector, count, raw);
        self.records.note_bytes(
            Call::BlockRead {
                disk,
                sector,
                count,
            },
            answer,
            raw,
        );
        answer
    }

    fn file_read(&mut self, file: u32, at: u64, want: u32, raw: &mut Raw) -> HostResult<()>
        requires { want ≤ 69632 }
        ensures asked { Asked (FileRead file at want) [] (λ _. Bytes raw.new)
            result (recorder_told H.told self.old) (recorder_told H.told self.new) }
        ensures passed { Passed H.told (FileRead file at want) [] (λ _. Bytes raw.new)
            result self.old.host self.new.host }
        ensures fills { Fills want result raw.new }
        ensures kept { Keeps (FileRead file at want) (λ _. Bytes raw.new) result self.old.kept
            self.new.kept }
    {
        raw.clear();
        self.records.reserve(5 + want as usize)?;
        let answer = self.host.file_read(file, at, want, raw);
        self.records
            .note_bytes(Call::FileRead { file, at, want }, answer, raw);
        answer
    }

    fn file_tree_read(&mut self, file: u32, level: u32, index: u64, raw: &mut Raw) -> HostResult<()>
        ensures asked { Asked (TreeRead file level index) [] (λ _. Bytes raw.new)
            result (recorder_told H.told self.old) (recorder_told H.told self.new) }
        ensures passed { Passed H.told (TreeRead file level index) [] (λ _. Bytes raw.new)
            result self.old.host self.new.host }
        ensures fills { Fills 4096 result raw.new }
        ensures kept { Keeps (TreeRead file level index) (λ _. Bytes raw.new) result self.old.kept
            self.new.kept }
    {
        raw.clear();
        self.records.reserve(5 + 4096)?;
        let answer = self.host.file_tree_read(file, level, index, raw);
        self.records
            .note_bytes(Call::TreeRead { file, level, index }, answer, raw);
        answer
    }

    fn file_descriptor(&mut self, file: u32, raw: &mut Raw) -> HostResult<()>
        ensures asked { Asked (Descriptor file) [] (λ _. Bytes raw.new)
            result (recorder_told H.told self.old) (recorder_told H.told self.new) }
        ensures passed { Passed H.told (Descriptor file) [] (λ _. Bytes raw.new)
            result self.old.host self.new.host }
        ensures fills { Fills 256 result raw.new }
        ensures kept { Keeps (Descriptor file) (λ _. Bytes raw.new) result self.old.kept
            self.new.kept }
    {
        raw.clear();
        self.records.reserve(5 + 256)?;
        let answer = self.host.file_descriptor(file, raw);
        self.records
            .note_bytes(Call::Descriptor { file }, answer, raw);
        answer
    }

    fn faults(&self) -> u64
        ensures { result ≡ min (failures self.now.kept.items) (2 ^ 64 - 1) }
    {
        self.records.faults()
    }

    fn heard_bytes(&self) -> u64
        ensures { IsHeardSize (told_with (H.told self.now.host) self.now.kept).heard result }
    {
        self.records.size()
    }
}
