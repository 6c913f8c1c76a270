// A host that answers from records.
ghost use Rattle.std.specs.Prelude.{◌≡◌, ◌<◌, ◌≤◌, ◌+◌, ◌-◌, ◌*◌, ◌^◌, min, List, ℕ, [], ◌∷◌, ◌++◌, length, drop, slice_get, IfOk, IfErr, Ok, Some, None};
ghost use Rattle.std.specs.Option.{option_map};
ghost use Rattle.host_traits.specs.declared.calls.Said.TheVariants.{Number, Bytes, Done};
ghost use Rattle.host_traits.specs.Told.{Told, Asked, Fills, Refused, kind_of, kind_bytes, kind_number, kind_done};
ghost use Rattle.host_tape.specs.declared.fault.TapeFault.TheVariants.{Memory};
ghost use Rattle.host_tape.specs.Played.{Played, AnswersBy, Refuses, tape_told, unplayed};
ghost use Rattle.host_tape.specs.Reading.{items_in, Finds};
ghost use Rattle.host_tape.specs.Next.{item_by};

use crate::fault::TapeFault;
use crate::front::{behind, front_record};
use crate::next::Next;
use host_traits::{Call, Host, HostError, HostResult, Raw};
use std::alloc::Global;
use std::marker::Model;

/// A host that answers each call by the next record of its text. It keeps the text, the place of the
/// next record in it, and the calls that took one. Contracts see the records and these calls.
#[derive(Drop)]
pub struct Tape {
    text: Vec<u8>,
    count: usize,
    at: usize,
    calls: Vec<Call>,
    refused: u64,
    late: u64,
    size: u64,
    last_late: Option<Call>,
}

impl Model for Tape {
    ghost use Rattle.host_tape.specs.Played.{Played};
    ghost use Rattle.host_tape.specs.Reading.{items_in, IsKept};
    ghost use Rattle.std.specs.Prelude.{drop, vec_capacity};

    ghost Value = { Played };

    ghost view = { λ a. record { records = items_in a.count (drop 13 a.text.items); calls = a.calls.items; late = a.late; last_late = a.last_late } };

    ghost invariant = { λ a. IsKept a.text.items a.count a.at a.calls.items (vec_capacity a.calls) a.refused a.size a.last_late };
}

impl Tape {
    // A tape of a text of so many records, with room for their calls.
    pub(crate) fn new(alloc: Global, text: Vec<u8>, count: usize) -> Result<Tape, TapeFault>
        requires header { 13 ≤ length text.items }
        requires finds { Finds text.items (Ok count) }
        ensures ok { IfOk result (λ tape. tape ≡ unplayed (items_in count (drop 13 text.items))) }
        ensures err { IfErr result (λ e. e ≡ Memory) }
    {
        match Vec::with_capacity(alloc, count) {
            Ok(calls) => Ok(Tape {
                text,
                count,
                at: 13,
                calls,
                refused: 0,
                late: 0,
                size: 0,
                last_late: None,
            }),
            Err(_) => Err(TapeFault::Memory),
        }
    }

    // The next record, where there is one.
    fn next(&self) -> Option<Next<'_>>
        ensures { option_map item_by result ≡ slice_get self.now.records (length self.now.calls) }
    {
        match front_record(&self.text[self.at..]) {
            Some((record, _)) => Some(record),
            None => None,
        }
    }

    // A call that its record refuses, or that comes after the end.
    fn fail(&mut self, call: Call)
        requires { Refuses self.old.records (length self.old.calls) call }
        ensures { (given : List ℕ) → Refused call given (tape_told self.old) (tape_told self.new) }
    {
        if self.calls.len() < self.count {
            self.at = behind(&self.text, self.at);
            let _ = self.calls.push(call);
            self.refused += 1;
        } else {
            self.late = self.late.saturating_add(1);
            self.last_late = Some(call);
        }
    }

    // A call that its record answers, by so many bytes.
    fn answer(&mut self, call: Call, size: usize)
        requires { AnswersBy self.old call size }
        ensures { self.new ≡ record self.old { calls = self.old.calls ++ call ∷ [] } }
    {
        self.at = behind(&self.text, self.at);
        let _ = self.calls.push(call);
        self.size = self.size.saturating_add(size as u64);
    }

    // Answers a call that takes bytes, at most so many.
    fn hear(&mut self, call: Call, most: usize, raw: &mut Raw) -> HostResult<()>
        requires kind { kind_of call ≡ kind_bytes most }
        requires most { most ≤ 69632 }
        ensures asked { Asked call [] (λ _. Bytes raw.new) result (tape_told self.old)
            (tape_told self.new) }
        ensures fills { Fills most result raw.new }
    {
        raw.clear();
        let len = match self.next() {
            Some(Next::Bytes(bytes)) => {
                let len = most.min(bytes.len());
                raw.put(&bytes[..len]);
                len
            }
            _ => {
                self.fail(call);
                return Err(HostError::Failed);
            }
        };
        self.answer(call, len);
        Ok(())
    }

    // Answers a call that takes a number.
    fn number(&mut self, call: Call) -> HostResult<u64>
        requires { kind_of call ≡ kind_number }
        ensures { Asked call [] (λ n. Number n) result (tape_told self.old) (tape_told self.new) }
    {
        let number = match self.next() {
            Some(Next::Number(number)) => number,
            _ => {
                self.fail(call);
                return Err(HostError::Failed);
            }
        };
        self.answer(call, 0);
        Ok(number)
    }

    // Answers a call that is only done.
    fn done(&mut self, call: Call, given: &[u8]) -> HostResult<()>
        requires { kind_of call ≡ kind_done }
        ensures { Asked call given.now (λ _. Done) result (tape_told self.old)
            (tape_told self.new) }
    {
        match self.next() {
            Some(Next::Done) => {}
            _ => {
                self.fail(call);
                return Err(HostError::Failed);
            }
        }
        self.answer(call, 0);
        Ok(())
    }
}

impl Host for Tape {
    ghost told = { tape_told };

    fn block_size(&mut self, disk: u32) -> HostResult<u64> {
        self.number(Call::BlockSize { disk })
    }

    fn block_read(&mut self, disk: u32, sector: u64, count: u32, raw: &mut Raw) -> HostResult<()> {
        let most = 512 * count as usize;
        self.hear(
            Call::BlockRead {
                disk,
                sector,
                count,
            },
            most,
            raw,
        )
    }

    fn block_write(&mut self, disk: u32, sector: u64, bytes: &[u8]) -> HostResult<()> {
        let count = (bytes.len() / 512) as u32;
        self.done(
            Call::BlockWrite {
                disk,
                sector,
                count,
            },
            bytes,
        )
    }

    fn block_sync(&mut self, disk: u32) -> HostResult<()> {
        self.done(Call::BlockSync { disk }, &[])
    }

    fn file_read(&mut self, file: u32, at: u64, want: u32, raw: &mut Raw) -> HostResult<()> {
        self.hear(Call::FileRead { file, at, want }, want as usize, raw)
    }

    fn file_tree_read(
        &mut self,
        file: u32,
        level: u32,
        index: u64,
        raw: &mut Raw,
    ) -> HostResult<()> {
        self.hear(Call::TreeRead { file, level, index }, 4096, raw)
    }

    fn file_descriptor(&mut self, file: u32, raw: &mut Raw) -> HostResult<()> {
        self.hear(Call::Descriptor { file }, 256, raw)
    }

    fn file_write(&mut self, file: u32, at: u64, bytes: &[u8]) -> HostResult<()> {
        let count = bytes.len() as u32;
        self.done(Call::FileWrite { file, at, count }, bytes)
    }

    fn file_tree_write(
        &mut self,
        file: u32,
        level: u32,
        index: u64,
        bytes: &[u8],
    ) -> HostResult<()> {
        self.done(Call::TreeWrite { file, level, index }, bytes)
    }

    fn file_resize(&mut self, file: u32, size: u64) -> HostResult<()> {
        self.done(Call::Resize { file, size }, &[])
    }

    fn file_create(&mut self, dir: u32, name: &[u8], file: u32) -> HostResult<()> {
        self.done(Call::Create { dir, file }, name)
    }

    fn file_mkdir(&mut self, dir: u32, name: &[u8], file: u32) -> HostResult<()> {
        self.done(Call::Mkdir { dir, file }, name)
    }

    fn file_delete(&mut self, dir: u32, name: &[u8]) -> HostResult<()> {
        self.done(Call::Delete { dir }, name)
    }

    fn faults(&self) -> u64 {
        self.refused.saturating_add(self.late)
    }

    fn heard_bytes(&self) -> u64 {
        self.size
    }
}
