// What a recorder keeps of the calls.
ghost use Rattle.std.specs.Prelude.{◌≡◌, ◌<◌, ◌≤◌, ◌-◌, ◌+◌, ◌^◌, min, ℕ, List, [], ◌∷◌, ◌++◌, length, OnOk, OnErr, Err, vec_capacity};
ghost use Rattle.host_traits.specs.declared.calls.Said.TheVariants.{Number, Bytes, Done};
ghost use Rattle.host_traits.specs.declared.host.HostError.TheVariants.{Memory};
ghost use Rattle.host_traits.specs.Told.{heard_size};
ghost use Rattle.host_tape.specs.Next.{item_by};
ghost use Rattle.host_tape.specs.Tape.{IsItem, IsTape, item_bytes};
ghost use Rattle.host_rec.specs.Recorded.{Keeps, and, exchange, failure, failures, heard_by, nothing};

use crate::text::{begin, make_room, put};
use host_tape::Next;
use host_traits::{Call, HostError, HostResult, Raw};
use std::alloc::Global;
use std::marker::Model;

/// Each call, and the text of the tape of their records. Beside them the number of the bytes heard,
/// and how many of the calls failed. The first call begins the text.
#[derive(Drop)]
pub(crate) struct Records {
    calls: Vec<Call>,
    text: Vec<u8>,
    size: u64,
    faults: u64,
}

impl Model for Records {
    ghost use Rattle.std.specs.Prelude.{◌-◌, length, vec_capacity};
    ghost use Rattle.host_rec.specs.Recorded.{kept_of};
    ghost use Rattle.host_rec.specs.Noted.{Noted, IsNoted, items_of, spare_behind};

    ghost Value = { Noted };

    ghost view = { λ a. record { kept = kept_of a.calls.items (items_of a.text.items a.calls.items); room = vec_capacity a.calls - length a.calls.items; spare = spare_behind a.text.items (vec_capacity a.text) } };

    ghost invariant = { λ a. IsNoted a.calls.items a.text.items a.size a.faults };
}

impl Records {
    pub(crate) fn new(alloc: Global) -> Records
        ensures { result.kept ≡ nothing }
    {
        Records {
            calls: Vec::new(alloc),
            text: Vec::new(alloc),
            size: 0,
            faults: 0,
        }
    }

    // The tape of the calls.
    pub(crate) fn text(&self) -> &[u8]
        ensures tape { IsTape result.now self.now.kept.items }
        ensures even { length self.now.kept.calls ≡ length self.now.kept.items }
    {
        if self.text.is_empty() {
            return b"guest-tape 1\n";
        }
        &self.text
    }

    // The number of the bytes heard.
    pub(crate) fn size(&self) -> u64
        ensures { result ≡ min (heard_size (heard_by self.now.kept)) (2 ^ 64 - 1) }
    {
        self.size
    }

    // How many of the calls failed.
    pub(crate) fn faults(&self) -> u64
        ensures { result ≡ min (failures self.now.kept.items) (2 ^ 64 - 1) }
    {
        self.faults
    }

    // Room for one call more, and for so many bytes of its record.
    pub(crate) fn reserve(&mut self, bytes: usize) -> HostResult<()>
        ensures kept { self.new.kept ≡ self.old.kept }
        ensures even { length self.old.kept.calls ≡ length self.old.kept.items }
        ensures room { OnOk result (0 < self.new.room) }
        ensures spare { OnOk result (bytes ≤ self.new.spare) }
        ensures err { OnErr result (result ≡ Err Memory) }
    {
        if self.calls.reserve(1).is_err() {
            return Err(HostError::Memory);
        }
        if begin(&mut self.text).is_err() {
            return Err(HostError::Memory);
        }
        if make_room(&mut self.text, bytes).is_err() {
            return Err(HostError::Memory);
        }
        Ok(())
    }

    // Keeps a call and its record, for which there is room: so many bytes were heard, and so many calls failed.
    fn keep(&mut self, call: Call, next: Next<'_>, size: usize, faults: u64)
        requires room { 0 < self.old.room }
        requires spare { length (item_bytes (item_by next)) ≤ self.old.spare }
        requires is { IsItem (item_by next) }
        requires size { size ≡ heard_size (exchange call (item_by next)) }
        requires faults { faults ≡ failure (item_by next) }
        ensures { self.new.kept ≡ and self.old.kept call (item_by next.entry) }
    {
        put(next, &mut self.text);
        self.calls.push_reserved(call);
        self.size = self.size.saturating_add(size as u64);
        self.faults = self.faults.saturating_add(faults);
    }

    // Keeps a call that was done, or failed.
    #[tactic(auto, unfolding(host_tape::specs::Tape::item_bytes))]
    pub(crate) fn note_done(&mut self, call: Call, answer: HostResult<()>)
        requires room { 0 < self.old.room }
        requires spare { 1 ≤ self.old.spare }
        ensures { Keeps call (λ _. Done) answer self.old.kept self.new.kept }
    {
        match answer {
            Ok(()) => self.keep(call, Next::Done, 0, 0),
            Err(HostError::Failed) => self.keep(call, Next::Failed, 0, 1),
            Err(HostError::Memory) => {}
        }
    }

    // Keeps a call that gave a number, or failed.
    #[tactic(auto, unfolding(host_tape::specs::Tape::item_bytes))]
    pub(crate) fn note_number(&mut self, call: Call, answer: HostResult<u64>)
        requires room { 0 < self.old.room }
        requires spare { 9 ≤ self.old.spare }
        ensures { Keeps call (λ n. Number n) answer self.old.kept self.new.kept }
    {
        match answer {
            Ok(number) => self.keep(call, Next::Number(number), 0, 0),
            Err(HostError::Failed) => self.keep(call, Next::Failed, 0, 1),
            Err(HostError::Memory) => {}
        }
    }

    // Keeps a call that gave the bytes of `raw`, or failed.
    #[tactic(auto, unfolding(host_tape::specs::Tape::item_bytes))]
    pub(crate) fn note_bytes(&mut self, call: Call, answer: HostResult<()>, raw: &Raw)
        requires room { 0 < self.old.room }
        requires spare { 1 ≤ self.old.spare }
        requires fits { OnOk answer (5 + length raw.now ≤ self.old.spare) }
        requires most { OnOk answer (length raw.now ≤ 69632) }
        ensures { Keeps call (λ _. Bytes raw.now) answer self.old.kept self.new.kept }
    {
        match answer {
            Ok(()) => self.keep(call, Next::Bytes(raw.layout()), raw.len(), 0),
            Err(HostError::Failed) => self.keep(call, Next::Failed, 0, 1),
            Err(HostError::Memory) => {}
        }
    }
}
