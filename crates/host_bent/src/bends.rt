// How answers are bent, and the count of the calls.
ghost use Rattle.std.specs.Prelude.{◌≡◌, ◌≤◌, ◌<◌, ◌+◌, ◌^◌, List, ℕ, [], length, IfOk, OnErr, true, false, None, vec_capacity};
ghost use Rattle.std.specs.Option.{option_map};
ghost use Rattle.host_traits.specs.declared.calls.Said.TheVariants.{Number as SaidNumber, Bytes as SaidBytes, Done as SaidDone};
ghost use Rattle.host_traits.specs.Told.{Fills};
ghost use Rattle.host_bent.specs.Bent.{HasRoom, bend_at, bent_by, counted, ended, flipped, is_flip, said_as};

use host_traits::{Call, HostError, HostResult, Raw};
use mg_base::Memory;
use std::alloc::Global;
use std::marker::Model;

/// How an answer is bent.
#[derive(Debug, Drop)]
pub enum Bend {
    /// The call fails.
    Fail,
    /// This number in the place of the answer's.
    Number(u64),
    /// These bytes, at most as many as were asked for, in the place of the answer's.
    Bytes(Vec<u8>),
    /// The lowest bit of this byte is flipped, where the answer has it.
    Flip { byte: u64 },
}

// The first bend that is listed for a call's number.
fn find(bends: &[(u64, Bend)], number: u64) -> Option<&Bend>
    ensures { option_map (λ b. b.now) result ≡ bend_at bends.now number }
{
    for at in 0..bends.len() {
        let entry = &bends[at];
        if entry.0 == number {
            return Some(&entry.1);
        }
    }
    None
}

// A number, bent.
fn bent_number(bend: Option<&Bend>, own: HostResult<u64>) -> HostResult<u64>
    ensures { said_as (λ n. SaidNumber n) result ≡ bent_by 0 (option_map (λ b. b.now) bend.entry)
        (said_as (λ n. SaidNumber n) own) }
{
    match bend {
        Some(Bend::Fail) => Err(HostError::Failed),
        Some(Bend::Number(n)) => match own {
            Ok(_) => Ok(*n),
            Err(error) => Err(error),
        },
        Some(Bend::Bytes(_)) => own,
        Some(Bend::Flip { .. }) => own,
        None => own,
    }
}

// An answer that has no bytes and no number, bent.
fn bent_done(bend: Option<&Bend>, own: HostResult<()>) -> HostResult<()>
    ensures { said_as (λ _. SaidDone) result ≡ bent_by 0 (option_map (λ b. b.now) bend.entry)
        (said_as (λ _. SaidDone) own) }
{
    match bend {
        Some(Bend::Fail) => Err(HostError::Failed),
        Some(Bend::Number(_)) => own,
        Some(Bend::Bytes(_)) => own,
        Some(Bend::Flip { .. }) => own,
        None => own,
    }
}

// Flips the lowest bit of a byte, where it is there, with room for all of them.
fn flip(room: Vec<u8>, byte: u64, raw: &mut Raw)
    requires empty { room.items ≡ [] }
    requires room { length raw.old ≤ vec_capacity room }
    requires most { length raw.old ≤ 69632 }
    ensures { raw.new ≡ flipped raw.old byte }
{
    let mut bytes = room;
    let _ = bytes.extend_from_slice(raw.layout());
    if byte < bytes.len() as u64 {
        bytes[byte as usize] ^= 1;
    }
    raw.put(&bytes);
}

// The bytes of an answer, bent.
fn bent_bytes(
    bend: Option<&Bend>,
    most: usize,
    room: Vec<u8>,
    own: HostResult<()>,
    raw: &mut Raw,
) -> HostResult<()>
    requires most { most ≤ 69632 }
    requires room { HasRoom (option_map (λ b. b.now) bend) most room }
    requires fills { Fills most own raw.old }
    ensures bent { said_as (λ _. SaidBytes raw.new) result
        ≡ bent_by most (option_map (λ b. b.now) bend.entry) (said_as (λ _. SaidBytes raw.old) own) }
    ensures fills { Fills most result raw.new }
{
    match bend {
        Some(Bend::Fail) => {
            raw.clear();
            Err(HostError::Failed)
        }
        Some(Bend::Bytes(bytes)) => match own {
            Ok(()) => {
                let count = most.min(bytes.len());
                raw.put(&bytes[..count]);
                Ok(())
            }
            Err(error) => Err(error),
        },
        Some(Bend::Flip { byte }) => match own {
            Ok(()) => {
                flip(room, *byte, raw);
                Ok(())
            }
            Err(error) => Err(error),
        },
        Some(Bend::Number(_)) => own,
        None => own,
    }
}

/// The bends, how many calls were made, how many failed, and which was the last of these.
#[derive(Drop)]
pub(crate) struct Bends {
    bends: Vec<(u64, Bend)>,
    calls: u64,
    faults: u64,
    last_failed: Option<Call>,
}

impl Model for Bends {
    ghost use Rattle.host_bent.specs.Bent.{BendCount};

    ghost Value = { BendCount };

    ghost view = { λ b. record { bends = b.bends.items; calls = b.calls; faults = b.faults; last_failed = b.last_failed } };
}

impl Bends {
    pub(crate) fn new(bends: Vec<(u64, Bend)>) -> Bends
        ensures { result ≡ record
            { bends = bends.items; calls = 0; faults = 0; last_failed = None } }
    {
        Bends {
            bends,
            calls: 0,
            faults: 0,
            last_failed: None,
        }
    }

    pub(crate) fn faults(&self) -> u64
        ensures { result ≡ self.now.faults }
    {
        self.faults
    }

    // Counts a call, and its failure where it failed.
    fn end(&mut self, call: Call, failed: bool)
        ensures count { self.new ≡ counted call failed self.old }
        ensures small { self.old.faults < 2 ^ 64 }
    {
        let faults = self.faults.saturating_add(1);
        self.calls = self.calls.saturating_add(1);
        if failed {
            self.faults = faults;
            self.last_failed = Some(call);
        }
    }

    /// Room for the bytes of the next call's answer, where one of them is to be flipped.
    pub(crate) fn room(&self, alloc: Global, most: usize) -> Result<Vec<u8>, Memory>
        ensures room { IfOk result (HasRoom (bend_at self.now.bends self.now.calls) most) }
        ensures flips { OnErr result (is_flip (bend_at self.now.bends self.now.calls) ≡ true) }
    {
        match find(&self.bends, self.calls) {
            Some(Bend::Flip { .. }) => match Vec::with_capacity(alloc, most) {
                Ok(room) => Ok(room),
                Err(_) => Err(Memory),
            },
            _ => Ok(Vec::new(alloc)),
        }
    }

    /// Counts a call that ends for want of room.
    pub(crate) fn no_room(&mut self, call: Call)
        ensures { self.new ≡ counted call false self.old }
    {
        self.end(call, false);
    }

    /// Bends the answer of a call that gives a number, and counts the call.
    pub(crate) fn number(&mut self, call: Call, own: HostResult<u64>) -> HostResult<u64>
        ensures bent { said_as (λ n. SaidNumber n) result
            ≡ bent_by 0 (bend_at self.old.bends self.old.calls) (said_as (λ n. SaidNumber n) own) }
        ensures ended { self.new ≡ ended call (said_as (λ n. SaidNumber n) result) self.old }
        ensures small { self.old.faults < 2 ^ 64 }
    {
        let answer = bent_number(find(&self.bends, self.calls), own);
        self.end(call, matches!(answer, Err(HostError::Failed)));
        answer
    }

    /// Bends the answer of a call that gives nothing, and counts the call.
    pub(crate) fn done(&mut self, call: Call, own: HostResult<()>) -> HostResult<()>
        ensures bent { said_as (λ _. SaidDone) result
            ≡ bent_by 0 (bend_at self.old.bends self.old.calls) (said_as (λ _. SaidDone) own) }
        ensures ended { self.new ≡ ended call (said_as (λ _. SaidDone) result) self.old }
        ensures small { self.old.faults < 2 ^ 64 }
    {
        let answer = bent_done(find(&self.bends, self.calls), own);
        self.end(call, matches!(answer, Err(HostError::Failed)));
        answer
    }

    /// Bends the answer of a call that gives bytes, and counts the call.
    pub(crate) fn bytes(
        &mut self,
        call: Call,
        most: usize,
        room: Vec<u8>,
        own: HostResult<()>,
        raw: &mut Raw,
    ) -> HostResult<()>
        requires most { most ≤ 69632 }
        requires room { HasRoom (bend_at self.old.bends self.old.calls) most room }
        requires fills { Fills most own raw.old }
        ensures bent { said_as (λ _. SaidBytes raw.new) result
            ≡ bent_by most (bend_at self.old.bends self.old.calls)
            (said_as (λ _. SaidBytes raw.old) own) }
        ensures ended { self.new ≡ ended call (said_as (λ _. SaidBytes raw.new) result) self.old }
        ensures small { self.old.faults < 2 ^ 64 }
        ensures fills { Fills most result raw.new }
    {
        let answer = bent_bytes(find(&self.bends, self.calls), most, room, own, raw);
        self.end(call, matches!(answer, Err(HostError::Failed)));
        answer
    }
}
