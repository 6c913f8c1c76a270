// What the fields of a composite file state, before any rule on it.
ghost use Rattle.std.specs.Prelude.{◌≡◌, ◌<◌, ◌≤◌, ◌-◌, length, map, MatchResult, IfOk};
ghost use Rattle.composite_spec.specs.Wire.{Tells, content, size_of};
ghost use Rattle.composite_spec.specs.Reading.{Gives, Fails, part_by, disk_by, no_disk, with_field, part_step, part_of, with_disk_field, disk_step, disk_of};

use crate::kinds::SpecFault;
use crate::wire::{Message, Value, field, place};
use std::alloc::Global;

/// What the fields of a component state.
#[derive(Clone, Copy)]
pub(crate) struct Stated<'a> {
    pub(crate) path: &'a [u8],
    pub(crate) offset: u64,
    pub(crate) capability: u64,
}

/// What the fields of the disk state.
#[derive(Drop)]
pub(crate) struct StatedDisk<'a> {
    pub(crate) version: u64,
    pub(crate) components: Vec<Stated<'a>>,
    pub(crate) length: u64,
}

/// What a component states, with one field more.
fn with_field<'a>(part: Stated<'a>, number: u64, value: Value<'a>) -> Stated<'a>
    ensures { part_by result ≡ with_field (part_by part.entry) number (content value.entry) }
{
    match value {
        Value::Number(n) => {
            if number == 2 {
                return Stated {
                    path: part.path,
                    offset: n,
                    capability: part.capability,
                };
            }
            if number == 3 {
                return Stated {
                    path: part.path,
                    offset: part.offset,
                    capability: n,
                };
            }
            part
        }
        Value::Sized(path) => {
            if number == 1 {
                return Stated {
                    path,
                    offset: part.offset,
                    capability: part.capability,
                };
            }
            part
        }
        Value::Fixed => part,
    }
}

/// Takes the field at the front of a component's message.
#[tactic(auto, unfolding(crate::specs::Reading::part_step))]
fn part_step<'a>(
    end: u64,
    part: Stated<'a>,
    rest: &'a [u8],
) -> Result<(Stated<'a>, &'a [u8]), SpecFault>
    requires { length rest.now ≤ end }
    ensures value { Tells (λ x. (part_by x.0, x.1.now)) result
        (part_step end (part_by part.entry) rest.now) }
    ensures shorter { IfOk result (λ x. length x.1.now < length rest.now) }
{
    let (number, value, after) = field(Message::Component, end, rest)?;
    Ok((with_field(part, number, value), after))
}

/// What a component's message states, whose end is the place `end` of the file.
fn part_of(end: u64, bytes: &[u8]) -> Result<Stated<'_>, SpecFault>
    requires { length bytes.now ≤ end }
    ensures { Tells part_by result (part_of end bytes.now) }
{
    let mut part = Stated {
        path: &[],
        offset: 0,
        capability: 0,
    };
    let mut rest = bytes;
    while !rest.is_empty() {
        match part_step(end, part, rest) {
            Ok((next, after)) => {
                part = next;
                rest = after;
            }
            Err(fault) => return Err(fault),
        }
    }
    Ok(part)
}

/// Takes a field of the disk, behind which the file goes on at the place `end`.
fn with_disk_field<'a>(
    end: u64,
    disk: &mut StatedDisk<'a>,
    number: u64,
    value: Value<'a>,
) -> Result<(), SpecFault>
    requires { size_of (content value) ≤ end }
    ensures { MatchResult result
        (λ _. with_disk_field end (disk_by disk.old) number (content value.entry)
        ≡ Ok (disk_by disk.new))
        (λ f. Fails f (with_disk_field end (disk_by disk.old) number (content value.entry))) }
{
    match value {
        Value::Number(n) => {
            if number == 1 {
                disk.version = n;
            } else if number == 3 {
                disk.length = n;
            }
            Ok(())
        }
        Value::Sized(bytes) => {
            if number == 2 {
                let part = part_of(end, bytes)?;
                disk.components.push(part)?;
            }
            Ok(())
        }
        Value::Fixed => Ok(()),
    }
}

/// Takes the field at the front of the disk's message, and gives what is behind it.
#[tactic(auto, unfolding(crate::specs::Reading::disk_step))]
fn disk_step<'a>(end: u64, disk: &mut StatedDisk<'a>, rest: &'a [u8]) -> Result<&'a [u8], SpecFault>
    requires { length rest.now ≤ end }
    ensures value { MatchResult result
        (λ x. disk_step end (disk_by disk.old) rest.now ≡ Ok (disk_by disk.new, x.now))
        (λ f. Fails f (disk_step end (disk_by disk.old) rest.now)) }
    ensures shorter { IfOk result (λ x. length x.now < length rest.now) }
{
    let (number, value, after) = field(Message::Disk, end, rest)?;
    with_disk_field(place(end, after), disk, number, value)?;
    Ok(after)
}

/// What the disk's message states, whose end is the place `end` of the file.
pub(crate) fn disk_of(alloc: Global, end: u64, bytes: &[u8]) -> Result<StatedDisk<'_>, SpecFault>
    requires { length bytes.now ≤ end }
    ensures { Gives disk_by result (disk_of end bytes.now) }
{
    let mut disk = StatedDisk {
        version: 0,
        components: Vec::new(alloc),
        length: 0,
    };
    let mut rest = bytes;
    while !rest.is_empty() {
        match disk_step(end, &mut disk, rest) {
            Ok(after) => rest = after,
            Err(fault) => return Err(fault),
        }
    }
    Ok(disk)
}
