// A composite file, read from its bytes.
ghost use Rattle.std.specs.Prelude.{◌≡◌, ℕ, ◌<◌, ◌≤◌, ◌^◌, IfOk, MatchOption, MatchResult, Ok, true, false, length, map};
ghost use Rattle.composite_spec.specs.Wire.{Tells};
ghost use Rattle.composite_spec.specs.Said.{Composite, IsComposite, composite, placed};
ghost use Rattle.composite_spec.specs.Reading.{Gives, Fails, part_by, disk_by, is_path, follows, placed_of, all_placed, is_length, stated_offset, judged, decoded, IsRead};
ghost use Rattle.composite_spec.specs.Spelling.{IsFile};

use crate::kinds::{Component, Spec, SpecFault};
use crate::stated::{Stated, StatedDisk, disk_of};
use std::alloc::Global;

/// Whether a component may begin at this offset, behind one at `before`.
fn follows(before: Option<u64>, offset: u64) -> bool
    ensures { result ≡ follows before offset }
{
    match before {
        Some(before) => before < offset,
        None => offset == 0,
    }
}

/// The text of a path: 1 to 255 bytes of UTF-8.
#[tactic(auto, unfolding(crate::specs::Reading::is_path))]
fn path_text(path: &[u8]) -> Option<&str>
    ensures { MatchOption result (is_path path.now ≡ false)
        (λ s. (s.now ≡ path.now) × (is_path path.now ≡ true)) }
{
    if path.is_empty() {
        return None;
    }
    if path.len() > 255 {
        return None;
    }
    match str::from_utf8(path) {
        Ok(text) => Some(text),
        Err(_) => None,
    }
}

/// The component of this index, behind one that begins at the offset `before`.
#[tactic(auto, unfolding(crate::specs::Reading::placed_of))]
fn placed_of(
    alloc: Global,
    index: u64,
    before: Option<u64>,
    part: &Stated<'_>,
) -> Result<Component, SpecFault>
    ensures { Gives placed result (placed_of index before (part_by part.now)) }
{
    let Some(text) = path_text(part.path) else {
        return Err(SpecFault::Path { index });
    };
    let found = part.capability;
    if found > 1 {
        return Err(SpecFault::Capability { index, found });
    }
    if !follows(before, part.offset) || index >= 1024 {
        return Err(SpecFault::Order { index });
    }
    Ok(Component {
        path: String::from_str(alloc, text)?,
        offset: part.offset,
        write: found == 1,
    })
}

/// All components, or the first rule that one of them breaks.
fn all_placed(alloc: Global, parts: &[Stated<'_>]) -> Result<Vec<Component>, SpecFault>
    ensures { Gives (λ v. map placed v.items) result (all_placed 0 None (map part_by parts.now)) }
{
    let mut components = Vec::new(alloc);
    let mut before = None;
    let mut index = 0;
    while index < parts.len() {
        let part = &parts[index];
        match placed_of(alloc, index as u64, before, part) {
            Ok(component) => components.push(component)?,
            Err(fault) => return Err(fault),
        }
        before = Some(part.offset);
        index += 1;
    }
    Ok(components)
}

/// Whether a disk of these components can have this length.
#[tactic(auto, unfolding(crate::specs::Reading::is_length))]
fn is_length(n: u64, parts: &[Stated<'_>]) -> bool
    ensures { result ≡ is_length n (map (λ p. stated_offset (part_by p)) parts.now) }
{
    if parts.is_empty() {
        return false;
    }
    let last = &parts[parts.len() - 1];
    last.offset < n && n % 512 == 0 && n <= 1 << 40
}

/// The description that a disk's fields state, or the first rule that they break.
#[tactic(auto, unfolding(crate::specs::Reading::judged))]
fn judged(alloc: Global, disk: &StatedDisk<'_>) -> Result<Spec, SpecFault>
    ensures { Gives composite result (judged (disk_by disk.now)) }
{
    if disk.version != 2 {
        return Err(SpecFault::Version {
            found: disk.version,
        });
    }
    let components = all_placed(alloc, disk.components.as_slice())?;
    if !is_length(disk.length, disk.components.as_slice()) {
        return Err(SpecFault::Length { found: disk.length });
    }
    Ok(Spec {
        components,
        length: disk.length,
    })
}

/// What a whole file describes.
#[tactic(auto, unfolding(crate::specs::Reading::decoded))]
fn decoded(alloc: Global, bytes: &[u8]) -> Result<Spec, SpecFault>
    ensures { Gives composite result (decoded bytes.now) }
{
    if bytes.len() < 15 {
        return Err(SpecFault::Magic);
    }
    if &bytes[..15] != b"composite_disk\x1d".as_slice() {
        return Err(SpecFault::Magic);
    }
    if bytes.len() > 1 << 20 {
        return Err(SpecFault::Truncated { at: 1 << 20 });
    }
    match disk_of(alloc, bytes.len() as u64, &bytes[15..]) {
        Ok(disk) => judged(alloc, &disk),
        Err(fault) => Err(fault),
    }
}

/// Reads a composite file, all of its bytes. The message is in the wire format of Protocol Buffers; a later
/// value of a field replaces an earlier one, and unknown fields are skipped.
pub fn read_spec(alloc: Global, bytes: &[u8]) -> Result<Spec, SpecFault>
    // The description, or the first rule that the bytes break, unless memory runs out.
    ensures value { Gives composite result (decoded bytes.now) }
    // What is read is spelled so.
    ensures found { IfOk result (λ s. IsFile bytes.now (composite s)) }
    // What is spelled so is read, unless memory runs out.
    ensures only { (c : Composite) → IsFile bytes.now c → IsRead c result }
    // What is read is a description that a map can be made of.
    ensures describes { IfOk result (λ s. IsComposite (composite s)) }
{
    decoded(alloc, bytes)
}
