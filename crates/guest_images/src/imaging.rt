// An instance image, made from a list of its partitions.
ghost use Rattle.std.specs.Prelude.{◌≡◌, ◌≤◌, ◌^◌, ℕ, List, None, length, vec_len, IfOk, OnOk};
ghost use Rattle.std.specs.declared.option.Option.{Option};
ghost use Rattle.instance_image.specs.Grammar.{AreApart, AreNamed, empty_slots, taken};
ghost use Rattle.guest_images.specs.Imaging.{ImageListOutcome, ImageListed, Images, IsImageFile, image_file, image_unfit, padded};
ghost use Rattle.guest_images.specs.Loads.{FileCause, LoadsCause};
ghost use Rattle.guest_images.specs.Measuring.{folder_run, log_run};

use crate::image_lists::{ImageList, read_image_list};
use crate::loading::{load, store};
use crate::status::{Status, UnfitKind};
use host_traits::Folder;
use instance_image::Image;
use mg_base::{Guid, Memory};
use std::alloc::Global;
use text_lines::PlanFault;

// The most partitions of an image.
const PARTS: usize = 256;

// The most sectors of an image, without the zeros at its end.
const SECTORS: u64 = 2_097_152;

// How many sectors partitions take, with their headers.
#[tactic(auto, unfolding(instance_image::specs::Grammar::taken))]
fn taken(parts: &[(Guid, u32)]) -> u64
    requires { length parts.now ≤ 256 }
    ensures value { result ≡ taken parts.now }
    ensures low { result ≤ 2 ^ 40 }
{
    let mut sum = 0;
    for part in parts {
        sum += 1 + u64::from(part.1);
    }
    sum
}

// Why no image can be made of the partitions: the first of the kinds in their order.
fn image_unfit(parts: &[(Guid, u32)]) -> Option<UnfitKind>
    ensures { result ≡ image_unfit parts.now }
{
    if parts.len() > PARTS {
        return Some(UnfitKind::TooMany);
    }
    if 1 + taken(parts) > SECTORS {
        return Some(UnfitKind::TooMany);
    }
    if parts.is_empty() {
        return Some(UnfitKind::NoParts);
    }
    None
}

// Adds zeros up to a multiple of 4096.
fn pad(bytes: &mut Vec<u8>) -> Result<(), Memory>
    requires { vec_len bytes.old ≤ 2 ^ 30 }
    ensures { OnOk result (bytes.new.items ≡ padded bytes.old.items) }
{
    let len = 4096 * bytes.len().div_ceil(4096);
    bytes.resize(len, 0)?;
    Ok(())
}

// The image of a list's partitions, all of them empty.
fn image_of(alloc: Global, list: &ImageList) -> Result<Vec<u8>, Memory>
    requires fit { image_unfit list.now.parts.items ≡ None }
    requires named { AreNamed list.now.parts.items }
    requires apart { AreApart (empty_slots list.now.parts.items) }
    ensures bytes { IfOk result (λ v. v.items ≡ image_file list.now.salt list.now.parts.items) }
    ensures image { OnOk result (IsImageFile list.now.salt list.now.parts.items) }
{
    let mut bytes = Vec::new(alloc);
    Image::writer(&list.salt, &list.parts, &mut bytes)?;
    pad(&mut bytes)?;
    Ok(bytes)
}

// What a list's text says.
fn listed(alloc: Global, text: &[u8]) -> Result<ImageList, Status>
    ensures { ImageListed text.now result }
{
    match read_image_list(alloc, text) {
        Ok(list) => Ok(list),
        Err(PlanFault::At { line, kind }) => Err(Status::ListFault { line, kind }),
        Err(PlanFault::Memory) => Err(Status::Memory),
    }
}

// Loads a list.
fn load_list<F: Folder>(alloc: Global, folder: &mut F, list: &str) -> Result<ImageList, Status>
    ensures files { F.files folder.new ≡ F.files folder.old }
    ensures outcome { ImageListOutcome (F.files folder.old) list.now result }
    ensures cause { LoadsCause (F.faults folder.old) (F.faults folder.new)
        (F.last_failed folder.new) result }
{
    let mut loaded = 0;
    match load(alloc, folder, list, &mut loaded) {
        Ok(text) => listed(alloc, &text),
        Err(status) => Err(status),
    }
}

/// Stores the instance image of a list's partitions.
pub(crate) fn make_image<F: Folder>(alloc: Global, list: &str, out: &str, folder: &mut F) -> Status
    ensures images { (log : Option (List ℕ))
        → Images (folder_run (F.files folder.old) (F.files folder.new) (F.last_failed folder.new))
        (log_run log log) list.now out.now result }
    ensures file { FileCause (F.faults folder.old) (F.faults folder.new)
        (F.last_failed folder.new) result }
    ensures never { result ≡ Status.WriteFault → ⊥ }
{
    let list = match load_list(alloc, folder, list) {
        Ok(list) => list,
        Err(status) => return status,
    };
    if let Some(kind) = image_unfit(&list.parts) {
        return Status::Unfit { kind };
    }
    match image_of(alloc, &list) {
        Ok(bytes) => store(alloc, folder, out, &bytes),
        Err(_) => Status::Memory,
    }
}
