// What a line of a plan says.
ghost use Rattle.std.specs.Prelude.{◌≡◌, IfErr};
ghost use Rattle.text_lines.specs.Fields.{Gives, IsKind};
ghost use Rattle.guest_plan.specs.Items.{uuid_of, measure_of, secret_of, instance_salt_of, instance_of, blob_of, file_of, named_file_of, write_of, writedir_of, apk_fields, places_of, apk_fixed_of, apk_first_of, apk_kept_of, apk_by, apk_of, item_of};
ghost use Rattle.guest_plan.specs.Apks.{fields_at, places_at};

use crate::apks::{ApkFields, Places};
use crate::plan::{How, Item, PlanLine};
use guid_crc::read_guid;
use mg_base::{Digest, Guid};
use sha_tree::Measure;
use std::alloc::Global;
use text_lines::{
    LineFault, Name, PlanKind, field, first_field, five_fields, four_fields, hex32, hex64,
    last_field, name_of, number_in, page_salt, part_of, three_fields, two_fields,
};

// Files, directories and disks are numbered below this.
const NUMBERS: u64 = 2_147_483_648;
// A device has fewer blocks than this.
const BLOCKS: u64 = 1_048_577;

/// A UUID: 36 characters, hyphenated, in lower case.
#[tactic(auto, unfolding(crate::specs::Items::uuid_of))]
pub fn uuid_of(text: &[u8]) -> Result<Guid, LineFault>
    ensures { Gives (λ g. g) result (uuid_of text.now) }
{
    let Ok(text) = str::from_utf8(text) else {
        return Err(LineFault::Kind(PlanKind::Uuid));
    };
    match read_guid(text) {
        Some(guid) => Ok(guid),
        None => Err(LineFault::Kind(PlanKind::Uuid)),
    }
}

/// A measure, by the texts of its blocks, salt and root.
#[tactic(auto, unfolding(crate::specs::Items::measure_of))]
pub(crate) fn measure_of(blocks: &[u8], salt: &[u8], root: &[u8]) -> Result<Measure, LineFault>
    ensures value { Gives (λ m. m) result (measure_of blocks.now salt.now root.now) }
    ensures kind { IfErr result IsKind }
{
    let blocks = number_in(2, BLOCKS, blocks)?;
    let salt = page_salt(salt)?;
    let root = hex32(root)?;
    Ok(Measure {
        blocks,
        salt,
        root: Digest(root),
    })
}

#[tactic(auto, unfolding(crate::specs::Items::secret_of))]
fn secret_of(line: &[u8]) -> Result<Item, LineFault>
    ensures { Gives (λ i. i) result (secret_of line.now) }
{
    let (_, text) = two_fields(line)?;
    let bytes = hex32(text)?;
    Ok(Item::Secret(bytes))
}

#[tactic(auto, unfolding(crate::specs::Items::instance_salt_of))]
fn instance_salt_of(line: &[u8]) -> Result<Item, LineFault>
    ensures { Gives (λ i. i) result (instance_salt_of line.now) }
{
    let (_, text) = two_fields(line)?;
    let bytes = hex64(text)?;
    Ok(Item::InstanceSalt(bytes))
}

#[tactic(auto, unfolding(crate::specs::Items::instance_of))]
fn instance_of(alloc: Global, line: &[u8]) -> Result<Item, LineFault>
    ensures { Gives (λ i. i) result (instance_of line.now) }
{
    let (_, disk, part) = three_fields(line)?;
    let disk = number_in(0, NUMBERS, disk)?;
    let part = part_of(alloc, part)?;
    Ok(Item::Line(PlanLine::Instance {
        disk: disk as u32,
        part,
    }))
}

#[tactic(auto, unfolding(crate::specs::Items::blob_of))]
fn blob_of(line: &[u8]) -> Result<Item, LineFault>
    ensures { Gives (λ i. i) result (blob_of line.now) }
{
    let (_, file, blocks, salt, root) = five_fields(line)?;
    let file = number_in(0, NUMBERS, file)?;
    let measure = measure_of(blocks, salt, root)?;
    Ok(Item::Line(PlanLine::Blob {
        file: file as u32,
        measure,
    }))
}

#[tactic(auto, unfolding(crate::specs::Items::file_of))]
fn file_of(alloc: Global, line: &[u8]) -> Result<Item, LineFault>
    ensures { Gives (λ i. i) result (file_of line.now) }
{
    let (_, name, file, digest) = four_fields(line)?;
    let name = name_of(alloc, name)?;
    let file = number_in(0, NUMBERS, file)?;
    let digest = hex32(digest)?;
    Ok(Item::Line(PlanLine::File {
        name,
        file: file as u32,
        digest: Digest(digest),
    }))
}

#[tactic(auto, unfolding(crate::specs::Items::named_file_of))]
fn named_file_of(alloc: Global, line: &[u8]) -> Result<(Name, u32), LineFault>
    ensures { Gives (λ f. (f.0, f.1)) result (named_file_of line.now) }
{
    let (_, name, file) = three_fields(line)?;
    let name = name_of(alloc, name)?;
    let file = number_in(0, NUMBERS, file)?;
    Ok((name, file as u32))
}

#[tactic(auto, unfolding(crate::specs::Items::write_of))]
fn write_of(alloc: Global, line: &[u8]) -> Result<Item, LineFault>
    ensures { Gives (λ i. i) result (write_of line.now) }
{
    let (name, file) = named_file_of(alloc, line)?;
    Ok(Item::Line(PlanLine::Write { name, file }))
}

#[tactic(auto, unfolding(crate::specs::Items::writedir_of))]
fn writedir_of(alloc: Global, line: &[u8]) -> Result<Item, LineFault>
    ensures { Gives (λ i. i) result (writedir_of line.now) }
{
    let (name, file) = named_file_of(alloc, line)?;
    Ok(Item::Line(PlanLine::WriteDir { name, file }))
}

#[tactic(auto, unfolding(crate::specs::Items::apk_fields))]
fn apk_fields(line: &[u8]) -> Result<ApkFields<'_>, LineFault>
    ensures { Gives fields_at result (apk_fields line.now) }
{
    let (_, rest) = field(line)?;
    let (disk, rest) = field(rest)?;
    let (apk, rest) = field(rest)?;
    let (idsig, how) = field(rest)?;
    Ok(ApkFields {
        disk,
        apk,
        idsig,
        how,
    })
}

#[tactic(auto, unfolding(crate::specs::Items::places_of))]
fn places_of(alloc: Global, f: &ApkFields<'_>) -> Result<Places, LineFault>
    ensures { Gives places_at result (places_of f.now.disk.now f.now.apk.now f.now.idsig.now) }
{
    let disk = number_in(0, NUMBERS, f.disk)?;
    let apk = part_of(alloc, f.apk)?;
    let idsig = part_of(alloc, f.idsig)?;
    Ok(Places {
        disk: disk as u32,
        apk,
        idsig,
    })
}

#[tactic(auto, unfolding(crate::specs::Items::apk_fixed_of))]
fn apk_fixed_of(alloc: Global, f: &ApkFields<'_>) -> Result<Item, LineFault>
    ensures { Gives (λ i. i) result (apk_fixed_of (fields_at f.now)) }
{
    let (_, blocks, salt, root) = four_fields(f.how)?;
    let places = places_of(alloc, f)?;
    let measure = measure_of(blocks, salt, root)?;
    Ok(Item::Line(places.measured(How::Fixed(measure))))
}

#[tactic(auto, unfolding(crate::specs::Items::apk_first_of))]
fn apk_first_of(alloc: Global, f: &ApkFields<'_>) -> Result<Item, LineFault>
    ensures { Gives (λ i. i) result (apk_first_of (fields_at f.now)) }
{
    let _ = last_field(f.how)?;
    let places = places_of(alloc, f)?;
    Ok(Item::Line(places.measured(How::First)))
}

#[tactic(auto, unfolding(crate::specs::Items::apk_kept_of))]
fn apk_kept_of(alloc: Global, f: &ApkFields<'_>) -> Result<Item, LineFault>
    ensures { Gives (λ i. i) result (apk_kept_of (fields_at f.now)) }
{
    let (_, guid) = two_fields(f.how)?;
    let places = places_of(alloc, f)?;
    let guid = uuid_of(guid)?;
    Ok(Item::Line(places.measured(How::Kept(guid))))
}

#[tactic(auto, unfolding(crate::specs::Items::apk_by))]
fn apk_by(alloc: Global, f: &ApkFields<'_>) -> Result<Item, LineFault>
    ensures { Gives (λ i. i) result (apk_by (fields_at f.now)) }
{
    let word = first_field(f.how);
    if word == b"fixed".as_slice() {
        return apk_fixed_of(alloc, f);
    }
    if word == b"first".as_slice() {
        return apk_first_of(alloc, f);
    }
    if word == b"record".as_slice() {
        return apk_kept_of(alloc, f);
    }
    Err(LineFault::Kind(PlanKind::Word))
}

#[tactic(auto, unfolding(crate::specs::Items::apk_of))]
fn apk_of(alloc: Global, line: &[u8]) -> Result<Item, LineFault>
    ensures { Gives (λ i. i) result (apk_of line.now) }
{
    let fields = apk_fields(line)?;
    apk_by(alloc, &fields)
}

/// What the line says.
#[tactic(auto, unfolding(crate::specs::Items::item_of))]
pub fn item_of(alloc: Global, line: &[u8]) -> Result<Item, LineFault>
    ensures { Gives (λ i. i) result (item_of line.now) }
{
    let word = first_field(line);
    if word == b"secret".as_slice() {
        return secret_of(line);
    }
    if word == b"salt".as_slice() {
        return instance_salt_of(line);
    }
    if word == b"instance".as_slice() {
        return instance_of(alloc, line);
    }
    if word == b"blob".as_slice() {
        return blob_of(line);
    }
    if word == b"apk".as_slice() {
        return apk_of(alloc, line);
    }
    if word == b"file".as_slice() {
        return file_of(alloc, line);
    }
    if word == b"write".as_slice() {
        return write_of(alloc, line);
    }
    if word == b"writedir".as_slice() {
        return writedir_of(alloc, line);
    }
    Err(LineFault::Kind(PlanKind::Word))
}
