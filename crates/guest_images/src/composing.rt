// The composite disk of parts: its partition table, and its description.
ghost use Rattle.std.specs.Prelude.{◌≡◌, ◌≤◌, ◌<◌, ◌+◌, ◌-◌, ◌*◌, ◌++◌, ◌∷◌, ◌^◌, ℕ, List, [], None, length, map, vec_len, string_bytes, codes, IfOk, OnOk};
ghost use Rattle.std.specs.List.{flat_map, AllByRecursion};
ghost use Rattle.composite_spec.specs.Said.{composite, placed, IsComposite};
ghost use Rattle.composite_spec.specs.Writing.{file_bytes};
ghost use Rattle.gpt.specs.Image.{head_bytes, tail_bytes, taken, total};
ghost use Rattle.guest_images.specs.Composing.{HasTable, IsDescribed, IsPiece, composite_of, disk_of, end_component, head_name, name_field, part_of, parts_of, placed_from, sectors_of, tail_name, unfit_kind, unit_of, uuid_of};

use crate::pieces::{Piece, copied};
use composite_spec::{Component, Spec, write_spec};
use gpt::{GptImage, Part, write_gpt};
use mg_base::{Guid, Memory};
use std::alloc::Global;
use uuid::Uuid;

/// What is stored for a composite disk.
#[derive(Drop)]
pub struct Disk {
    /// The composite file.
    pub text: Vec<u8>,
    /// The first 40 sectors of the disk, and their file's name.
    pub head: Vec<u8>,
    pub head_name: String,
    /// The last 40 sectors, and their file's name.
    pub tail: Vec<u8>,
    pub tail_name: String,
}

// The version 5 UUID of a name under a namespace.
fn uuid_of(space: &Guid, name: &[u8]) -> Guid
    ensures { result ≡ uuid_of space.now name.now }
{
    Guid(Uuid::new_v5(&Uuid::from_bytes(space.0), name).into_bytes())
}

// Adds the units of a name.
fn put_units(name: &[u8], out: &mut Vec<u8>) -> Result<(), Memory>
    ensures text { OnOk result (out.new.items ≡ out.old.items ++ flat_map unit_of name.now) }
    ensures len { OnOk result (vec_len out.new ≡ vec_len out.old + 2 * length name.now) }
{
    for byte in name {
        out.push(*byte)?;
        out.push(0)?;
    }
    Ok(())
}

// The field of a name of at most 36 bytes.
fn name_field(alloc: Global, name: &[u8]) -> Result<[u8; 72], Memory>
    requires { length name.now ≤ 36 }
    ensures { IfOk result (λ field. field ≡ name_field name.now) }
{
    let mut units = Vec::new(alloc);
    put_units(name, &mut units)?;
    units.resize(72, 0)?;
    let mut field = [0u8; 72];
    field.copy_from_slice(&units);
    Ok(field)
}

// So many bytes in sectors, a whole number of blocks.
#[tactic(auto, unfolding(crate::specs::Composing::sectors_of))]
fn sectors_of(size: u64) -> u64
    requires { size ≤ 2 ^ 30 }
    ensures value { result ≡ sectors_of size }
    ensures few { result ≤ 2 ^ 22 }
{
    8 * size.div_ceil(4096)
}

// A piece's partition.
fn part_of(alloc: Global, disk: &Guid, piece: &Piece) -> Result<Part, Memory>
    requires { IsPiece piece.now }
    ensures { IfOk result (λ p. p ≡ part_of disk.now piece.now) }
{
    let name = piece.name.as_str().as_bytes();
    let field = name_field(alloc, name)?;
    Ok(Part {
        name: field,
        unique: uuid_of(disk, name),
        sectors: sectors_of(piece.size),
    })
}

// The partitions in order.
fn parts_of(alloc: Global, disk: &Guid, pieces: &[Piece]) -> Result<Vec<Part>, Memory>
    requires { AllByRecursion IsPiece pieces.now }
    ensures { IfOk result (λ v. v.items ≡ map (part_of disk.now) pieces.now) }
{
    let mut parts = Vec::new(alloc);
    for piece in pieces {
        parts.push(part_of(alloc, disk, piece)?)?;
    }
    Ok(parts)
}

// The partition table.
fn table_of(alloc: Global, out: &str, pieces: &[Piece]) -> Result<GptImage, Memory>
    requires each { AllByRecursion IsPiece pieces.now }
    requires fit { unfit_kind pieces.now ≡ None }
    ensures head { IfOk result
        (λ i. i.head.items ≡ head_bytes (disk_of out.now) (parts_of out.now pieces.now)) }
    ensures tail { IfOk result
        (λ i. i.tail.items ≡ tail_bytes (disk_of out.now) (parts_of out.now pieces.now)) }
    ensures sectors { IfOk result (λ i. i.sectors ≡ total (parts_of out.now pieces.now)) }
    ensures table { OnOk result (HasTable out.now pieces.now) }
    ensures low { IfOk result (λ i. 80 ≤ i.sectors) }
    ensures high { IfOk result (λ i. i.sectors ≤ 2 ^ 30) }
{
    let disk = uuid_of(&Guid([0; 16]), out.as_bytes());
    let parts = parts_of(alloc, &disk, pieces)?;
    match write_gpt(alloc, disk, &parts) {
        Ok(image) => Ok(image),
        Err(_) => Err(Memory),
    }
}

// A component of the table's ends.
fn end_component(alloc: Global, path: &str, offset: u64) -> Result<Component, Memory>
    ensures { IfOk result (λ c. placed c ≡ end_component path.now offset) }
{
    Ok(Component {
        path: String::from_str(alloc, path)?,
        offset,
        write: false,
    })
}

// A piece's component.
fn component_of(alloc: Global, first: u64, piece: &Piece) -> Result<Component, Memory>
    requires { first ≤ 2 ^ 30 }
    ensures { IfOk result
        (λ c. placed c
        ≡ record { path = piece.now.file; offset = 512 * first; write = piece.now.write }) }
{
    Ok(Component {
        path: copied(alloc, &piece.file)?.into_string(),
        offset: 512 * first,
        write: piece.write,
    })
}

// Adds the pieces' components, one behind the other.
fn put_components(
    alloc: Global,
    pieces: &[Piece],
    components: &mut Vec<Component>,
) -> Result<(), Memory>
    requires each { AllByRecursion IsPiece pieces.now }
    requires few { length pieces.now ≤ 128 }
    ensures { OnOk result
        (map placed components.new.items
        ≡ map placed components.old.items ++ placed_from 40 pieces.now) }
{
    let mut first = 40;
    for piece in pieces {
        components.push(component_of(alloc, first, piece)?)?;
        first += sectors_of(piece.size);
    }
    Ok(())
}

// The description of a disk of so many sectors.
fn spec_of(
    alloc: Global,
    head_name: &str,
    tail_name: &str,
    pieces: &[Piece],
    sectors: u64,
) -> Result<Spec, Memory>
    requires each { AllByRecursion IsPiece pieces.now }
    requires few { length pieces.now ≤ 128 }
    requires low { 80 ≤ sectors }
    requires high { sectors ≤ 2 ^ 30 }
    ensures { IfOk result (λ s. composite s ≡ record {
      components = end_component head_name.now 0 ∷ (placed_from 40 pieces.now ++ end_component tail_name.now (512 * (sectors - 40)) ∷ []);
      length = 512 * sectors;
    }) }
{
    let mut components = Vec::new(alloc);
    components.push(end_component(alloc, head_name, 0)?)?;
    put_components(alloc, pieces, &mut components)?;
    components.push(end_component(alloc, tail_name, 512 * (sectors - 40))?)?;
    Ok(Spec {
        components,
        length: 512 * sectors,
    })
}

// A name with an ending.
fn ended(alloc: Global, name: &str, ending: &str) -> Result<String, Memory>
    ensures { IfOk result (λ s. string_bytes s ≡ name.now ++ ending.now) }
{
    let mut whole = String::from_str(alloc, name)?;
    whole.push_str(ending)?;
    Ok(whole)
}

/// The composite disk of pieces, which is to be stored under this name. It has no file yet.
pub(crate) fn compose(alloc: Global, out: &str, pieces: &[Piece]) -> Result<Disk, Memory>
    requires out { length out.now ≤ 250 }
    requires each { AllByRecursion IsPiece pieces.now }
    requires fit { unfit_kind pieces.now ≡ None }
    ensures text { IfOk result
        (λ d. d.text.items ≡ file_bytes (composite_of out.now pieces.now)) }
    ensures head { IfOk result
        (λ d. d.head.items ≡ head_bytes (disk_of out.now) (parts_of out.now pieces.now)) }
    ensures head_name { IfOk result (λ d. string_bytes d.head_name ≡ head_name out.now) }
    ensures tail { IfOk result
        (λ d. d.tail.items ≡ tail_bytes (disk_of out.now) (parts_of out.now pieces.now)) }
    ensures tail_name { IfOk result (λ d. string_bytes d.tail_name ≡ tail_name out.now) }
    ensures described { OnOk result (IsDescribed out.now pieces.now) }
    ensures table { OnOk result (HasTable out.now pieces.now) }
{
    let table = table_of(alloc, out, pieces)?;
    let head_name = ended(alloc, out, ".head")?;
    let tail_name = ended(alloc, out, ".tail")?;
    let spec = spec_of(
        alloc,
        head_name.as_str(),
        tail_name.as_str(),
        pieces,
        table.sectors,
    )?;
    let mut text = Vec::new(alloc);
    write_spec(&spec, &mut text)?;
    Ok(Disk {
        text,
        head: table.head,
        head_name,
        tail: table.tail,
        tail_name,
    })
}
