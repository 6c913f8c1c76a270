// The parts of a composite disk: a line of a list each, and how long its file is.
ghost use Rattle.std.specs.Prelude.{◌≡◌, ◌≤◌, ◌^◌, ℕ, List, length, IfOk, IfErr, OnOk};
ghost use Rattle.std.specs.List.{list_any, AllByRecursion};
ghost use Rattle.guest_images.specs.Composed.{InputsOutcome, Listed, PieceLoaded, PiecesFail, PiecesLoaded};
ghost use Rattle.guest_images.specs.Composing.{IsPiece, is_empty, is_uneven, piece_of, unfit_kind};
ghost use Rattle.guest_images.specs.Loads.{LoadFault, LoadsCause};
ghost use Rattle.guest_images.specs.Parts.{IsPartLine};

use crate::loading::load;
use crate::parts::{PartLine, read_parts};
use crate::status::{Status, UnfitKind};
use host_traits::Folder;
use mg_base::Memory;
use std::alloc::Global;
use text_lines::{Name, PlanFault};

/// A part of a composite disk.
#[derive(Drop)]
pub struct Piece {
    /// The partition's name.
    pub name: Name,
    /// Whether it may be written.
    pub write: bool,
    /// The name of its file in the folder.
    pub file: Name,
    /// How many bytes the file has.
    pub size: u64,
}

// The lines of a list's text.
fn listed(alloc: Global, text: &[u8]) -> Result<Vec<PartLine>, Status>
    ensures listed { Listed text.now result }
    ensures each { IfOk result (λ v. AllByRecursion IsPartLine v.items) }
{
    match read_parts(alloc, text) {
        Ok(lines) => Ok(lines),
        Err(PlanFault::At { line, kind }) => Err(Status::ListFault { line, kind }),
        Err(PlanFault::Memory) => Err(Status::Memory),
    }
}

// A copy of a name.
pub(crate) fn copied(alloc: Global, name: &Name) -> Result<Name, Memory>
    ensures { IfOk result (λ n. n ≡ name.now) }
{
    Ok(Name::new(String::from_str(alloc, name.as_str())?))
}

// A line's part, of a file of so many bytes.
fn piece_of(alloc: Global, line: &PartLine, size: u64) -> Result<Piece, Memory>
    ensures { IfOk result (λ p. p ≡ piece_of line.now size) }
{
    let name = copied(alloc, &line.name)?;
    let file = copied(alloc, &line.file)?;
    Ok(Piece {
        name,
        write: line.write,
        file,
        size,
    })
}

// Loads a line's file, and lets it go.
fn load_piece<F: Folder>(
    alloc: Global,
    folder: &mut F,
    line: &PartLine,
    loaded: &mut u64,
) -> Result<Piece, Status>
    requires { loaded.old ≤ 2 ^ 31 }
    ensures files { F.files folder.new ≡ F.files folder.old }
    ensures ok { IfOk result (PieceLoaded (F.files folder.old) line.now loaded.old loaded.new) }
    ensures limit { OnOk result (loaded.new ≤ 2 ^ 31) }
    ensures err { IfErr result (LoadFault (F.files folder.old) line.now.file loaded.old) }
    ensures cause { LoadsCause (F.faults folder.old) (F.faults folder.new)
        (F.last_failed folder.new) result }
{
    let size = match load(alloc, folder, line.file.as_str(), loaded) {
        Ok(bytes) => bytes.len() as u64,
        Err(status) => return Err(status),
    };
    match piece_of(alloc, line, size) {
        Ok(piece) => Ok(piece),
        Err(_) => Err(Status::Memory),
    }
}

// Loads the files of all lines in order.
fn load_pieces<F: Folder>(
    alloc: Global,
    folder: &mut F,
    lines: &[PartLine],
    loaded: &mut u64,
) -> Result<Vec<Piece>, Status>
    requires { loaded.old ≤ 2 ^ 31 }
    ensures files { F.files folder.new ≡ F.files folder.old }
    ensures ok { IfOk result
        (λ v. PiecesLoaded (F.files folder.old) lines.now loaded.old loaded.new v.items) }
    ensures err { IfErr result (PiecesFail (F.files folder.old) lines.now loaded.old) }
    ensures cause { LoadsCause (F.faults folder.old) (F.faults folder.new)
        (F.last_failed folder.new) result }
{
    let mut pieces = Vec::new(alloc);
    let mut index = 0;
    while index < lines.len() {
        match load_piece(alloc, folder, &lines[index], loaded) {
            Ok(piece) => match pieces.push(piece) {
                Ok(()) => {}
                Err(_) => return Err(Status::Memory),
            },
            Err(status) => return Err(status),
        }
        index += 1;
    }
    Ok(pieces)
}

/// Loads a list of parts, and then the files of its lines in order.
pub(crate) fn load_parts<F: Folder>(
    alloc: Global,
    folder: &mut F,
    list: &str,
) -> Result<Vec<Piece>, Status>
    ensures files { F.files folder.new ≡ F.files folder.old }
    ensures outcome { InputsOutcome (F.files folder.old) list.now result }
    ensures each { IfOk result (λ v. AllByRecursion IsPiece v.items) }
    ensures cause { LoadsCause (F.faults folder.old) (F.faults folder.new)
        (F.last_failed folder.new) result }
{
    let mut loaded = 0;
    let text = match load(alloc, folder, list, &mut loaded) {
        Ok(text) => text,
        Err(status) => return Err(status),
    };
    let lines = match listed(alloc, &text) {
        Ok(lines) => lines,
        Err(status) => return Err(status),
    };
    load_pieces(alloc, folder, &lines, &mut loaded)
}

fn is_empty(piece: &Piece) -> bool
    ensures { result ≡ is_empty piece.now }
{
    piece.size == 0
}

fn is_uneven(piece: &Piece) -> bool
    ensures { result ≡ is_uneven piece.now }
{
    piece.write && piece.size % 4096 != 0
}

fn any_empty(pieces: &[Piece]) -> bool
    ensures { result ≡ list_any is_empty pieces.now }
{
    for piece in pieces {
        if is_empty(piece) {
            return true;
        }
    }
    false
}

fn any_uneven(pieces: &[Piece]) -> bool
    ensures { result ≡ list_any is_uneven pieces.now }
{
    for piece in pieces {
        if is_uneven(piece) {
            return true;
        }
    }
    false
}

/// Why no disk can be made of the pieces: the first of the kinds in their order.
pub(crate) fn unfit_kind(pieces: &[Piece]) -> Option<UnfitKind>
    ensures { result ≡ unfit_kind pieces.now }
{
    if any_empty(pieces) {
        return Some(UnfitKind::Empty);
    }
    if any_uneven(pieces) {
        return Some(UnfitKind::Uneven);
    }
    if pieces.len() > 128 {
        return Some(UnfitKind::TooMany);
    }
    if pieces.is_empty() {
        return Some(UnfitKind::NoParts);
    }
    None
}
