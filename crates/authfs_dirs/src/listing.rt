// The listing of a directory.
ghost use Rattle.std.specs.Prelude.{◌≡◌, ◌<◌, ◌≤◌, ◌+◌, ◌-◌, ◌^◌, ◌++◌, IfOk, OnOk, IfSome, [], length, replicate};
ghost use Rattle.std.specs.Option.{option_map};
ghost use Rattle.std.specs.Int.{w32, w64, to_le_bytes};
ghost use Rattle.authfs_dirs.specs.Dirents.{padding, dirent_bytes, kind_number};
ghost use Rattle.authfs_dirs.specs.Lines.{dirent_by, line_in, Lists, StartsAt, PutsWhole, PutsAt};
ghost use Rattle.authfs_dirs.specs.Inodes.{seen};
ghost use Rattle.std.specs.FinMap as table;

use crate::inode::Inode;
use crate::nodes::Nodes;
use mg_base::Memory;
use std::marker::Model;

/// The entries of a directory as READDIR replies them, at most 131,072 bytes. Contracts see the bytes.
#[derive(Drop)]
pub struct Listing {
    bytes: Vec<u8>,
}

impl Model for Listing {
    ghost use Rattle.std.specs.Prelude.{List, ℕ, length, ◌≤◌};

    ghost Value = { List ℕ };

    ghost view = { λ a. a.bytes.items };

    ghost invariant = { λ a. length a.bytes.items ≤ 131072 };
}

impl Listing {
    pub(crate) fn new(bytes: Vec<u8>) -> Listing
        requires { length bytes.items ≤ 131072 }
        ensures { result ≡ bytes.items }
    {
        Listing { bytes }
    }

    /// The bytes, at most 131,072.
    pub fn bytes(&self) -> &[u8]
        ensures value { result.now ≡ self.now }
        ensures len { length self.now ≤ 131072 }
    {
        self.bytes.as_slice()
    }
}

/// An entry of a listing.
#[derive(Clone, Copy, Drop)]
pub(crate) struct Line<'a> {
    pub(crate) node: u64,
    pub(crate) cookie: u64,
    pub(crate) kind: u32,
    pub(crate) name: &'a [u8],
}

fn put(out: &mut Vec<u8>, piece: &[u8]) -> Result<(), Memory>
    ensures { OnOk result (out.new.items ≡ out.old.items ++ piece.now) }
{
    out.extend_from_slice(piece)?;
    Ok(())
}

fn put_u32(out: &mut Vec<u8>, number: u32) -> Result<(), Memory>
    ensures { OnOk result (out.new.items ≡ out.old.items ++ to_le_bytes w32 number) }
{
    put(out, &number.to_le_bytes())
}

fn put_u64(out: &mut Vec<u8>, number: u64) -> Result<(), Memory>
    ensures { OnOk result (out.new.items ≡ out.old.items ++ to_le_bytes w64 number) }
{
    put(out, &number.to_le_bytes())
}

// The zeros after a name of so many bytes.
fn padding(len: usize) -> usize
    ensures value { result ≡ padding len }
    ensures few { result < 8 }
{
    (8 - len % 8) % 8
}

fn put_zeros(out: &mut Vec<u8>, count: usize) -> Result<(), Memory>
    requires { count < 8 }
    ensures { OnOk result (out.new.items ≡ out.old.items ++ replicate count 0) }
{
    let len = out.len() + count;
    out.resize(len, 0)?;
    Ok(())
}

// The numbers and the name.
#[tactic(auto, unfolding(crate::specs::Dirents::dirent_bytes))]
fn put_line(out: &mut Vec<u8>, line: &Line<'_>) -> Result<(), Memory>
    requires { length line.now.name.now ≤ 255 }
    ensures { OnOk result (out.new.items ≡ out.old.items ++ dirent_bytes (dirent_by line.now)) }
{
    put_u64(out, line.node)?;
    put_u64(out, line.cookie)?;
    put_u32(out, line.name.len() as u32)?;
    put_u32(out, line.kind)?;
    put(out, line.name)?;
    put_zeros(out, padding(line.name.len()))
}

// An entry, where it is whole in so many bytes.
fn put_whole(out: &mut Vec<u8>, size: usize, line: &Line<'_>) -> Result<bool, Memory>
    requires short { length line.now.name.now ≤ 255 }
    requires within { length out.old.items ≤ size }
    ensures { IfOk result (PutsWhole line.now size out.old.items out.new.items) }
{
    let len = line.name.len();
    if 24 + len + padding(len) > size - out.len() {
        return Ok(false);
    }
    match put_line(out, line) {
        Ok(()) => Ok(true),
        Err(_) => Err(Memory),
    }
}

// DT_DIR or DT_REG.
fn kind_number(nodes: &Nodes, node: u64) -> u32
    ensures { result ≡ kind_number (table.get (seen nodes.now.entries) node) }
{
    match nodes.get(&node) {
        Some(inode) => { if inode.kind.is_dir() { 4 } else { 8 } }
        None => 8,
    }
}

// A line of a directory: `.`, `..` and then the names; None where a name was removed.
#[tactic(auto, unfolding(crate::specs::Lines::lines))]
fn line_at<'a>(nodes: &'a Nodes, number: u64, inode: &'a Inode, place: usize) -> Option<Line<'a>>
    ensures at { option_map dirent_by result ≡ line_in nodes.now.entries number inode.now place }
    ensures short { IfSome result (λ l. length l.name.now ≤ 255) }
{
    if place == 0 {
        return Some(Line {
            node: number,
            cookie: 1,
            kind: 4,
            name: b".",
        });
    }
    if place == 1 {
        return Some(Line {
            node: inode.parent.unwrap_or(number),
            cookie: 2,
            kind: 4,
            name: b"..",
        });
    }
    match inode.names.at(place - 2) {
        Some(named) => Some(Line {
            node: named.node,
            cookie: named.cookie,
            kind: kind_number(nodes, named.node),
            name: named.name,
        }),
        None => None,
    }
}

// The places of the lines with a cookie above this one.
fn places(inode: &Inode, cookie: u64) -> (usize, usize)
    ensures start { StartsAt cookie inode.now result.0 }
    ensures end { result.1 ≡ length inode.now.names.slots + 2 }
    ensures order { result.0 ≤ result.1 }
    ensures small { result.1 < 2 ^ 64 - 1 }
{
    let place = inode.names.place_after(cookie);
    let end = inode.names.rows() + 2;
    if cookie == 0 {
        return (0, end);
    }
    if cookie == 1 {
        return (1, end);
    }
    (place + 2, end)
}

// The line at a place, where it is whole in what is left of so many bytes.
fn put_place(
    out: &mut Vec<u8>,
    size: usize,
    nodes: &Nodes,
    number: u64,
    inode: &Inode,
    place: usize,
) -> Result<bool, Memory>
    requires within { length out.old.items ≤ size }
    ensures { IfOk result (PutsAt nodes.now.entries number inode.now size place out.old out.new) }
{
    match line_at(nodes, number, inode, place) {
        Some(line) => match put_whole(out, size, &line) {
            Ok(fits) => Ok(fits),
            Err(_) => Err(Memory),
        },
        None => Ok(true),
    }
}

/// The entries with a cookie above this one, as many as are whole in so many bytes.
pub(crate) fn put_all(
    out: &mut Vec<u8>,
    size: usize,
    nodes: &Nodes,
    number: u64,
    inode: &Inode,
    cookie: u64,
) -> Result<(), Memory>
    requires empty { out.old.items ≡ [] }
    ensures all { OnOk result (Lists nodes.now.entries number inode.now cookie size out.new.items) }
    ensures bound { OnOk result (length out.new.items ≤ size) }
{
    let (start, end) = places(inode, cookie);
    for place in start..end {
        match put_place(out, size, nodes, number, inode, place) {
            Ok(true) => {}
            Ok(false) => return Ok(()),
            Err(_) => return Err(Memory),
        }
    }
    Ok(())
}
