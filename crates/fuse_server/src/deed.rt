// What a message comes to before any call of the host.
use authfs_dirs::Listing;
use fuse_codec::{Attr, EntryOut, InitOut};
use ro_file::RoFile;

/// The file of a node: a read-only one, or a writable one by its number.
#[derive(Drop)]
pub(crate) enum Behind {
    Measured(RoFile),
    Written(u32),
}

/// What is answered, or the work on a file that answers.
#[derive(Drop)]
pub(crate) enum Deed<'a> {
    Silent,
    Empty,
    Entry(EntryOut),
    Attr(Attr),
    Opened(u64),
    Statfs,
    Init(InitOut),
    Names(Listing),
    NoneWritten,
    Read(Reading),
    Load(Loading),
    Store(Storing<'a>),
    Cut(Cutting),
    Sync(u32),
}

/// A read of a read-only file.
#[derive(Drop)]
pub(crate) struct Reading {
    pub(crate) file: RoFile,
    pub(crate) offset: u64,
    pub(crate) size: u32,
}

/// A read of the writable file of a number.
#[derive(Drop)]
pub(crate) struct Loading {
    pub(crate) number: u32,
    pub(crate) offset: u64,
    pub(crate) size: u32,
}

/// A write to the writable file of a number.
#[derive(Drop)]
pub(crate) struct Storing<'a> {
    pub(crate) number: u32,
    pub(crate) offset: u64,
    pub(crate) bytes: &'a [u8],
}

/// Another size of the writable file of a number, which is that of a node.
#[derive(Drop)]
pub(crate) struct Cutting {
    pub(crate) number: u32,
    pub(crate) node: u64,
    pub(crate) size: u64,
}
