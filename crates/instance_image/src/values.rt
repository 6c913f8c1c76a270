// An image that was opened, and its partitions.
use mg_base::Guid;
use std::marker::Model;

/// A partition of an image, as its header said.
#[derive(Clone, Copy, Drop)]
pub struct Part {
    pub uuid: Guid,
    /// The sector of its header, counted from the image's first.
    pub sector: u64,
    /// How many sectors are reserved for its payload, after the header.
    pub reserved: u32,
    /// How many bytes its payload has, 0 where it is empty.
    pub size: u64,
}

/// An image that was opened. Contracts see its disk, its first sector there, its salt and its
/// partitions in order.
#[derive(Drop)]
pub struct Image {
    pub(crate) disk: u32,
    pub(crate) first: u64,
    pub(crate) salt: [u8; 64],
    pub(crate) parts: Vec<Part>,
}

impl Model for Image {
    ghost use Rattle.instance_image.specs.Records.{IsLaid, Kept};

    ghost Value = { Kept };

    ghost view = { λ i.
        record { disk = i.disk; first = i.first; salt = i.salt; parts = i.parts.items } };

    ghost invariant = { λ i.
        IsLaid (record { disk = i.disk; first = i.first; salt = i.salt; parts = i.parts.items }) };
}
