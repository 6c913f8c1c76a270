// What a partition table says.
ghost use Rattle.std.specs.Prelude.{◌≡◌};

use mg_base::Guid;
use std::marker::Model;

/// One entry of the array (UEFI 2.10, table 5.6), used or not.
#[derive(Clone, Copy)]
pub struct Entry {
    /// The partition's type; zero where the entry isn't used.
    pub kind: Guid,
    /// The partition's own GUID.
    pub unique: Guid,
    /// The number of its first sector.
    pub first: u64,
    /// The number of its last sector.
    pub last: u64,
    pub attributes: u64,
    /// 36 units of UTF-16, little-endian, the name up to the first zero.
    pub name: [u8; 72],
}

/// The entries of a table. Contracts see their list.
#[derive(Drop)]
pub struct Entries {
    list: Vec<Entry>,
}

impl Model for Entries {
    ghost use Rattle.std.specs.Prelude.{List};
    ghost use Rattle.gpt.specs.declared.values.Entry.{Entry};

    ghost Value = { List Entry };

    ghost view = { λ e. e.list.items };
}

impl Entries {
    /// These entries. It takes no memory.
    pub fn new(list: Vec<Entry>) -> Entries
        ensures { result ≡ list.items }
    {
        Entries { list }
    }

    /// The entries.
    pub fn as_slice(&self) -> &[Entry]
        ensures { result.now ≡ self.now }
    {
        self.list.as_slice()
    }

    /// The entries, given back. It takes no memory.
    pub fn into_vec(self) -> Vec<Entry>
        ensures { result.items ≡ self }
    {
        self.list
    }
}

/// A partition table: the disk's GUID, and all entries, used or not.
#[derive(Drop)]
pub struct Table {
    pub disk: Guid,
    pub entries: Entries,
}
