// What a store list says.
use mg_base::Salt;
use text_lines::Name;

/// One line of a store list: what the host then has, or what is kept after the session.
#[derive(Drop)]
pub enum StoreLine {
    /// A disk of a file's bytes.
    Disk { n: u32, file: Name },
    /// A disk by a composite file.
    Composite { n: u32, file: Name },
    /// A file of these bytes, with its tree and descriptor.
    Verity { n: u32, file: Name, salt: Salt },
    /// An empty writable file.
    Empty { n: u32 },
    /// An empty writable directory.
    Dir { n: u32 },
    /// The disk's bytes are stored under this name.
    KeepDisk { n: u32, file: Name },
    /// The file's bytes are stored under this name.
    KeepFile { n: u32, file: Name },
}

/// A whole store list, its lines in order: line `i` of them has the number `i + 2` in the text.
#[derive(Drop)]
pub struct Store {
    pub lines: Vec<StoreLine>,
}
