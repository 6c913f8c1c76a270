// What a server is made of.
use crate::files::Files;
use authfs_dirs::Dirs;
use authfs_files::Handles;
use rw_file::RwFile;
use rw_leaves::Leaves;
use std::collections::BTreeMap;

/// Whether INIT was answered, names and nodes, open handles, the read-only files, and the writable ones by their numbers.
#[derive(Drop)]
pub(crate) struct Parts {
    pub(crate) ready: bool,
    pub(crate) dirs: Dirs,
    pub(crate) handles: Handles,
    pub(crate) files: Files,
    pub(crate) writables: BTreeMap<u32, RwFile<Leaves>>,
}
