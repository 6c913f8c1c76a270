// Files by name.
ghost use Rattle.std.specs.Prelude.{◌≡◌, ◌≤◌, ◌<◌, ◌+◌, ◌^◌, List, ℕ, IfOk, vec_len};
ghost use Rattle.std.specs.declared.option.Option.{Option};
ghost use Rattle.host_traits.specs.Folders.{Errand, load_of, store_of, Files, Loaded, PartLoaded, Stored, HasErrand};

use std::alloc::Global;

/// Why a folder did not do what it was called for.
#[derive(Clone, Copy, Debug, PartialEq, Eq, Drop)]
pub enum FolderError {
    /// The file isn't there, or can't be read or written. The folder's count of faults rose, and
    /// this call is its last that failed.
    Failed,
    /// Out of memory, for the bytes or for a copy of the name. The last call that failed stays.
    Memory,
}

/// What a call of a folder gives.
pub type FolderResult<T> = Result<T, FolderError>;

/// A call of a folder, by the name of its file.
#[derive(Drop)]
pub enum FolderCall {
    /// The file, or a part of it, was loaded.
    Load(String),
    /// The file was stored.
    Store(String),
}

/// Files by name. A name is any text. It keeps its count of faults and the last call that failed
/// itself.
pub trait Folder {
    /// The files, where they are known.
    ghost files: { Self → Option Files };

    /// How often it failed.
    ghost faults: { Self → ℕ };

    /// The last call that failed.
    ghost last_failed: { Self → Option Errand };

    /// The first `max + 1` bytes of a file, or all where it has fewer: so a file of more than `max`
    /// bytes shows by the length of what is given. It fails for a name that isn't there, and
    /// changes no file.
    fn load(&mut self, alloc: Global, name: &str, max: u64) -> FolderResult<Vec<u8>>
        requires { max < 2 ^ 63 }
        ensures files { files self.new ≡ files self.old }
        ensures loaded { Loaded (files self.old) name.now max result }
        ensures cause { HasErrand (load_of name.now) (faults self.old) (faults self.new)
            (last_failed self.old) (last_failed self.new) result };

    /// The bytes of a file from byte `at` on, at most `max` of them: fewer say that the file ends
    /// there, none that it has no byte at `at`. It fails for a name that isn't there, and changes
    /// no file. This body loads the whole front of the file: a folder that can read from any place
    /// has one of its own.
    fn load_part(&mut self, alloc: Global, name: &str, at: u64, max: u64) -> FolderResult<Vec<u8>>
        requires { at + max < 2 ^ 63 }
        ensures files { files self.new ≡ files self.old }
        ensures loaded { PartLoaded (files self.old) name.now at max result }
        ensures few { IfOk result (λ part. vec_len part ≤ max) }
        ensures cause { HasErrand (load_of name.now) (faults self.old) (faults self.new)
            (last_failed self.old) (last_failed self.new) result }
    {
        let front = match self.load(alloc, name, at + max) {
            Ok(front) => front,
            Err(error) => return Err(error),
        };
        let from = at.min(front.len() as u64);
        let end = (at + max).min(front.len() as u64);
        match Vec::from_slice(alloc, &front[from as usize..end as usize]) {
            Ok(part) => Ok(part),
            Err(_) => Err(FolderError::Memory),
        }
    }

    /// Makes a file of these bytes, or puts them in the place of those of the file of that name.
    /// After an error the file is as before, absent where it was absent, or holds the new bytes. No
    /// other file changes.
    fn store(&mut self, alloc: Global, name: &str, bytes: &[u8]) -> FolderResult<()>
        ensures stored { Stored (files self.old) (files self.new) name.now bytes.now result }
        ensures cause { HasErrand (store_of name.now) (faults self.old) (faults self.new)
            (last_failed self.old) (last_failed self.new) result };
}
