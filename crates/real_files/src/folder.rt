// The files of the system as a folder.
ghost use Rattle.std.specs.Prelude.{◌≡◌, None, Ok, IfOk};
ghost use Rattle.std.specs.Option.{option_map};
ghost use Rattle.host_traits.specs.Folders.{HasErrand, errand_of};

use crate::loading::{read_file, read_part};
use crate::storing::store_file;
use host_traits::{Folder, FolderCall, FolderError, FolderResult};
use std::alloc::Global;
use std::fs::File;
use std::io::{self, ErrorKind};
use std::rt::Files;

/// Files by their paths, with the count of failures and the last call that failed. What the files hold isn't known.
#[derive(Drop)]
pub struct RealFolder<'a, R> {
    rt: &'a R,
    faults: u64,
    last: Option<FolderCall>,
    reason: Option<io::Error>,
}

impl<'a, R> RealFolder<'a, R> {
    /// No call failed yet.
    pub fn new(rt: &'a R) -> RealFolder<'a, R>
        ensures faults { result.faults ≡ 0 }
        ensures last { result.last ≡ None }
    {
        RealFolder {
            rt,
            faults: 0,
            last: None,
            reason: None,
        }
    }

    /// The name of the last call that failed, and the system's reason.
    pub fn failure(&self) -> Option<(&str, io::Error)> {
        match (&self.last, self.reason) {
            (Some(FolderCall::Load(name)), Some(reason)) => Some((name.as_str(), reason)),
            (Some(FolderCall::Store(name)), Some(reason)) => Some((name.as_str(), reason)),
            _ => None,
        }
    }

    // What a call answers that ended so: want of memory is no failure, all else is one.
    fn answer<T>(&mut self, call: FolderCall, ended: io::Result<T>) -> FolderResult<T>
        ensures value { IfOk result (λ done. ended ≡ Ok done) }
        ensures cause { HasErrand (errand_of call) self.old.faults self.new.faults
            (option_map errand_of self.old.last) (option_map errand_of self.new.last) result }
    {
        match ended {
            Ok(done) => Ok(done),
            Err(error) if error.kind() == ErrorKind::OutOfMemory => Err(FolderError::Memory),
            Err(error) => {
                self.faults = self.faults.saturating_add(1);
                self.last = Some(call);
                self.reason = Some(error);
                Err(FolderError::Failed)
            }
        }
    }
}

impl<R: Files<File = File>> Folder for RealFolder<'_, R> {
    ghost files = { λ f. None };

    ghost faults = { λ f. f.faults };

    ghost last_failed = { λ f. option_map errand_of f.last };

    fn load(&mut self, alloc: Global, name: &str, max: u64) -> FolderResult<Vec<u8>> {
        let Ok(copy) = String::from_str(alloc, name) else {
            return Err(FolderError::Memory);
        };
        let bytes = read_file(self.rt, alloc, name, max + 1);
        self.answer(FolderCall::Load(copy), bytes)
    }

    fn load_part(&mut self, alloc: Global, name: &str, at: u64, max: u64) -> FolderResult<Vec<u8>> {
        let Ok(copy) = String::from_str(alloc, name) else {
            return Err(FolderError::Memory);
        };
        let part = read_part(self.rt, alloc, name, at, max);
        self.answer(FolderCall::Load(copy), part)
    }

    fn store(&mut self, alloc: Global, name: &str, bytes: &[u8]) -> FolderResult<()> {
        let Ok(copy) = String::from_str(alloc, name) else {
            return Err(FolderError::Memory);
        };
        let stored = store_file(self.rt, alloc, name, bytes);
        self.answer(FolderCall::Store(copy), stored)
    }
}
