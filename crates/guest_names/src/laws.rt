// Laws of what stands after boot.
ghost use Rattle.guest_names.specs.Promises.{FilesAreCounted, FilesAreOpened, WritablesAreEmpty, NamesAreFound, NoOtherName, BootsSound};

/// Boot opens one file for each `file` line; and each read-only file that stands after boot, at a number, is the host's of that
/// number, was opened by the digest of the plan's line by an answer that was heard, and can be read. Its contract is the law; it
/// does nothing.
pub fn files_are_opened()
    ensures count { FilesAreCounted }
    ensures files { FilesAreOpened }
{}

/// Each writable file that stands after boot is empty, at the number of its line. Its contract is the law; it does nothing.
pub fn writables_are_empty()
    ensures { WritablesAreEmpty }
{}

/// Each name of a plan's `file` and `write` lines is found in the root after boot, the first one as node 2, the next one as node 3,
/// and so on, a read-only or a writable file with the line's number; and no other name is found. Its contract is the law; it does nothing.
pub fn names_are_found()
    ensures found { NamesAreFound }
    ensures others { NoOtherName }
{}

/// The server that stands after boot is such as the laws of what it answers ask: each node is a directory that the host doesn't
/// have or a file that is there, writable files stand at their numbers, handles and nodes are tied, and the tree of names is sound.
/// Its contract is the law; it does nothing.
pub fn server_is_sound()
    ensures { BootsSound }
{}
