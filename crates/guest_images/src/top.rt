// The top call.
ghost use Rattle.std.specs.Prelude.{◌≡◌, ◌≤◌, ℕ, List, map, string_bytes};
ghost use Rattle.host_traits.specs.Told.{Rose};
ghost use Rattle.guest_images.specs.Loads.{FileCause};
ghost use Rattle.guest_images.specs.Made.{Makes, Mkguest};
ghost use Rattle.guest_images.specs.Measuring.{folder_run, log_run};
ghost use Rattle.guest_images.specs.Words.{wish_of};

use crate::imaging::make_image;
use crate::making::make_disk;
use crate::measuring::{measure_file, sign_file};
use crate::status::{Status, write_end};
use crate::words::{Request, request_of};
use host_traits::{Folder, Sink};
use std::alloc::Global;

// What the words ask for, before the end line.
fn make<F: Folder, L: Sink>(alloc: Global, words: &[String], folder: &mut F, log: &mut L) -> Status
    ensures makes { Makes (wish_of (map string_bytes words.now))
        (folder_run (F.files folder.old) (F.files folder.new) (F.last_failed folder.new))
        (log_run (L.holds log.old) (L.holds log.new)) result }
    ensures file { FileCause (F.faults folder.old) (F.faults folder.new)
        (F.last_failed folder.new) result }
    ensures write { result ≡ Status.WriteFault → Rose (L.faults log.old) (L.faults log.new) }
    ensures log { L.faults log.old ≤ L.faults log.new }
{
    let request = match request_of(words) {
        Ok(request) => request,
        Err(status) => return status,
    };
    match &request {
        Request::Idsig { file, salt, out } => sign_file(alloc, file, *salt, out, folder),
        Request::Measure { file, salt } => measure_file(alloc, file, *salt, folder, log),
        Request::Composite { list, out } => make_disk(alloc, list, out, folder),
        Request::Instance { list, out } => make_image(alloc, list, out, folder),
    }
}

/// Makes what the words ask for, from the files of the folder. `idsig FILE SALT OUT` stores the idsig of FILE under OUT.
/// `measure FILE SALT` writes the lines `measure BLOCKS SALT ROOT` and `digest DIGEST` to the log. `composite LIST OUT` stores the
/// composite disk of a list's parts: its description under OUT, and the two ends of its partition table under OUT.head and
/// OUT.tail. `instance LIST OUT` stores the instance image (version 1) of a list's partitions, all of them empty, under OUT. A
/// status other than 0 and 6 writes one end line to the log; a fault of that makes the status 6. With a status other than 0, 3, 6
/// and 10 no file changed.
pub fn mkguest<F: Folder, L: Sink>(
    alloc: Global,
    words: &[String],
    folder: &mut F,
    log: &mut L,
) -> Status
    ensures made { Mkguest (wish_of (map string_bytes words.now))
        (folder_run (F.files folder.old) (F.files folder.new) (F.last_failed folder.new))
        (log_run (L.holds log.old) (L.holds log.new)) result }
    ensures file { FileCause (F.faults folder.old) (F.faults folder.new)
        (F.last_failed folder.new) result }
    ensures write { result ≡ Status.WriteFault → Rose (L.faults log.old) (L.faults log.new) }
{
    let status = make(alloc, words, folder, log);
    match write_end(&status, log) {
        Ok(()) => status,
        Err(_) => Status::WriteFault,
    }
}
