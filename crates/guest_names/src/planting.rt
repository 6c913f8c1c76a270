// From a plan's lines and opened files to a server.
ghost use Rattle.std.specs.Prelude.{◌≡◌, ◌≤◌, ◌<◌, ℕ, List, [], length, IfOk, IfSome, OnOk, IsTrue};
ghost use Rattle.authfs_dirs.specs.Names.{may_plant};
ghost use Rattle.guest_plan.specs.Plans.{known};
ghost use Rattle.guest_plan.specs.Spelling.{IsPlan};
ghost use Rattle.guest_names.specs.Standing.{file_in, files_in, read_count, at_boot};
ghost use Rattle.guest_names.specs.Planted.{planted_of, stood_after, with_line, ArePlantable};

use authfs_dirs::{Dirs, Kind};
use fuse_server::{Files, Server, Writables};
use guest_plan::{Plan, PlanLine};
use mg_base::Memory;
use ro_file::RoFile;
use std::alloc::Global;

// Names and files, while they are put together; and how many of the opened files stand.
#[derive(Drop)]
struct Planting {
    dirs: Dirs,
    files: Files,
    writables: Writables,
    stood: usize,
}

// A line's name; and at its number the next opened file, or an empty one that is written. A line that names no file changes nothing.
fn plant_line(
    alloc: Global,
    to: &mut Planting,
    line: &PlanLine,
    opened: &[RoFile],
) -> Result<(), Memory>
    requires may { IfSome (file_in line.now) (λ f. IsTrue (may_plant to.old.dirs f.name)) }
    requires short { IfSome (file_in line.now) (λ f. length f.name ≤ 255) }
    requires within { IfSome (file_in line.now)
        (λ f. IfSome f.digest (λ d. to.old.stood < length opened.now)) }
    ensures { OnOk result (planted_of to.new ≡ with_line opened.now (planted_of to.old) line.now) }
{
    match line {
        PlanLine::File {
            name,
            file,
            digest: _,
        } => {
            let _node = to
                .dirs
                .plant(name.as_str().as_bytes(), Kind::ReadOnly { file: *file })?;
            to.files.add(*file, opened[to.stood])?;
            to.stood += 1;
            Ok(())
        }
        PlanLine::Write { name, file } => {
            let _node = to
                .dirs
                .plant(name.as_str().as_bytes(), Kind::Writable { file: *file })?;
            to.writables.add(alloc, *file)
        }
        PlanLine::Instance { .. }
        | PlanLine::Blob { .. }
        | PlanLine::Apk { .. }
        | PlanLine::WriteDir { .. } => Ok(()),
    }
}

// The lines in their order.
fn plant_all(
    alloc: Global,
    to: &mut Planting,
    lines: &[PlanLine],
    opened: &[RoFile],
) -> Result<(), Memory>
    requires plantable { ArePlantable (files_in lines.now) }
    requires opened { length opened.now ≡ read_count lines.now }
    requires first { planted_of to.old ≡ stood_after opened.now [] }
    ensures { OnOk result (planted_of to.new ≡ stood_after opened.now (files_in lines.now)) }
{
    for index in 0..lines.len() {
        plant_line(alloc, to, &lines[index], opened)?;
    }
    Ok(())
}

/// The server that stands after boot: the names of a plan's `file` and `write` lines are those of the root, in the lines' order, and
/// at the number that the line has stands behind a `file` line the file that was opened for it, behind a `write` line an empty one.
/// `opened` has one file for each `file` line, in their order. The only fault is want of memory.
pub fn plant_lines(alloc: Global, plan: &Plan, opened: &[RoFile]) -> Result<Server, Memory>
    requires plan { (text : List ℕ) × IsPlan text (known plan.now) }
    requires opened { length opened.now ≡ read_count plan.now.lines.items }
    ensures { IfOk result (λ s. s ≡ at_boot plan.now.lines.items opened.now) }
{
    let mut to = Planting {
        dirs: Dirs::new(alloc)?,
        files: Files::new(alloc),
        writables: Writables::new(alloc),
        stood: 0,
    };
    plant_all(alloc, &mut to, &plan.lines, opened)?;
    Ok(Server::new(alloc, to.dirs, to.files, to.writables))
}
