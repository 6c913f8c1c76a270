// What stands outside of a run, read: files, and the plan.
ghost use Rattle.std.specs.Prelude.{◌≡◌, ◌≤◌, ◌+◌, ◌^◌, ℕ, List, IfOk, IfErr};
ghost use Rattle.guest_files.specs.Files.{IsLoaded};
ghost use Rattle.guest_cli.specs.Booted.{boot_status};
ghost use Rattle.guest_cli.specs.Outside.{status_of, refused};
ghost use Rattle.guest_cli.specs.Loads.{LoadFault, InputsCause, Planned};

use crate::boot::first_unbuilt;
use crate::session::SessionEnd;
use crate::status::{Form, Status};
use guest_boot::{BootCause, BootFault};
use guest_files::{Refusal, load_file};
use guest_plan::{Plan, PlanFault, read_plan};
use host_traits::Folder;
use std::alloc::Global;

// The status of a session that ended so.
pub(crate) fn made_status(ended: Result<(), SessionEnd>) -> Status
    ensures { result ≡ status_of ended }
{
    match ended {
        Ok(()) => Status::Done,
        Err(SessionEnd::Read) => Status::ReadFault,
        Err(SessionEnd::Write) => Status::WriteFault,
        Err(SessionEnd::BadFrame { at }) => Status::BadFrame { at },
        Err(SessionEnd::TooMuch) => Status::TooMuch,
    }
}

// The status of a fault of boot.
pub(crate) fn boot_status(fault: BootFault) -> Status
    ensures { result ≡ boot_status fault }
{
    match fault.why {
        BootCause::Memory => Status::Memory,
        _ => Status::BootFault(fault),
    }
}

// The status of a file that was refused.
pub(crate) fn refused(refusal: Refusal) -> Status
    ensures { result ≡ refused refusal }
{
    match refusal {
        Refusal::File { name } => Status::FileFault { name },
        Refusal::Line { line, kind } => Status::StoreFault { line, kind },
        Refusal::TooMuch => Status::TooMuch,
        Refusal::Memory => Status::Memory,
    }
}

// Loads a file within the limits.
pub(crate) fn load<F: Folder>(
    alloc: Global,
    folder: &mut F,
    name: &str,
    loaded: &mut u64,
) -> Result<Vec<u8>, Status>
    requires { loaded.old ≤ 2 ^ 31 }
    ensures files { F.files folder.new ≡ F.files folder.old }
    ensures ok { IfOk result
        (λ v. IsLoaded (F.files folder.old) name.now loaded.old loaded.new v.items) }
    ensures err { IfErr result (LoadFault (F.files folder.old) name.now loaded.old) }
    ensures cause { InputsCause (F.faults folder.old) (F.faults folder.new)
        (F.last_failed folder.new) result }
{
    match load_file(alloc, folder, name, loaded) {
        Ok(bytes) => Ok(bytes),
        Err(refusal) => Err(refused(refusal)),
    }
}

// The plan of a text, which asks for nothing that isn't served yet.
pub(crate) fn planned(alloc: Global, text: &[u8]) -> Result<Plan, Status>
    ensures { Planned text.now result }
{
    let plan = match read_plan(alloc, text) {
        Ok(plan) => plan,
        Err(PlanFault::At { line, kind }) => return Err(Status::PlanFault { line, kind }),
        Err(PlanFault::Memory) => return Err(Status::Memory),
    };
    match first_unbuilt(&plan) {
        Some(at) => Err(Status::Unbuilt {
            form: Form::Plan,
            at,
        }),
        None => Ok(plan),
    }
}
