// All of an input.
ghost use Rattle.std.specs.Prelude.{◌≡◌, ◌⊎◌, IfErr, IfOk};
ghost use Rattle.host_traits.specs.Told.{Rose};
ghost use Rattle.frame_text.specs.Programs.{IsAll};
ghost use Rattle.frame_text.specs.declared.status.Status.TheVariants.{Memory, Read};

use crate::status::Status;
use host_traits::Source;
use std::alloc::Global;

/// All bytes that a source has left.
pub(crate) fn read_all<S: Source>(alloc: Global, source: &mut S) -> Result<Vec<u8>, Status>
    ensures all { IfOk result
        (λ bytes. IsAll (S.left source.old) (S.left source.new) bytes.items) }
    ensures cause { IfErr result (λ e. (e ≡ Memory) ⊎ ((e ≡ Read)
        × Rose (S.faults source.old) (S.faults source.new))) }
{
    let mut bytes = Vec::new(alloc);
    let mut piece = [0; 4096];
    for _ in 0..u64::MAX {
        let count = match source.read(&mut piece) {
            Ok(count) => count,
            Err(_) => return Err(Status::Read),
        };
        if count == 0 {
            return Ok(bytes);
        }
        match bytes.extend_from_slice(&piece[..count]) {
            Ok(()) => {}
            Err(_) => return Err(Status::Memory),
        }
    }
    Err(Status::Memory)
}
