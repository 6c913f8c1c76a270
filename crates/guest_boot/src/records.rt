// The measure that a record keeps.
ghost use Rattle.std.specs.Prelude.{◌≡◌, ◌≤◌, length, Some, IfOk, IfSome};
ghost use Rattle.host_traits.specs.Did.{Did, DidBy};
ghost use Rattle.instance_image.specs.Access.{IsGetCall};
ghost use Rattle.guest_plan.specs.Spelling.{IsDevice};
ghost use Rattle.guest_boot.specs.Recording.{get_cause, put_cause, IsEmpty, MeasureOutcome, ReadsOrWrites, measure_writings, KeepOutcome};

use crate::entropy::Entropy;
use crate::faults::BootCause;
use guest_plan::{measure_text, read_measure};
use host_traits::{Host, Raw};
use instance_image::{GetFault, Image, PutFault};
use mg_base::Guid;
use sha_tree::Measure;
use std::alloc::Global;

// The cause of a record that was not got. Want of memory is boot's own.
fn get_cause(fault: GetFault) -> BootCause
    ensures { result ≡ get_cause fault }
{
    match fault {
        GetFault::Memory => BootCause::Memory,
        _ => BootCause::Get(fault),
    }
}

// The cause of a record that was not put.
fn put_cause(fault: PutFault) -> BootCause
    ensures { result ≡ put_cause fault }
{
    match fault {
        PutFault::Memory => BootCause::Memory,
        _ => BootCause::Put(fault),
    }
}

// The measure that the record of a UUID keeps: none where it is empty, and then nothing is asked.
pub(crate) fn got_measure<H: Host>(
    alloc: Global,
    host: &mut H,
    image: &Image,
    secret: &[u8; 32],
    uuid: &Guid,
    raw: &mut Raw,
) -> Result<Option<Measure>, BootCause>
    ensures did { Did (IsGetCall image.now uuid.now.0) 1 (H.told host.old) (H.told host.new)
        (MeasureOutcome image.now secret.now uuid.now.0 result) }
    ensures device { IfOk result (λ o. IfSome o IsDevice) }
{
    let Some(size) = image.size_of(uuid) else {
        return Err(BootCause::Get(GetFault::NoRecord));
    };
    if size == 0 {
        return Ok(None);
    }
    let text = match image.get(alloc, host, secret, uuid, raw) {
        Ok(text) => text,
        Err(fault) => return Err(get_cause(fault)),
    };
    match read_measure(text.bytes()) {
        Some(measure) => Ok(Some(measure)),
        None => Err(BootCause::MeasureText),
    }
}

// Puts a measure into the empty record of a UUID, sealed under the next 12 bytes of entropy.
pub(crate) fn keep_measure<H: Host>(
    alloc: Global,
    host: &mut H,
    image: &mut Image,
    entropy: &mut Entropy,
    secret: &[u8; 32],
    uuid: &Guid,
    measure: &Measure,
) -> Result<(), BootCause>
    requires { IsEmpty image.old uuid.now.0 }
    ensures { DidBy (ReadsOrWrites (λ call. ⊥)
        (measure_writings image.old secret.now uuid.now.0 entropy.old measure.now)) 1
        (H.told host.old) (H.told host.new) (KeepOutcome image.old uuid.now.0 entropy.old
        measure.now image.new entropy.new result) }
{
    let text = measure_text(measure);
    match image.fits(uuid, text.bytes().len() as u64) {
        Ok(()) => {}
        Err(fault) => return Err(put_cause(fault)),
    }
    let left = entropy.left();
    let Some(nonce) = entropy.nonce() else {
        return Err(BootCause::NoEntropy { left });
    };
    match image.put(alloc, host, secret, uuid, &nonce, text.bytes()) {
        Ok(()) => Ok(()),
        Err(fault) => Err(put_cause(fault)),
    }
}
