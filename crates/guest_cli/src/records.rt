// Gets and puts of records.
ghost use Rattle.std.specs.Prelude.{◌≡◌, ◌≤◌, ℕ, List, take, drop, length, Some, None, Ok};
ghost use Rattle.session_frames.specs.Replies.{sent_if};
ghost use Rattle.guest_rules.specs.Machine.{request_of};
ghost use Rattle.guest_rules.specs.RecordRow.{get_cause, put_code, put_cause};
ghost use Rattle.guest_rules.specs.Step.{Stepped};
ghost use Rattle.guest_rules.specs.Faithful.{RequestIsServed};
ghost use Rattle.guest_cli.specs.Turns.{framed};
ghost use Rattle.guest_cli.specs.Works.{get_reply};

use crate::engine::{Engine, FrameAnswer};
use host_traits::Host;
use instance_image::{GetFault, Image, PutFault};
use mg_base::Guid;
use sealed_record::OpenedText;
use session_frames::ReplyFrame;
use std::alloc::Global;
use verity_path::Cause;

/// The instance image, and the secret of its records.
#[derive(Drop)]
pub struct Records {
    pub(crate) image: Image,
    pub(crate) secret: [u8; 32],
}

// The UUID that a payload begins with.
fn uuid_of(payload: &[u8]) -> Guid
    requires { 16 ≤ length payload.now }
    ensures { result.0 ≡ take 16 payload.now }
{
    let mut uuid = [0; 16];
    uuid.copy_from_slice(&payload[..16]);
    Guid(uuid)
}

// A reply by its code alone.
fn code(channel: u8, code: u32, cause: Option<Cause>) -> FrameAnswer
    ensures { result ≡ record { reply = Some (ReplyFrame.Code channel code); cause = cause } }
{
    FrameAnswer {
        reply: Some(ReplyFrame::Code { channel, code }),
        cause,
    }
}

// The answer to a get that ended so. The right tag isn't told.
fn get_answer(done: Result<OpenedText, GetFault>) -> FrameAnswer
    ensures { result ≡ record { reply = Some (get_reply done); cause = get_cause done } }
{
    match done {
        Ok(text) => FrameAnswer {
            reply: Some(ReplyFrame::Text(text)),
            cause: None,
        },
        Err(GetFault::NoRecord) => code(2, 2, None),
        Err(GetFault::Failed { faults }) => code(2, 5, Some(Cause::Failed { faults })),
        Err(GetFault::Short { asked, got }) => code(2, 5, Some(Cause::Short { asked, got })),
        Err(GetFault::Changed { sector }) => code(2, 5, Some(Cause::Changed { sector })),
        Err(GetFault::Tag(tag)) => {
            let found = tag.found;
            code(2, 5, Some(Cause::Tag { found }))
        }
        Err(GetFault::Memory) => code(2, 12, None),
    }
}

// The answer to a put that ended so.
fn put_answer(done: Result<(), PutFault>) -> FrameAnswer
    ensures { result ≡ record
        { reply = Some (ReplyFrame.Code 3 (put_code done)); cause = put_cause done } }
{
    match done {
        Ok(()) => code(3, 0, None),
        Err(PutFault::NoRecord) => code(3, 2, None),
        Err(PutFault::TooLarge { .. }) => code(3, 27, None),
        Err(PutFault::Memory) => code(3, 12, None),
        Err(PutFault::Failed { faults }) => code(3, 5, Some(Cause::Failed { faults })),
    }
}

/// A get of the record of a UUID, as one step of the machine.
pub(crate) fn answer_get<H: Host>(
    alloc: Global,
    engine: &mut Engine,
    host: &mut H,
    payload: &[u8],
) -> FrameAnswer
    requires { length payload.now ≡ 16 }
    ensures setting { engine.new.setting ≡ engine.old.setting }
    ensures step { Stepped engine.old.setting engine.old.state engine.new.state
        (H.told host.old) (H.told host.new)
        (framed 2 payload.now) (sent_if result.reply engine.new.served) result.cause }
    ensures served { RequestIsServed engine.old.setting engine.old.state
        (request_of (framed 2 payload.now)) (H.told host.old) (H.told host.new)
        (sent_if result.reply engine.new.served) result.cause }
{
    let uuid = uuid_of(payload);
    let Some(records) = &engine.records else {
        return code(2, 2, None);
    };
    let done = records
        .image
        .get(alloc, host, &records.secret, &uuid, &mut engine.buf.raw);
    get_answer(done)
}

/// A put of a text into the record of a UUID, as one step of the machine.
pub(crate) fn answer_put<H: Host>(
    alloc: Global,
    engine: &mut Engine,
    host: &mut H,
    payload: &[u8],
) -> FrameAnswer
    requires { 16 ≤ length payload.now }
    ensures setting { engine.new.setting ≡ engine.old.setting }
    ensures step { Stepped engine.old.setting engine.old.state engine.new.state
        (H.told host.old) (H.told host.new)
        (framed 3 payload.now) (sent_if result.reply engine.new.served) result.cause }
    ensures served { RequestIsServed engine.old.setting engine.old.state
        (request_of (framed 3 payload.now)) (H.told host.old) (H.told host.new)
        (sent_if result.reply engine.new.served) result.cause }
{
    let uuid = uuid_of(payload);
    let text = &payload[16..];
    let Some(records) = &mut engine.records else {
        return code(3, 2, None);
    };
    match records.image.fits(&uuid, text.len() as u64) {
        Ok(()) => {}
        Err(fault) => return put_answer(Err(fault)),
    }
    let Some(nonce) = engine.entropy.nonce() else {
        return code(3, 200, None);
    };
    let done = records
        .image
        .put(alloc, host, &records.secret, &uuid, &nonce, text);
    put_answer(done)
}
