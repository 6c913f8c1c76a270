// The work of one frame.
ghost use Rattle.std.specs.Prelude.{◌≡◌, ◌≤◌, ◌<◌, ◌+◌, ◌*◌, ℕ, List, [], false, length, take, drop, slice_get};
ghost use Rattle.std.specs.Int.{w32, w64, from_le_bytes};
ghost use Rattle.session_frames.specs.Frames.{IsPayload};
ghost use Rattle.session_frames.specs.Replies.{sent_if};
ghost use Rattle.guest_rules.specs.Machine.{AreItems, item_read, request_of};
ghost use Rattle.guest_rules.specs.Step.{Stepped};
ghost use Rattle.guest_rules.specs.Faithful.{RequestIsServed};
ghost use Rattle.guest_cli.specs.Turns.{framed};
ghost use Rattle.guest_cli.specs.Works.{answer_to_read, message_frame, instance_of, parts_of};

use crate::records::{Records, answer_get, answer_put};
use fuse_codec::FuseReply;
use fuse_server::Server;
use guest_boot::Entropy;
use host_traits::Host;
use session_frames::ReplyFrame;
use std::alloc::Global;
use std::marker::Model;
use verity_path::{Buffers, Cause, Device, Served, WalkFault, read_range};

/// What the frames of a session work on: made by `boot` alone.
#[derive(Drop)]
pub struct Engine {
    items: Vec<Device>,
    server: Server,
    pub(crate) records: Option<Records>,
    pub(crate) entropy: Entropy,
    served: Served,
    pub(crate) buf: Buffers,
}

impl Model for Engine {
    ghost use Rattle.guest_rules.specs.Machine.{AreItems};
    ghost use Rattle.guest_cli.specs.Works.{Works, instance_of, parts_of};

    ghost Value = { Works };

    ghost use Rattle.std.specs.Coded.{codes};
    ghost use Rattle.std.specs.FinMap as table;

    ghost coded = { Prim.hlevel (codes, table.code) };

    ghost view = { λ e. record {
      setting = record { items = e.items.items; image = instance_of e.records };
      state = record { fuse = e.server; entropy = e.entropy; parts = parts_of e.records };
      served = e.served;
    } };

    ghost invariant = { λ e. AreItems e.items.items };
}

/// A reply, where there is one, and why it is a failure.
#[derive(Drop)]
pub struct FrameAnswer {
    pub reply: Option<ReplyFrame>,
    pub cause: Option<Cause>,
}

// A read of a measured item, as its payload says it.
#[derive(Clone, Copy, Drop)]
struct ItemQuestion {
    item: u32,
    offset: u64,
    size: u32,
}

// The item, offset and size of a payload, little-endian.
fn parse(payload: &[u8]) -> ItemQuestion
    requires { length payload.now ≡ 16 }
    ensures item { result.item ≡ (item_read payload.now).item }
    ensures offset { result.offset ≡ (item_read payload.now).offset }
    ensures size { result.size ≡ (item_read payload.now).size }
{
    let mut item = [0; 4];
    item.copy_from_slice(&payload[..4]);
    let mut offset = [0; 8];
    offset.copy_from_slice(&payload[4..12]);
    let mut size = [0; 4];
    size.copy_from_slice(&payload[12..16]);
    ItemQuestion {
        item: u32::from_le_bytes(item),
        offset: u64::from_le_bytes(offset),
        size: u32::from_le_bytes(size),
    }
}

// A reply of channel 1 by its code alone.
fn code(code: u32, cause: Option<Cause>) -> FrameAnswer
    ensures { result ≡ record { reply = Some (ReplyFrame.Code 1 code); cause = cause } }
{
    FrameAnswer {
        reply: Some(ReplyFrame::Code { channel: 1, code }),
        cause,
    }
}

// The answer to a read that ended so.
fn read_answer(done: Result<(), WalkFault>) -> FrameAnswer
    ensures { result ≡ answer_to_read done }
{
    match done {
        Ok(()) => FrameAnswer {
            reply: Some(ReplyFrame::Bytes),
            cause: None,
        },
        Err(WalkFault::Mismatch(mismatch)) => code(5, Some(Cause::Mismatch(mismatch))),
        Err(WalkFault::Short { asked, got }) => code(5, Some(Cause::Short { asked, got })),
        Err(WalkFault::Failed { faults }) => code(5, Some(Cause::Failed { faults })),
        Err(WalkFault::Memory) => code(12, None),
    }
}

// The frame of a reply to a message.
fn message_frame(reply: Option<FuseReply>) -> Option<ReplyFrame>
    ensures { result ≡ message_frame reply }
{
    match reply {
        Some(reply) => Some(ReplyFrame::Fuse(reply)),
        None => None,
    }
}

impl Engine {
    // An engine of these devices, this server and these records.
    pub(crate) fn new(
        items: Vec<Device>,
        server: Server,
        records: Option<Records>,
        entropy: Entropy,
        served: Served,
        buf: Buffers,
    ) -> Engine
        requires { AreItems items.items }
        ensures { result ≡ record {
          setting = record { items = items.items; image = instance_of records };
          state = record { fuse = server; entropy = entropy; parts = parts_of records };
          served = served;
        } }
    {
        Engine {
            items,
            server,
            records,
            entropy,
            served,
            buf,
        }
    }

    /// The bytes that a reply `Bytes`, or one to a READ, sends.
    pub fn served(&self) -> &Served
        ensures { result.now ≡ self.now.served }
    {
        &self.served
    }
}

// A read of a measured item, as one step of the machine.
fn answer_read<H: Host>(engine: &mut Engine, host: &mut H, payload: &[u8]) -> FrameAnswer
    requires { length payload.now ≡ 16 }
    ensures setting { engine.new.setting ≡ engine.old.setting }
    ensures step { Stepped engine.old.setting engine.old.state engine.new.state
        (H.told host.old) (H.told host.new)
        (framed 1 payload.now) (sent_if result.reply engine.new.served) result.cause }
    ensures served { RequestIsServed engine.old.setting engine.old.state
        (request_of (framed 1 payload.now)) (H.told host.old) (H.told host.new)
        (sent_if result.reply engine.new.served) result.cause }
{
    let question = parse(payload);
    if question.item as usize >= engine.items.len() {
        return code(2, None);
    }
    if question.size > 131072 {
        return code(22, None);
    }
    let it = &engine.items[question.item as usize];
    engine.served.clear();
    let done = read_range(
        host,
        it,
        4096 * it.measure.blocks,
        question.offset,
        question.size,
        &mut engine.buf.raw,
        &mut engine.buf.page,
        &mut engine.served,
    );
    read_answer(done)
}

// A message of FUSE, as one step of the machine.
fn answer_message<H: Host>(engine: &mut Engine, host: &mut H, message: &[u8]) -> FrameAnswer
    requires { 40 ≤ length message.now }
    ensures setting { engine.new.setting ≡ engine.old.setting }
    ensures step { Stepped engine.old.setting engine.old.state engine.new.state
        (H.told host.old) (H.told host.new)
        (framed 0 message.now) (sent_if result.reply engine.new.served) result.cause }
    ensures served { RequestIsServed engine.old.setting engine.old.state
        (request_of (framed 0 message.now)) (H.told host.old) (H.told host.new)
        (sent_if result.reply engine.new.served) result.cause }
{
    let answer = engine
        .server
        .answer(host, message, &mut engine.buf, &mut engine.served);
    FrameAnswer {
        reply: message_frame(answer.reply),
        cause: answer.cause,
    }
}

/// The work of one frame: the reply, where there is one, and why it is a failure. A message of FUSE is answered as
/// `fuse_server` has it. A read of a measured item is answered with code 2 where there is no such item, else with 22 where its size
/// is above 131,072, else with the bytes, or with 5 or 12. A get of a record is answered with 2 where there is none, else with its
/// text, or with 5 or 12; a put with 2, 27 or 200, and else with 0, 5 or 12. Over a host that holds the item as it was measured, the
/// file of a READ, or the record, a read or a get in which no call fails is answered with the bytes or the text, or want of memory,
/// and so is each one over an honest host; a put likewise where the record may be written.
pub fn answer_frame<H: Host>(
    alloc: Global,
    engine: &mut Engine,
    host: &mut H,
    channel: u8,
    payload: &[u8],
) -> FrameAnswer
    requires { IsPayload channel (length payload.now) }
    ensures setting { engine.new.setting ≡ engine.old.setting }
    ensures step { Stepped engine.old.setting engine.old.state engine.new.state
        (H.told host.old) (H.told host.new)
        (framed channel payload.now) (sent_if result.reply engine.new.served) result.cause }
    ensures served { RequestIsServed engine.old.setting engine.old.state
        (request_of (framed channel payload.now)) (H.told host.old) (H.told host.new)
        (sent_if result.reply engine.new.served) result.cause }
{
    match channel {
        0 => answer_message(engine, host, payload),
        1 => answer_read(engine, host, payload),
        2 => answer_get(alloc, engine, host, payload),
        3 => answer_put(alloc, engine, host, payload),
        _ => unreachable!(),
    }
}
