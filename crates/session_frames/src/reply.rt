// The frames of replies.
ghost use Rattle.std.specs.Prelude.{◌≡◌, ◌+◌, ◌≤◌, ◌<◌, ℕ, List, [], ◌∷◌, ◌++◌, length, OnOk, OnErr};
ghost use Rattle.std.specs.Int.{w32, to_le_bytes};
ghost use Rattle.std.specs.Io.KnownBytes.{Appends};
ghost use Rattle.host_traits.specs.Streams.{SomePrefix, HasCause};
ghost use Rattle.fuse_codec.specs.Sent.{unique_of, answer_of};
ghost use Rattle.session_frames.specs.Replies.{sent_answer, sent_of, reply_frame};

use fuse_codec::{FuseReply, encode_reply, reply_len};
use host_traits::{Failed, Sink};
use sealed_record::OpenedText;
use verity_path::Served;

/// A reply.
#[derive(Drop)]
pub enum ReplyFrame {
    /// Channel 0: the reply to a message.
    Fuse(FuseReply),
    /// Channel 1: code 0, and the bytes that are served.
    Bytes,
    /// Channel 2: code 0, and the text of a record, which was opened.
    Text(OpenedText),
    /// A code without bytes.
    Code { channel: u8, code: u32 },
}

// The first twelve bytes of a reply: its payload's length, its channel and its code.
fn head(channel: u8, len: u32, code: u32) -> [u8; 12]
    ensures { result ≡ (to_le_bytes w32 len ++ channel ∷ 0 ∷ 0 ∷ 0 ∷ to_le_bytes w32 code) }
{
    let [a, b, c, d] = len.to_le_bytes();
    let [e, f, g, h] = code.to_le_bytes();
    [a, b, c, d, channel, 0, 0, 0, e, f, g, h]
}

// The first eight bytes of a reply to a message: its length and channel 0.
fn message_head(len: u32) -> [u8; 8]
    ensures { result ≡ (to_le_bytes w32 len ++ 0 ∷ 0 ∷ 0 ∷ 0 ∷ []) }
{
    let [a, b, c, d] = len.to_le_bytes();
    [a, b, c, d, 0, 0, 0, 0]
}

// Writes the frame of a reply to a message.
fn write_message<K: Sink>(reply: &FuseReply, served: &Served, sink: &mut K) -> Result<(), Failed>
    ensures ok { OnOk result
        (Appends (K.holds sink.old) (K.holds sink.new)
        (reply_frame (sent_answer (unique_of reply.now) (answer_of reply.now served.now)))) }
    ensures err { OnErr result
        (SomePrefix (K.holds sink.old) (K.holds sink.new)
        (reply_frame (sent_answer (unique_of reply.now) (answer_of reply.now served.now)))) }
    ensures cause { HasCause (K.faults sink.old) (K.faults sink.new) result }
{
    let front = message_head(reply_len(reply, served));
    match sink.write_all(&front) {
        Ok(()) => {}
        Err(failed) => return Err(failed),
    }
    encode_reply(reply, served, sink)
}

// Writes two pieces, one after the other.
fn send<K: Sink>(first: &[u8], second: &[u8], sink: &mut K) -> Result<(), Failed>
    ensures ok { OnOk result
        (Appends (K.holds sink.old) (K.holds sink.new) (first.now ++ second.now)) }
    ensures err { OnErr result
        (SomePrefix (K.holds sink.old) (K.holds sink.new) (first.now ++ second.now)) }
    ensures cause { HasCause (K.faults sink.old) (K.faults sink.new) result }
{
    match sink.write_all(first) {
        Ok(()) => {}
        Err(failed) => return Err(failed),
    }
    sink.write_all(second)
}

/// Writes the frame of a reply. After `Failed` a front part of it was written. It takes no memory.
pub fn write_frame<K: Sink>(frame: &ReplyFrame, served: &Served, sink: &mut K) -> Result<(), Failed>
    ensures ok { OnOk result
        (Appends (K.holds sink.old) (K.holds sink.new)
        (reply_frame (sent_of frame.now served.now))) }
    ensures err { OnErr result
        (SomePrefix (K.holds sink.old) (K.holds sink.new)
        (reply_frame (sent_of frame.now served.now))) }
    ensures cause { HasCause (K.faults sink.old) (K.faults sink.new) result }
{
    match frame {
        ReplyFrame::Fuse(reply) => write_message(reply, served, sink),
        ReplyFrame::Bytes => {
            let bytes = served.bytes();
            let front = head(1, 4 + bytes.len() as u32, 0);
            send(&front, bytes, sink)
        }
        ReplyFrame::Text(text) => {
            let bytes = text.bytes();
            let front = head(2, 4 + bytes.len() as u32, 0);
            send(&front, bytes, sink)
        }
        ReplyFrame::Code { channel, code } => {
            let short = head(*channel, 4, *code);
            sink.write_all(&short)
        }
    }
}
