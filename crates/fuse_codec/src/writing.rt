// A reply, written to a sink.
ghost use Rattle.std.specs.Prelude.{◌≡◌, ◌≤◌, ◌+◌, ◌/◌, [], ◌++◌, length, Some};
ghost use Rattle.host_traits.specs.Streams.{HasCause};
ghost use Rattle.fuse_codec.specs.Reply.{attr_bytes, entry_bytes, opened_bytes, init_bytes, statfs_bytes};
ghost use Rattle.fuse_codec.specs.Sent.{unique_of, answered, sent};
ghost use Rattle.fuse_codec.specs.Pieces.{error_field, fixed_part, tail_of, sent_body, Writes};

use crate::reply::{Attr, EntryOut, FuseReply, InitOut};
use crate::room::Room;
use host_traits::{Failed, Sink};
use verity_path::Served;

// How many blocks of 512 bytes, the last one perhaps in part.
fn blocks_of(size: u64) -> u64
    ensures { result ≡ (size + 511) / 512 }
{
    size.div_ceil(512)
}

fn put_attr(room: &mut Room, attr: &Attr)
    requires { length room.old + 88 ≤ 160 }
    ensures value { room.new ≡ room.old ++ attr_bytes attr.now }
    ensures len { length room.new ≡ length room.old + 88 }
{
    room.put64(attr.ino);
    room.put64(attr.size);
    room.put64(blocks_of(attr.size));
    room.skip(36);
    room.put32(attr.mode);
    room.put32(1);
    room.skip(12);
    room.put32(4096);
    room.skip(4);
}

fn put_entry(room: &mut Room, entry: &EntryOut)
    requires { length room.old + 128 ≤ 160 }
    ensures value { room.new ≡ room.old ++ entry_bytes entry.now }
    ensures len { length room.new ≡ length room.old + 128 }
{
    room.put64(entry.node);
    room.skip(32);
    put_attr(room, &entry.attr);
}

fn put_opened(room: &mut Room, handle: u64)
    requires { length room.old + 16 ≤ 160 }
    ensures { room.new ≡ room.old ++ opened_bytes handle }
{
    room.put64(handle);
    room.skip(8);
}

fn put_init(room: &mut Room, init: &InitOut)
    requires { length room.old + 64 ≤ 160 }
    ensures { room.new ≡ room.old ++ init_bytes init.now }
{
    room.put32(init.major);
    room.put32(init.minor);
    room.put32(init.max_readahead);
    room.put32(init.flags);
    room.put16(init.max_background);
    room.put16(init.congestion_threshold);
    room.put32(init.max_write);
    room.put32(init.time_gran);
    room.skip(36);
}

fn put_statfs(room: &mut Room)
    requires { length room.old + 80 ≤ 160 }
    ensures { room.new ≡ room.old ++ statfs_bytes }
{
    room.put64(1_048_576);
    room.put64(1_048_576);
    room.put64(1_048_576);
    room.put64(65_536);
    room.put64(65_536);
    room.put32(4096);
    room.put32(255);
    room.put32(4096);
    room.skip(28);
}

// What stands behind the header, but for the bytes that are sent by themselves.
fn put_body(room: &mut Room, reply: &FuseReply)
    requires { length room.old + 144 ≤ 160 }
    ensures { room.new ≡ room.old ++ fixed_part reply.now }
{
    match reply {
        FuseReply::Entry { entry, .. } => put_entry(room, entry),
        FuseReply::Attr { attr, .. } => {
            room.skip(16);
            put_attr(room, attr);
        }
        FuseReply::Opened { handle, .. } => put_opened(room, *handle),
        FuseReply::Created { entry, handle, .. } => {
            put_entry(room, entry);
            put_opened(room, *handle);
        }
        FuseReply::Written { count, .. } => {
            room.put32(*count);
            room.skip(4);
        }
        FuseReply::Statfs { .. } => put_statfs(room),
        FuseReply::Init { init, .. } => put_init(room, init),
        _ => {}
    }
}

// The bytes that are sent by themselves.
fn tail_of<'a>(reply: &'a FuseReply, served: &'a Served) -> &'a [u8]
    ensures value { result.now ≡ tail_of reply.now served.now }
    ensures most { length (tail_of reply.now served.now) ≤ 131072 }
{
    match reply {
        FuseReply::Bytes { .. } => served.bytes(),
        FuseReply::Names { listing, .. } => listing.bytes(),
        _ => &[],
    }
}

// How many bytes stand behind the header.
#[tactic(auto, unfolding(crate::specs::Words::zeros, crate::specs::Reply::attr_bytes, crate::specs::Reply::init_bytes, crate::specs::Reply::statfs_bytes))]
fn body_len(reply: &FuseReply, served: &Served) -> u32
    ensures value { result ≡ length (sent_body reply.now served.now) }
    ensures most { result ≤ 131072 }
{
    match reply {
        FuseReply::Error { .. } => 0,
        FuseReply::Empty { .. } => 0,
        FuseReply::Entry { .. } => 128,
        FuseReply::Attr { .. } => 104,
        FuseReply::Opened { .. } => 16,
        FuseReply::Created { .. } => 144,
        FuseReply::Written { .. } => 8,
        FuseReply::Statfs { .. } => 80,
        FuseReply::Init { .. } => 64,
        FuseReply::Bytes { .. } => served.bytes().len() as u32,
        FuseReply::Names { listing, .. } => listing.bytes().len() as u32,
    }
}

/// How many bytes a reply has, its header of 16 among them: at most 131,088.
pub fn reply_len(reply: &FuseReply, served: &Served) -> u32
    ensures value { result ≡ length (sent reply.now served.now) }
    ensures most { result ≤ 131088 }
{
    16 + body_len(reply, served)
}

// The negative error number, as 32 bits, or 0.
fn error_field(reply: &FuseReply) -> u32
    ensures { result ≡ error_field reply.now }
{
    match reply {
        FuseReply::Error { errno, .. } => u32::MAX - errno.number() as u32 + 1,
        _ => 0,
    }
}

fn unique_of(reply: &FuseReply) -> u64
    ensures { result ≡ unique_of reply.now }
{
    match reply {
        FuseReply::Error { unique, .. } => *unique,
        FuseReply::Empty { unique } => *unique,
        FuseReply::Entry { unique, .. } => *unique,
        FuseReply::Attr { unique, .. } => *unique,
        FuseReply::Opened { unique, .. } => *unique,
        FuseReply::Created { unique, .. } => *unique,
        FuseReply::Written { unique, .. } => *unique,
        FuseReply::Statfs { unique } => *unique,
        FuseReply::Init { unique, .. } => *unique,
        FuseReply::Bytes { unique } => *unique,
        FuseReply::Names { unique, .. } => *unique,
    }
}

// All but the bytes that are sent by themselves.
fn put_reply(room: &mut Room, reply: &FuseReply, served: &Served)
    requires { room.old ≡ [] }
    ensures { room.new ++ tail_of reply.now served.now ≡ sent reply.now served.now }
{
    room.put32(16 + body_len(reply, served));
    room.put32(error_field(reply));
    room.put64(unique_of(reply));
    put_body(room, reply);
}

// Writes two pieces, the second only where there is one.
fn send<K: Sink>(first: &[u8], second: &[u8], sink: &mut K) -> Result<(), Failed>
    ensures writes { Writes (K.holds sink.old) (K.holds sink.new) (first.now ++ second.now) result }
    ensures cause { HasCause (K.faults sink.old) (K.faults sink.new) result }
{
    if second.is_empty() {
        return sink.write_all(first);
    }
    match sink.write_all(first) {
        Ok(()) => {}
        Err(failed) => return Err(failed),
    }
    sink.write_all(second)
}

/// Writes a reply (`fuse_out_header` and its body) by one write, or two where bytes are served or listed. After `Failed` a
/// prefix of it was written. It takes no memory.
pub fn encode_reply<K: Sink>(reply: &FuseReply, served: &Served, sink: &mut K) -> Result<(), Failed>
    ensures writes { Writes (K.holds sink.old) (K.holds sink.new)
        (sent reply.now served.now) result }
    ensures never_silent { answered reply.now served.now ≡ Some (sent reply.now served.now) }
    ensures cause { HasCause (K.faults sink.old) (K.faults sink.new) result }
{
    let mut room = Room::new();
    put_reply(&mut room, reply, served);
    send(room.bytes(), tail_of(reply, served), sink)
}
