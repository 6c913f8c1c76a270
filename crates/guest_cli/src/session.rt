// Frames, one after another, from a stream that comes in pieces.
ghost use Rattle.std.specs.Prelude.{◌≡◌, ◌≤◌, ◌<◌, ◌+◌, ◌^◌, ℕ, List, [], length, OnOk, OnErr, ◌⊎◌};
ghost use Rattle.std.specs.Io.KnownBytes.{Appends};
ghost use Rattle.host_traits.specs.Streams.{SomePrefix, HasCause};
ghost use Rattle.host_traits.specs.Told.{Rose};
ghost use Rattle.session_frames.specs.Frames.{IsPayload, Fronts, IsCutOff};
ghost use Rattle.session_frames.specs.Replies.{sent_if, reply_frame};
ghost use Rattle.guest_rules.specs.Machine.{Turn};
ghost use Rattle.guest_rules.specs.Run.{Runs, log_line};
ghost use Rattle.guest_cli.specs.Turns.{TurnOutcome};
ghost use Rattle.guest_cli.specs.Session.{HeldOutcome, PieceOutcome, IsSession, end_of};

use crate::engine::{Engine, answer_frame};
use crate::log::cause_line;
use host_traits::{Failed, Host, Sink, Source};
use session_frames::{Next, ReplyFrame, Splitter, write_frame};
use std::alloc::Global;
use verity_path::{Cause, Served};

/// The most bytes that a session reads or hears.
pub const LIMIT: u64 = 1_073_741_824;

/// Why a session ended before its input did.
#[derive(Clone, Copy, Debug, PartialEq, Eq, Drop)]
pub enum SessionEnd {
    /// The source failed.
    Read,
    /// A sink failed.
    Write,
    /// At this offset of the stream no frame begins, or the stream ends inside one.
    BadFrame { at: u64 },
    /// More than 2^30 bytes came, or at least so many were heard before a frame was answered.
    TooMuch,
}

// Why the frames at the front were not all answered.
#[derive(Clone, Copy, Debug, PartialEq, Eq, Drop)]
enum Stop {
    Bad,
    Write,
    TooMuch,
}

// Writes the line of a cause, where there is one, of a reply.
fn write_line<L: Sink>(
    at: u64,
    reply: &Option<ReplyFrame>,
    cause: &Option<Cause>,
    log: &mut L,
) -> Result<(), Failed>
    ensures ok { (served : List ℕ) → OnOk result (Appends (L.holds log.old) (L.holds log.new)
        (log_line at (sent_if reply.now served) cause.now)) }
    ensures err { (served : List ℕ) → OnErr result (SomePrefix (L.holds log.old) (L.holds log.new)
        (log_line at (sent_if reply.now served) cause.now)) }
    ensures cause { HasCause (L.faults log.old) (L.faults log.new) result }
{
    match cause {
        Some(cause) => {
            let line = cause_line(at, reply, cause);
            log.write_all(line.bytes())
        }
        None => Ok(()),
    }
}

// Writes the frame of a reply, where there is one.
fn write_reply<K: Sink>(
    reply: &Option<ReplyFrame>,
    served: &Served,
    out: &mut K,
) -> Result<(), Failed>
    ensures ok { OnOk result
        (Appends (K.holds out.old) (K.holds out.new) (reply_frame (sent_if reply.now served.now))) }
    ensures err { OnErr result
        (SomePrefix (K.holds out.old) (K.holds out.new)
        (reply_frame (sent_if reply.now served.now))) }
    ensures cause { HasCause (K.faults out.old) (K.faults out.new) result }
{
    match reply {
        Some(reply) => write_frame(reply, served, out),
        None => Ok(()),
    }
}

// Answers one frame: its line of the log first, then its reply.
fn turn<H: Host, K: Sink, L: Sink>(
    alloc: Global,
    engine: &mut Engine,
    host: &mut H,
    channel: u8,
    payload: &[u8],
    at: u64,
    out: &mut K,
    log: &mut L,
) -> Result<(), Failed>
    requires { IsPayload channel (length payload.now) }
    ensures setting { engine.new.setting ≡ engine.old.setting }
    ensures turn { TurnOutcome engine.old.setting engine.old.state engine.new.state
        (H.told host.old) (H.told host.new) at
        (K.holds out.old) (K.holds out.new) (L.holds log.old) (L.holds log.new)
        channel payload.now result }
    ensures out { K.faults out.old ≤ K.faults out.new }
    ensures log { L.faults log.old ≤ L.faults log.new }
    ensures cause { OnErr result
        (Rose (K.faults out.old) (K.faults out.new) ⊎ Rose (L.faults log.old) (L.faults log.new)) }
{
    let answer = answer_frame(alloc, engine, host, channel, payload);
    match write_line(at, &answer.reply, &answer.cause, log) {
        Ok(()) => {}
        Err(failed) => return Err(failed),
    }
    write_reply(&answer.reply, engine.served(), out)
}

// Answers each whole frame at the front.
fn answer_held<H: Host, K: Sink, L: Sink>(
    alloc: Global,
    engine: &mut Engine,
    host: &mut H,
    splitter: &mut Splitter,
    out: &mut K,
    log: &mut L,
) -> Result<(), Stop>
    requires { splitter.old.at + length splitter.old.held < 2 ^ 64 }
    ensures setting { engine.new.setting ≡ engine.old.setting }
    ensures held { HeldOutcome engine.old.setting engine.old.state engine.new.state
        (H.told host.old) (H.told host.new) (K.holds out.old) (K.holds out.new) (L.holds log.old) (L.holds log.new)
        splitter.old splitter.new result }
    ensures out { K.faults out.old ≤ K.faults out.new }
    ensures log { L.faults log.old ≤ L.faults log.new }
    ensures cause { result ≡ Err Stop.Write → Rose (K.faults out.old) (K.faults out.new) ⊎ Rose
        (L.faults log.old) (L.faults log.new) }
{
    loop {
        let (channel, payload) = match splitter.next() {
            Next::Frame { channel, payload } => (channel, payload),
            Next::More => return Ok(()),
            Next::Bad => return Err(Stop::Bad),
        };
        if host.heard_bytes() >= LIMIT {
            return Err(Stop::TooMuch);
        }
        match turn(
            alloc,
            engine,
            host,
            channel,
            payload,
            splitter.at(),
            out,
            log,
        ) {
            Ok(()) => {}
            Err(_) => return Err(Stop::Write),
        }
        splitter.done();
    }
}

// Answers each frame that is whole with the next piece.
fn answer_piece<H: Host, K: Sink, L: Sink>(
    alloc: Global,
    engine: &mut Engine,
    host: &mut H,
    splitter: &mut Splitter,
    piece: &[u8],
    out: &mut K,
    log: &mut L,
) -> Result<(), Stop>
    requires at { splitter.old.at + (length splitter.old.held + length piece.now) < 2 ^ 64 }
    requires cut { IsCutOff splitter.old.held }
    ensures setting { engine.new.setting ≡ engine.old.setting }
    ensures piece { PieceOutcome engine.old.setting engine.old.state engine.new.state
        (H.told host.old) (H.told host.new) (K.holds out.old) (K.holds out.new) (L.holds log.old)
        (L.holds log.new) splitter.old piece.now splitter.new result }
    ensures out { K.faults out.old ≤ K.faults out.new }
    ensures log { L.faults log.old ≤ L.faults log.new }
    ensures cause { result ≡ Err Stop.Write → Rose (K.faults out.old) (K.faults out.new) ⊎ Rose
        (L.faults log.old) (L.faults log.new) }
{
    let mut left = piece;
    while left.len() > 0 {
        let taken = splitter.feed(left);
        left = &left[taken..];
        match answer_held(alloc, engine, host, splitter, out, log) {
            Ok(()) => {}
            Err(stop) => return Err(stop),
        }
    }
    Ok(())
}

// What a stop at this offset ends the session with.
fn ended(stop: Stop, at: u64) -> SessionEnd
    ensures { result ≡ end_of stop at }
{
    match stop {
        Stop::Bad => SessionEnd::BadFrame { at },
        Stop::Write => SessionEnd::Write,
        Stop::TooMuch => SessionEnd::TooMuch,
    }
}

/// Reads a stream and answers each of its frames, in order, the line of the log before the reply. It takes at least one byte
/// of the stream a turn, and ends when the input does, at a frame's border, or before that for the reason that it gives.
/// Replies and log don't depend on the pieces in which the stream comes. It does work linear in the stream, and takes memory for
/// records alone.
pub fn session<H: Host, S: Source, K: Sink, L: Sink>(
    alloc: Global,
    engine: &mut Engine,
    splitter: &mut Splitter,
    host: &mut H,
    input: &mut S,
    out: &mut K,
    log: &mut L,
) -> Result<(), SessionEnd>
    requires { splitter.old ≡ record { held = []; at = 0 } }
    ensures setting { engine.new.setting ≡ engine.old.setting }
    ensures run { IsSession
        (Runs engine.old.setting engine.old.state engine.new.state (H.told host.old)
        (H.told host.new))
        (H.told host.new)
        (record { input = S.left input.old; out = K.holds out.old; log = L.holds log.old })
        (record { input = S.left input.new; out = K.holds out.new; log = L.holds log.new }) result }
    ensures read { result ≡ Err SessionEnd.Read → Rose (S.faults input.old) (S.faults input.new) }
    ensures write { result ≡ Err SessionEnd.Write → Rose (K.faults out.old) (K.faults out.new) ⊎
        Rose (L.faults log.old) (L.faults log.new) }
    ensures out { K.faults out.old ≤ K.faults out.new }
    ensures log { L.faults log.old ≤ L.faults log.new }
{
    let mut room = [0; 4096];
    let mut total = 0u64;
    for turn in 0..LIMIT + 1 {
        let got = match input.read(&mut room) {
            Ok(got) => got,
            Err(_) => return Err(SessionEnd::Read),
        };
        if got == 0 {
            if splitter.len() == 0 {
                return Ok(());
            }
            let at = splitter.at();
            return Err(SessionEnd::BadFrame { at });
        }
        let within = (LIMIT - total).min(got as u64) as usize;
        match answer_piece(alloc, engine, host, splitter, &room[..within], out, log) {
            Ok(()) => {}
            Err(stop) => return Err(ended(stop, splitter.at())),
        }
        if within < got {
            return Err(SessionEnd::TooMuch);
        }
        total += within as u64;
    }
    unreachable!()
}
