// The host that the lines ask. None where a line is none of these, and out of memory.
use crate::calls::call;
use crate::shown;
use crate::stocking::stock;
use crate::words::{bytes, bytes_of, word};
use host_bent::{Bend, Bent};
use host_mem::MemHost;
use host_rec::Recorder;
use host_tape::{Tape, TapeFault, read_tape, write_tape};
use host_traits::{Answer, Host, Raw, TapeItem};
use std::alloc::Global;

/// The host that the lines ask.
#[derive(Drop)]
pub(crate) enum Stage {
    Memory(MemHost),
    Bent(Bent),
    Tape(Tape),
    Recorder(Recorder<Tape>),
    /// The bytes of a tape were refused from this place on.
    Refused(u64),
}

// How an answer is bent: `fail`, or `number`, `bytes` or `flip` with a value.
fn bend_of(alloc: Global, kind: &str, value: &str) -> Option<Bend> {
    match kind {
        "fail" => Some(Bend::Fail),
        "number" => Some(Bend::Number(value.parse::<u64>().ok()?)),
        "bytes" => Some(Bend::Bytes(bytes_of(alloc, value)?)),
        "flip" => Some(Bend::Flip {
            byte: value.parse::<u64>().ok()?,
        }),
        _ => None,
    }
}

// One bend: `CALL=KIND:VALUE`.
fn bend(alloc: Global, word: &str) -> Option<(u64, Bend)> {
    let (call, bend) = word.split_once('=')?;
    let (kind, value) = bend.split_once(':')?;
    Some((call.parse::<u64>().ok()?, bend_of(alloc, kind, value)?))
}

// The bends of a line.
fn bends(alloc: Global, words: &[&str]) -> Option<Vec<(u64, Bend)>> {
    let mut bends = Vec::new(alloc);
    for word in words.iter().skip(1) {
        bends.push(bend(alloc, word)?).ok()?;
    }
    Some(bends)
}

// One record: `KIND:VALUE`.
fn item(alloc: Global, word: &str) -> Option<TapeItem> {
    let (kind, value) = word.split_once(':')?;
    match kind {
        "failed" => Some(TapeItem::Failed),
        "done" => Some(TapeItem::Done),
        "number" => Some(TapeItem::Number(value.parse::<u64>().ok()?)),
        "bytes" => Some(TapeItem::Bytes(Answer::new(bytes_of(alloc, value)?)?)),
        _ => None,
    }
}

// The bytes of a tape of the records of a line.
fn write(alloc: Global, words: &[&str]) -> Option<String> {
    let mut items = Vec::new(alloc);
    for word in words.iter().skip(1) {
        items.push(item(alloc, word)?).ok()?;
    }
    let mut out = Vec::new(alloc);
    write_tape(&items, &mut out).ok()?;
    shown::bytes(alloc, out.as_slice())
}

fn tape(alloc: Global, words: &[&str]) -> Option<Stage> {
    match read_tape(alloc, bytes(alloc, words, 1)?) {
        Ok(tape) => Some(Stage::Tape(tape)),
        Err(TapeFault::At { at }) => Some(Stage::Refused(at)),
        Err(TapeFault::Memory) => None,
    }
}

// The tape that a recorder writes, and how often the host behind it failed.
fn written(alloc: Global, host: &Recorder<Tape>) -> Option<String> {
    let tape = host.tape().ok()?;
    if tape.as_slice() != host.text() {
        return None;
    }
    let tape = shown::bytes(alloc, tape.as_slice())?;
    let behind = host.host().faults();
    format!(in alloc; "{tape} behind {behind}").ok()
}

impl Stage {
    pub(crate) fn new(alloc: Global) -> Stage {
        Stage::Memory(MemHost::new(alloc))
    }

    // This host bent, or recorded.
    fn round(self, alloc: Global, words: &[&str], name: &str) -> Option<Stage> {
        match self {
            Stage::Memory(host) if name == "bent" => {
                Some(Stage::Bent(Bent::new(host, bends(alloc, words)?)))
            }
            Stage::Tape(tape) if name == "recorder" => {
                Some(Stage::Recorder(Recorder::new(alloc, tape)))
            }
            _ => None,
        }
    }

    /// The host that a line makes: a new one, or one round this.
    pub(crate) fn after(self, alloc: Global, words: &[&str]) -> Option<Stage> {
        let name = word(words, 0)?;
        match name {
            "memory" => Some(Stage::new(alloc)),
            "tape" => tape(alloc, words),
            "bent" | "recorder" => self.round(alloc, words, name),
            _ => Some(self),
        }
    }

    fn ask(&mut self, alloc: Global, raw: &mut Raw, words: &[&str]) -> Option<String> {
        match self {
            Stage::Memory(host) => match stock(alloc, host, words)? {
                Some(answer) => Some(answer),
                None => call(alloc, host, raw, words),
            },
            Stage::Bent(host) => call(alloc, host, raw, words),
            Stage::Tape(host) => call(alloc, host, raw, words),
            Stage::Recorder(host) => call(alloc, host, raw, words),
            Stage::Refused(_) => None,
        }
    }

    // What a line that made this host, or asks for its tape, shows of it.
    fn shown(&self, alloc: Global, name: &str) -> Option<String> {
        match self {
            Stage::Refused(at) => format!(in alloc; "at {at}").ok(),
            Stage::Recorder(host) if name == "written" => written(alloc, host),
            _ => format!(in alloc; "{name}").ok(),
        }
    }

    /// The answer to a line.
    pub(crate) fn answer(
        &mut self,
        alloc: Global,
        raw: &mut Raw,
        words: &[&str],
    ) -> Option<String> {
        let name = word(words, 0)?;
        match name {
            "memory" | "bent" | "recorder" | "tape" | "written" => self.shown(alloc, name),
            "write" => write(alloc, words),
            _ => self.ask(alloc, raw, words),
        }
    }
}
