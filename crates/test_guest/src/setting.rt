// Runs of the guest over memory.
use crate::outcome::Outcome;
use guest_cli::guest;
use host_traits::{MemFolder, MemSink, MemSource};
use std::alloc::Global;
use std::test::Fail;

/// The words, the files, how many zeros the file `blob` has, the stream and the size of its pieces, and the numbers of the calls
/// that fail: of the folder, of the stream, of the replies, of the log.
#[derive(Clone, Copy)]
pub struct Setting {
    pub words: &'static [&'static str],
    pub files: &'static [(&'static str, &'static [u8])],
    pub blob: usize,
    pub stream: &'static [u8],
    pub piece: usize,
    pub failing_files: &'static [u64],
    pub failing_reads: &'static [u64],
    pub failing_replies: &'static [u64],
    pub failing_lines: &'static [u64],
}

// The words as the guest takes them.
fn words_of(alloc: Global, texts: &[&str]) -> Result<Vec<String>, Fail> {
    let mut words = Vec::new(alloc);
    for text in texts {
        let word = String::from_str(alloc, text)?;
        words.push(word)?;
    }
    Ok(words)
}

// The folder of a run.
fn folder_of(alloc: Global, setting: &Setting) -> Result<MemFolder, Fail> {
    let mut folder = MemFolder::new(alloc);
    for (name, bytes) in setting.files {
        let copy = Vec::from_slice(alloc, bytes)?;
        folder.add(alloc, name, copy)?;
    }
    let blob = vec![in alloc; 0u8; setting.blob]?;
    folder.add(alloc, "blob", blob)?;
    let failing = Vec::from_slice(alloc, setting.failing_files)?;
    folder.fail_at(failing);
    Ok(folder)
}

// The stream of a run.
fn source_of(alloc: Global, setting: &Setting) -> Result<MemSource, Fail> {
    let stream = Vec::from_slice(alloc, setting.stream)?;
    let mut source = MemSource::new(alloc, stream, setting.piece.max(1));
    let failing = Vec::from_slice(alloc, setting.failing_reads)?;
    source.fail_at(failing);
    Ok(source)
}

// A sink of which these writes fail.
fn sink_of(alloc: Global, failing: &[u64]) -> Result<MemSink, Fail> {
    let mut sink = MemSink::new(alloc, 4096)?;
    let failing = Vec::from_slice(alloc, failing)?;
    sink.fail_at(failing);
    Ok(sink)
}

// The call of the guest, and nothing else: the number of its status.
fn status_of(
    alloc: Global,
    words: &[String],
    folder: &mut MemFolder,
    input: &mut MemSource,
    out: &mut MemSink,
    log: &mut MemSink,
) -> u8 {
    guest(alloc, words, folder, input, out, log).number()
}

/// Runs the guest.
pub fn run(alloc: Global, setting: &Setting) -> Result<Outcome, Fail> {
    let words = words_of(alloc, setting.words)?;
    let mut folder = folder_of(alloc, setting)?;
    let mut source = source_of(alloc, setting)?;
    let mut replies = sink_of(alloc, setting.failing_replies)?;
    let mut log = sink_of(alloc, setting.failing_lines)?;
    let status = status_of(
        alloc,
        &words,
        &mut folder,
        &mut source,
        &mut replies,
        &mut log,
    );
    Ok(Outcome {
        status,
        replies,
        log,
        folder,
    })
}
