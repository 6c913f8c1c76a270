// What a run gave.
use host_traits::{MemFolder, MemSink};
use std::test::Fail;

/// What a run gave.
#[derive(Drop)]
pub struct Outcome {
    pub status: u8,
    pub replies: MemSink,
    pub log: MemSink,
    pub folder: MemFolder,
}

impl Outcome {
    /// Fails where the status or the log are others than these.
    pub fn expect(&self, status: u8, log: &str) -> Result<(), Fail> {
        if self.status != status {
            return Err(Fail::new(format_args!("status {}; {log}", self.status)));
        }
        if self.log.bytes() != log.as_bytes() {
            return Err(Fail::new(format_args!("another log; {log}")));
        }
        Ok(())
    }
}
