//! Makes hosts as the lines of standard input say, asks them, and prints the answer to each line. A line that is empty
//! or begins with `#` is printed as it is. README.md says which lines there are.
#![tactic(auto)]

mod calls;
mod shown;
mod stage;
mod stocking;
mod words;

use crate::stage::Stage;
use anyhow::{Result, anyhow, bail};
use host_traits::Raw;
use std::io::{BufRead, BufReader};

fn main(rt: HostRuntime) -> Result<()> {
    let alloc = rt.alloc();
    let mut raw = Raw::new(alloc).map_err(|_| anyhow!("out of memory"))?;
    let mut stage = Stage::new(alloc);
    let lines = BufReader::new(alloc, rt.reader())?.lines(alloc);
    for line in lines {
        let line = line?;
        let words: Vec<&str> = line.as_str().split_whitespace().collect(alloc)?;
        if words.is_empty() || line.as_str().starts_with('#') {
            println!(rt; "{line}")?;
            continue;
        }
        let Some(next) = stage.after(alloc, words.as_slice()) else {
            bail!("no such line, or out of memory: {line}");
        };
        stage = next;
        let Some(answer) = stage.answer(alloc, &mut raw, words.as_slice()) else {
            bail!("no such line, or out of memory: {line}");
        };
        println!(rt; "{answer}")?;
    }
    Ok(())
}
