//! Cases for the readers of binary formats, for hash trees and for the ciphers, one a line of standard input, and what each call answers,
//! one line each on standard output. A line that begins with `#` says where the values below it come from, and is printed as it is.
#![tactic(auto)]

mod asked;
mod ciphers;
mod composites;
mod disks;
mod files;
mod low;
mod memory;
mod messages;
mod readers;
mod replies;
mod words;

use crate::ciphers::{
    aes_line, changed_line, hkdf_line, hmac_line, print_times, record_line, seal_line,
};
use crate::composites::print_composite;
use crate::disks::{print_table, write_disk};
use crate::files::{print_pages, print_tree};
use crate::low::{numbers_line, page_line, places_line, salt_line, tree_line};
use crate::memory::{answer_line, folder_line, sink_line, source_line};
use crate::messages::{print_message, print_reply};
use crate::readers::{crc_line, descriptor_line, frame_line, guid_line, idsig_line, idsig_of_line};
use anyhow::{Result, bail};
use std::alloc::Global;
use std::io::{BufRead, BufReader};

// What the call that these words name answers.
fn outcome(alloc: Global, words: &[&str]) -> Result<String> {
    match words {
        ["crc", bytes] => crc_line(alloc, *bytes),
        ["guid", text] => guid_line(alloc, *text),
        ["descriptor", bytes] => descriptor_line(alloc, *bytes),
        ["idsig", bytes, total, blocks] => idsig_line(alloc, *bytes, *total, *blocks),
        ["idsig_of", salt, root, signing, tree] => {
            idsig_of_line(alloc, *salt, *root, *signing, *tree)
        }
        ["frame", bytes] => frame_line(alloc, *bytes),
        ["aes", key, block] => aes_line(alloc, *key, *block),
        ["seal", key, nonce, head, text] => seal_line(alloc, *key, *nonce, *head, *text),
        ["record", key, header, salt, nonce, text] => {
            record_line(alloc, *key, (*header, *salt), *nonce, *text)
        }
        ["changed", key, nonce, head, text] => changed_line(alloc, *key, *nonce, *head, *text),
        ["hmac", key, text] => hmac_line(alloc, *key, *text),
        ["hkdf", salt, key, info] => hkdf_line(alloc, *salt, *key, *info),
        ["numbers", bytes] => numbers_line(alloc, *bytes),
        ["page", at, put, padded, from] => page_line(alloc, *at, *put, *padded, *from),
        ["salt", bytes] => salt_line(alloc, *bytes),
        ["tree", bytes, piece, salt] => tree_line(alloc, *bytes, *piece, *salt),
        ["places", blocks] => places_line(alloc, *blocks),
        ["source", bytes, piece, failing] => source_line(alloc, *bytes, *piece, *failing),
        ["sink", room, failing, pieces @ ..] => sink_line(alloc, *room, *failing, pieces),
        ["folder", failing, steps @ ..] => folder_line(alloc, *failing, steps),
        ["answer", put, others] => answer_line(alloc, *put, *others),
        _ => bail!("no such case"),
    }
}

// Prints what the call that these words name answers, in one line or more.
fn print(rt: &HostRuntime, words: &[&str]) -> Result<()> {
    match words {
        ["pages", file] => print_pages(rt, *file),
        ["file_tree", file, salt, out @ ..] => print_tree(rt, *file, *salt, out),
        ["write_disk", head, tail, disk, parts @ ..] => write_disk(rt, *head, *tail, *disk, parts),
        ["read_disk", head, tail, sectors] => print_table(rt, *head, *tail, *sectors),
        ["composite", bytes] => print_composite(rt, *bytes),
        ["message", bytes] => print_message(rt, *bytes),
        ["reply", reply @ ..] => print_reply(rt, reply),
        ["times", word, len, times] => print_times(rt, *word, *len, *times),
        _ => {
            let outcome = outcome(rt.alloc(), words)?;
            println!(rt; "{outcome}")?;
            Ok(())
        }
    }
}

fn main(rt: HostRuntime) -> Result<()> {
    let lines = BufReader::new(rt.alloc(), rt.reader())?.lines(rt.alloc());
    for line in lines {
        let line = line?;
        if line.as_str().starts_with("#") {
            println!(rt; "{line}")?;
            continue;
        }
        let words: Vec<&str> = line.as_str().split_whitespace().collect(rt.alloc())?;
        print(&rt, words.as_slice())?;
    }
    Ok(())
}
