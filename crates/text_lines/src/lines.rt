// A text, read line by line.
ghost use Rattle.std.specs.Prelude.{◌≡◌, ◌≤◌, ◌<◌, ℕ, List, Result, MatchResult, MatchOption, IfSome, OnOk, length, Ok, Some, None};
ghost use Rattle.text_lines.specs.declared.kinds.PlanKind.{PlanKind};
ghost use Rattle.text_lines.specs.Fields.{Fails, cut};
ghost use Rattle.text_lines.specs.Lines.{at_line, is_end, numbered, text_of, Refuses};

use crate::fields::cut;
use crate::kinds::{LineFault, PlanFault, PlanKind};
use std::alloc::Global;

/// What a text said so far, to which each further line adds.
pub trait LineReader {
    /// What the line of this number, its text without the line feed, makes of it.
    ghost step: { Self → ℕ → List ℕ → Result Self PlanKind };

    /// Takes the line of this number, without its line feed.
    fn take(&mut self, alloc: Global, number: u64, line: &[u8]) -> Result<(), LineFault>
        requires { number ≤ 4096 }
        ensures { MatchResult result (λ _. step self.old number line.now ≡ Ok self.new)
            (λ e. Fails e (step self.old number line.now)) };
}

/// Takes a line, the first of which is the header.
#[tactic(auto, unfolding(crate::specs::Lines::numbered))]
fn take_numbered<R: LineReader>(
    alloc: Global,
    header: &[u8],
    reader: &mut R,
    number: u64,
    line: &[u8],
) -> Result<(), LineFault>
    ensures value { MatchResult result
        (λ _. numbered header.now R.step reader.old number line.now ≡ Ok reader.new)
        (λ e. Fails e (numbered header.now R.step reader.old number line.now)) }
    ensures few { OnOk result (number ≤ 4096) }
{
    if 4096 < number {
        return Err(LineFault::Kind(PlanKind::Lines));
    }
    if number == 1 {
        if line != header {
            return Err(LineFault::Kind(PlanKind::Header));
        }
        return Ok(());
    }
    reader.take(alloc, number, line)
}

fn at_line(line: u64, fault: LineFault) -> PlanFault
    ensures { result ≡ at_line line fault }
{
    match fault {
        LineFault::Kind(kind) => PlanFault::At { line, kind },
        LineFault::Memory => PlanFault::Memory,
    }
}

/// Whether a text may end where `rest` is left and the line `number` would come.
fn is_end(rest: &[u8], number: u64) -> bool
    ensures { result ≡ is_end rest.now number }
{
    rest.is_empty() && 1 < number
}

/// Reads a text, all of its bytes: the header, and then each line by the reader.
pub fn read_lines<R: LineReader>(
    alloc: Global,
    header: &[u8],
    bytes: &[u8],
    reader: &mut R,
) -> Result<(), PlanFault>
    ensures { MatchResult result
        (λ _. text_of header.now R.step reader.old bytes.now ≡ Ok reader.new)
        (λ f. Refuses f (text_of header.now R.step reader.old bytes.now)) }
{
    let mut rest = bytes;
    let mut number = 1;
    while let Some((line, after)) = cut(rest, b'\n') {
        match take_numbered(alloc, header, reader, number, line) {
            Ok(()) => {}
            Err(fault) => return Err(at_line(number, fault)),
        }
        rest = after;
        number += 1;
    }
    if is_end(rest, number) {
        return Ok(());
    }
    Err(PlanFault::At {
        line: number,
        kind: PlanKind::End,
    })
}
