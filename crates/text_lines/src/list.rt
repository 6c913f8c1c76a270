// A text in which each line is an item of a list, and some items may not stand beside others.
ghost use Rattle.std.specs.Prelude.{◌≡◌, List, ℕ, Bool, Result, MatchResult, [], Ok};
ghost use Rattle.std.specs.List.{list_any};
ghost use Rattle.text_lines.specs.declared.kinds.PlanKind.{PlanKind};
ghost use Rattle.text_lines.specs.Fields.{Fails, Gives};
ghost use Rattle.text_lines.specs.Lines.{adds};
ghost use Rattle.text_lines.specs.Lists.{TellsList, add_apart, list_of};

use crate::kinds::{LineFault, PlanFault, PlanKind};
use crate::lines::{LineReader, read_lines};
use std::alloc::Global;
use std::marker::Model;

/// An item that a line of a list says.
pub trait ListLine: Drop {
    /// The item that a line says, or the first thing wrong with it.
    ghost item_of: { List ℕ → Result Self PlanKind };

    /// Whether two items may not stand in one list.
    ghost clash: { Self → Self → Bool };

    /// Reads a line, its text without the line feed.
    fn read(alloc: Global, line: &[u8]) -> Result<Self, LineFault>
        ensures { Gives (λ item. item) result (item_of line.now) };

    /// Whether this item may not stand beside that one.
    fn clashes(&self, other: &Self) -> bool
        ensures { result ≡ clash self.now other.now };
}

fn any_clashes<I: ListLine>(item: &I, items: &[I]) -> bool
    ensures { result ≡ list_any (I.clash item.now) items.now }
{
    for other in items {
        if item.clashes(other) {
            return true;
        }
    }
    false
}

// Adds an item.
#[tactic(auto, unfolding(crate::specs::Lists::add_apart))]
fn add_apart<I: ListLine>(items: &mut Vec<I>, number: u64, item: I) -> Result<(), LineFault>
    ensures { MatchResult result
        (λ _. add_apart I.clash items.old.items number item ≡ Ok items.new.items)
        (λ e. Fails e (add_apart I.clash items.old.items number item)) }
{
    if any_clashes(&item, items) {
        return Err(LineFault::Kind(PlanKind::Twice));
    }
    items.push(item)?;
    Ok(())
}

fn take_line<I: ListLine>(
    alloc: Global,
    items: &mut Vec<I>,
    number: u64,
    line: &[u8],
) -> Result<(), LineFault>
    ensures { MatchResult result
        (λ _. adds I.item_of (add_apart I.clash) items.old.items number line.now
        ≡ Ok items.new.items)
        (λ e. Fails e (adds I.item_of (add_apart I.clash) items.old.items number line.now)) }
{
    let item = I::read(alloc, line)?;
    add_apart(items, number, item)
}

// The items so far.
#[derive(Drop)]
struct ListReader<I: ListLine> {
    items: Vec<I>,
}

impl<I: ListLine> Model for ListReader<I> {
    ghost use Rattle.std.specs.Prelude.{List};

    ghost Value = { List I };

    ghost view = { λ r. r.items.items };
}

impl<I: ListLine> ListReader<I> {
    fn new(alloc: Global) -> ListReader<I>
        ensures { result ≡ [] }
    {
        ListReader {
            items: Vec::new(alloc),
        }
    }

    fn into_items(self) -> Vec<I>
        ensures { result.items ≡ self }
    {
        self.items
    }
}

impl<I: ListLine> LineReader for ListReader<I> {
    ghost step = { adds I.item_of (add_apart I.clash) };

    fn take(&mut self, alloc: Global, number: u64, line: &[u8]) -> Result<(), LineFault> {
        take_line(alloc, &mut self.items, number, line)
    }
}

/// Reads a list, all of its bytes: the header, and an item for each further line.
pub fn read_list<I: ListLine>(
    alloc: Global,
    header: &[u8],
    bytes: &[u8],
) -> Result<Vec<I>, PlanFault>
    ensures { TellsList result (list_of header.now I.item_of I.clash bytes.now) }
{
    let mut reader: ListReader<I> = ListReader::new(alloc);
    match read_lines(alloc, header, bytes, &mut reader) {
        Ok(()) => Ok(reader.into_items()),
        Err(fault) => Err(fault),
    }
}
