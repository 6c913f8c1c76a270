// A list of parts, read from its text.
ghost use Rattle.std.specs.Prelude.{List, IfOk, Ok};
ghost use Rattle.std.specs.List.{AllByRecursion};
ghost use Rattle.text_lines.specs.Fields.{Gives};
ghost use Rattle.text_lines.specs.Lists.{TellsList};
ghost use Rattle.guest_images.specs.declared.parts.PartLine.{PartLine};
ghost use Rattle.guest_images.specs.Parts.{IsParts, IsPartLine, mode_of, part_fields_of, part_line_of, part_name_of, parts_of, same_name};

use std::alloc::Global;
use text_lines::{
    LineFault, ListLine, Name, PlanFault, PlanKind, first_field, folder_name_of, four_fields,
    name_of, read_list,
};

/// A line of a list of parts.
#[derive(Drop)]
pub struct PartLine {
    /// The partition's name.
    pub name: Name,
    /// Whether it may be written.
    pub write: bool,
    /// The name of its file in the folder.
    pub file: Name,
}

// A name of at most 36 bytes.
#[tactic(auto, unfolding(crate::specs::Parts::part_name_of))]
fn part_name_of(alloc: Global, text: &[u8]) -> Result<Name, LineFault>
    ensures { Gives (λ n. n) result (part_name_of text.now) }
{
    if text.len() > 36 {
        return Err(LineFault::Kind(PlanKind::Name));
    }
    name_of(alloc, text)
}

// Whether a part may be written.
#[tactic(auto, unfolding(crate::specs::Parts::mode_of))]
fn mode_of(text: &[u8]) -> Result<bool, LineFault>
    ensures { Gives (λ b. b) result (mode_of text.now) }
{
    if text == b"ro".as_slice() {
        return Ok(false);
    }
    if text == b"rw".as_slice() {
        return Ok(true);
    }
    Err(LineFault::Kind(PlanKind::Word))
}

#[tactic(auto, unfolding(crate::specs::Parts::part_fields_of))]
fn part_fields_of(alloc: Global, line: &[u8]) -> Result<PartLine, LineFault>
    ensures { Gives (λ p. p) result (part_fields_of line.now) }
{
    let (_, name, mode, file) = four_fields(line)?;
    let name = part_name_of(alloc, name)?;
    let write = mode_of(mode)?;
    let file = folder_name_of(alloc, file)?;
    Ok(PartLine { name, write, file })
}

#[tactic(auto, unfolding(crate::specs::Parts::part_line_of))]
fn part_line_of(alloc: Global, line: &[u8]) -> Result<PartLine, LineFault>
    ensures { Gives (λ p. p) result (part_line_of line.now) }
{
    let word = first_field(line);
    if word == b"part".as_slice() {
        return part_fields_of(alloc, line);
    }
    Err(LineFault::Kind(PlanKind::Word))
}

impl ListLine for PartLine {
    ghost item_of = { part_line_of };

    ghost clash = { same_name };

    fn read(alloc: Global, line: &[u8]) -> Result<PartLine, LineFault> {
        part_line_of(alloc, line)
    }

    fn clashes(&self, other: &PartLine) -> bool {
        self.name.as_str() == other.name.as_str()
    }
}

/// Reads a list of parts, all of its bytes.
pub fn read_parts(alloc: Global, bytes: &[u8]) -> Result<Vec<PartLine>, PlanFault>
    // What is read is in the grammar.
    ensures found { IfOk result (λ v. IsParts bytes.now v.items) }
    // What is in the grammar is read, unless memory runs out.
    ensures only { (parts : List PartLine) → IsParts bytes.now parts
        → TellsList result (Ok parts) }
    // The list; or the first line that breaks a rule, and the first rule that it breaks.
    ensures exact { TellsList result (parts_of bytes.now) }
    // Each line is well formed.
    ensures each { IfOk result (λ v. AllByRecursion IsPartLine v.items) }
{
    read_list(alloc, b"parts 1", bytes)
}
