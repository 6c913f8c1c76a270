// Finding a partition by its name.
ghost use Rattle.std.specs.Prelude.{◌≡◌, ◌<◌, ◌≤◌, MatchOption, Some, All};
ghost use Rattle.std.specs.Str.{bytes_eq};
ghost use Rattle.std.specs.Char.Escape.{encode_utf16};
ghost use Rattle.gpt.specs.Names.{after_unit, after_units, is_end, name_units, text_units, is_called, span_of, part, UsedIsBounded};

use crate::array::is_used;
use crate::values::{Entry, Table};
use mg_base::Span;

/// What is left of a name's field behind this unit, where it begins with it.
fn after_unit(field: &[u8], unit: u16) -> Option<&[u8]>
    ensures { MatchOption result (after_unit unit field.now ≡ None)
        (λ rest. after_unit unit field.now ≡ Some rest.now) }
{
    match field {
        [low, high, rest @ ..] => {
            if unit != 0 && u16::from_le_bytes([*low, *high]) == unit {
                Some(rest)
            } else {
                None
            }
        }
        _ => None,
    }
}

/// What is left of a name's field behind these units.
#[tactic(auto, unfolding(crate::specs::Names::after_units))]
fn after_units<'a>(field: &'a [u8], units: &[u16]) -> Option<&'a [u8]>
    ensures { MatchOption result (after_units units.now field.now ≡ None)
        (λ rest. after_units units.now field.now ≡ Some rest.now) }
{
    let mut rest = field;
    for unit in units {
        match after_unit(rest, *unit) {
            Some(more) => rest = more,
            None => return None,
        }
    }
    Some(rest)
}

/// What is left of a name's field behind this character.
fn after_char(field: &[u8], c: char) -> Option<&[u8]>
    ensures { MatchOption result (after_units (encode_utf16 c) field.now ≡ None)
        (λ rest. after_units (encode_utf16 c) field.now ≡ Some rest.now) }
{
    let mut buffer = [0; 2];
    let units: &[u16] = c.encode_utf16(&mut buffer);
    after_units(field, units)
}

/// Whether no unit of the name is left.
fn is_end(field: &[u8]) -> bool
    ensures { result ≡ is_end field.now }
{
    match field {
        [low, high, ..] => u16::from_le_bytes([*low, *high]) == 0,
        _ => true,
    }
}

/// Whether a name's field has this text.
fn is_named(field: &[u8], text: &str) -> bool
    ensures { result ≡ bytes_eq (name_units field.now) (text_units text.now) }
{
    let mut rest = field;
    for c in text.chars() {
        match after_char(rest, c) {
            Some(more) => rest = more,
            None => return false,
        }
    }
    is_end(rest)
}

fn is_called(entry: &Entry, text: &str) -> bool
    ensures { result ≡ is_called text.now entry.now }
{
    is_used(entry) && is_named(&entry.name, text)
}

fn span_of(entry: &Entry) -> Span
    requires order { entry.now.first ≤ entry.now.last }
    requires last { entry.now.last < 1099511627776 }
    ensures { result ≡ span_of entry.now }
{
    Span {
        first: entry.first,
        sectors: entry.last - entry.first + 1,
    }
}

#[tactic(auto, unfolding(crate::specs::Names::part))]
fn part(entries: &[Entry], text: &str) -> Option<Span>
    requires { All UsedIsBounded entries.now }
    ensures { result ≡ part text.now entries.now }
{
    for entry in entries {
        if is_called(entry, text) {
            return Some(span_of(entry));
        }
    }
    None
}

impl Table {
    /// The sectors of the first used entry of this name: its units of UTF-16 up to the first zero are those
    /// of the name's characters (UEFI 2.10, table 5.6). It takes no memory.
    pub fn find(&self, name: &str) -> Option<Span>
        requires { All UsedIsBounded self.now.entries }
        ensures { result ≡ part name.now self.now.entries }
    {
        part(self.entries.as_slice(), name)
    }
}
