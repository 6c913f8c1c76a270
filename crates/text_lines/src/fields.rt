// A line cut into its fields.

ghost use Rattle.std.specs.Prelude.{◌≡◌, ◌<◌, MatchOption, IfErr, IfSome, length, Some};
ghost use Rattle.text_lines.specs.Fields.{Gives, IsKind, cut, first_field, field, last_field, two_fields, three_fields, four_fields, five_fields};

use crate::kinds::{LineFault, PlanKind};

/// What stands before the first `at`, and behind it.
pub fn cut(bytes: &[u8], at: u8) -> Option<(&[u8], &[u8])>
    ensures found { MatchOption result (cut at bytes.now ≡ None)
        (λ x. cut at bytes.now ≡ Some (x.0.now, x.1.now)) }
    ensures shorter { IfSome result (λ x. length x.1.now < length bytes.now) }
{
    for (i, byte) in bytes.iter().enumerate() {
        if *byte == at {
            return Some((&bytes[..i], &bytes[i + 1..]));
        }
    }
    None
}

/// What stands before the first space, or the whole line.
#[tactic(auto, unfolding(crate::specs::Fields::first_field))]
pub fn first_field(line: &[u8]) -> &[u8]
    ensures { result.now ≡ first_field line.now }
{
    match cut(line, b' ') {
        Some((word, _)) => word,
        None => line,
    }
}

/// A field with another behind it.
#[tactic(auto, unfolding(crate::specs::Fields::field))]
pub fn field(rest: &[u8]) -> Result<(&[u8], &[u8]), LineFault>
    ensures value { Gives (λ x. (x.0.now, x.1.now)) result (field rest.now) }
    ensures kind { IfErr result IsKind }
{
    match cut(rest, b' ') {
        Some((front, behind)) => Ok((front, behind)),
        None => Err(LineFault::Kind(PlanKind::Fields)),
    }
}

/// A field with no other behind it.
#[tactic(auto, unfolding(crate::specs::Fields::last_field))]
pub fn last_field(rest: &[u8]) -> Result<&[u8], LineFault>
    ensures value { Gives (λ x. x.now) result (last_field rest.now) }
    ensures kind { IfErr result IsKind }
{
    match cut(rest, b' ') {
        Some(_) => Err(LineFault::Kind(PlanKind::Fields)),
        None => Ok(rest),
    }
}

#[tactic(auto, unfolding(crate::specs::Fields::two_fields))]
pub fn two_fields(line: &[u8]) -> Result<(&[u8], &[u8]), LineFault>
    ensures value { Gives (λ x. (x.0.now, x.1.now)) result (two_fields line.now) }
    ensures kind { IfErr result IsKind }
{
    let (word, rest) = field(line)?;
    let first = last_field(rest)?;
    Ok((word, first))
}

#[tactic(auto, unfolding(crate::specs::Fields::three_fields))]
pub fn three_fields(line: &[u8]) -> Result<(&[u8], &[u8], &[u8]), LineFault>
    ensures value { Gives (λ x. (x.0.now, x.1.now, x.2.now)) result (three_fields line.now) }
    ensures kind { IfErr result IsKind }
{
    let (word, rest) = field(line)?;
    let (first, second) = two_fields(rest)?;
    Ok((word, first, second))
}

#[tactic(auto, unfolding(crate::specs::Fields::four_fields))]
pub fn four_fields(line: &[u8]) -> Result<(&[u8], &[u8], &[u8], &[u8]), LineFault>
    ensures value { Gives (λ x. (x.0.now, x.1.now, x.2.now, x.3.now)) result (four_fields line.now) }
    ensures kind { IfErr result IsKind }
{
    let (word, rest) = field(line)?;
    let (first, second, third) = three_fields(rest)?;
    Ok((word, first, second, third))
}

#[tactic(auto, unfolding(crate::specs::Fields::five_fields))]
pub fn five_fields(line: &[u8]) -> Result<(&[u8], &[u8], &[u8], &[u8], &[u8]), LineFault>
    ensures value { Gives (λ x. (x.0.now, x.1.now, x.2.now, x.3.now, x.4.now)) result
        (five_fields line.now) }
    ensures kind { IfErr result IsKind }
{
    let (word, rest) = field(line)?;
    let (first, second, third, fourth) = four_fields(rest)?;
    Ok((word, first, second, third, fourth))
}
