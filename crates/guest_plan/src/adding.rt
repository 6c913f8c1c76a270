// What may stand once in a plan.
ghost use Rattle.std.specs.Prelude.{◌≡◌, MatchResult, MatchOption, Ok, Some, None};
ghost use Rattle.std.specs.List.{list_any};
ghost use Rattle.text_lines.specs.Fields.{Fails};
ghost use Rattle.guest_plan.specs.Plans.{known, name_in, file_in, is_instance, same_name, same_file, clash, add};

use crate::plan::{Item, Plan, PlanLine};
use text_lines::{LineFault, PlanKind};

fn file_in(line: &PlanLine) -> Option<u32>
    ensures { result ≡ file_in line.now }
{
    match line {
        PlanLine::Blob { file, .. }
        | PlanLine::File { file, .. }
        | PlanLine::Write { file, .. }
        | PlanLine::WriteDir { file, .. } => Some(*file),
        PlanLine::Instance { .. } | PlanLine::Apk { .. } => None,
    }
}

fn name_in(line: &PlanLine) -> Option<&str>
    ensures { MatchOption result (name_in line.now ≡ None)
        (λ s. name_in line.now ≡ Some s.now) }
{
    match line {
        PlanLine::File { name, .. }
        | PlanLine::Write { name, .. }
        | PlanLine::WriteDir { name, .. } => Some(name.as_str()),
        PlanLine::Instance { .. } | PlanLine::Blob { .. } | PlanLine::Apk { .. } => None,
    }
}

pub(crate) fn is_instance(line: &PlanLine) -> bool
    ensures { result ≡ is_instance line.now }
{
    matches!(line, PlanLine::Instance { .. })
}

/// Whether both numbers are there, and the same.
pub(crate) fn is_same(a: Option<u32>, b: Option<u32>) -> bool
    ensures { result ≡ same_file a b }
{
    match (a, b) {
        (Some(number), Some(other)) => number == other,
        _ => false,
    }
}

fn same_name(a: &PlanLine, b: &PlanLine) -> bool
    ensures { result ≡ same_name (name_in a.now) (name_in b.now) }
{
    match name_in(a) {
        None => false,
        Some(name) => match name_in(b) {
            None => false,
            Some(other) => name == other,
        },
    }
}

/// Whether the lines may not stand in one plan.
fn clash(a: &PlanLine, b: &PlanLine) -> bool
    ensures { result ≡ clash a.now b.now }
{
    if is_same(file_in(a), file_in(b)) {
        return true;
    }
    if same_name(a, b) {
        return true;
    }
    is_instance(a) && is_instance(b)
}

fn is_taken(line: &PlanLine, lines: &[PlanLine]) -> bool
    ensures { result ≡ list_any (clash line.now) lines.now }
{
    for other in lines {
        if clash(line, other) {
            return true;
        }
    }
    false
}

/// Adds what the line `number` says.
#[tactic(auto, unfolding(crate::specs::Plans::add))]
pub(crate) fn add(plan: &mut Plan, number: u64, item: Item) -> Result<(), LineFault>
    ensures { MatchResult result (λ _. add (known plan.old) number item ≡ Ok (known plan.new))
        (λ e. Fails e (add (known plan.old) number item)) }
{
    match item {
        Item::Secret(bytes) => {
            if plan.secret.is_some() {
                return Err(LineFault::Kind(PlanKind::Twice));
            }
            plan.secret = Some(bytes);
            Ok(())
        }
        Item::InstanceSalt(bytes) => {
            if plan.salt.is_some() {
                return Err(LineFault::Kind(PlanKind::Twice));
            }
            plan.salt = Some(bytes);
            Ok(())
        }
        Item::Line(line) => {
            if is_taken(&line, &plan.lines) {
                return Err(LineFault::Kind(PlanKind::Twice));
            }
            plan.lines.push(line)?;
            plan.numbers.push(number)?;
            Ok(())
        }
    }
}
