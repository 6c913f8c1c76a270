// What lines of a plan need.
ghost use Rattle.std.specs.Prelude.{◌≡◌};
ghost use Rattle.std.specs.List.{list_any};
ghost use Rattle.guest_plan.specs.Plans.{known, is_instance, is_kept, lacks, first_lacking, missing};

use crate::adding::is_instance;
use crate::plan::{How, Plan, PlanLine};

fn has_instance(lines: &[PlanLine]) -> bool
    ensures { result ≡ list_any is_instance lines.now }
{
    for line in lines {
        if is_instance(line) {
            return true;
        }
    }
    false
}

fn is_kept(how: &How) -> bool
    ensures { result ≡ is_kept how.now }
{
    match how {
        How::Fixed(_) => false,
        How::First => false,
        How::Kept(_) => true,
    }
}

/// Whether the line lacks something, where the keys are there or an instance is.
fn lacks(keyed: bool, there: bool, line: &PlanLine) -> bool
    ensures { result ≡ lacks keyed there line.now }
{
    match line {
        PlanLine::Instance { .. } => !keyed,
        PlanLine::Apk { how, .. } => is_kept(how) && !there,
        PlanLine::Blob { .. } => false,
        PlanLine::File { .. } => false,
        PlanLine::Write { .. } => false,
        PlanLine::WriteDir { .. } => false,
    }
}

fn first_lacking(keyed: bool, there: bool, lines: &[PlanLine], numbers: &[u64]) -> Option<u64>
    ensures { result ≡ first_lacking keyed there lines.now numbers.now }
{
    let count = lines.len().min(numbers.len());
    for i in 0..count {
        if lacks(keyed, there, &lines[i]) {
            return Some(numbers[i]);
        }
    }
    None
}

/// The number of the first line that lacks something.
pub(crate) fn missing(plan: &Plan) -> Option<u64>
    ensures { result ≡ missing (known plan.now) }
{
    let keyed = plan.secret.is_some() && plan.salt.is_some();
    let there = has_instance(&plan.lines);
    first_lacking(keyed, there, &plan.lines, &plan.numbers)
}
