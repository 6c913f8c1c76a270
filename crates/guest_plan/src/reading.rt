// A plan, read from its text.
ghost use Rattle.std.specs.Prelude.{◌≡◌, MatchResult, IfOk, Ok};
ghost use Rattle.text_lines.specs.Fields.{Fails};
ghost use Rattle.text_lines.specs.Lines.{adds};
ghost use Rattle.guest_plan.specs.Items.{item_of};
ghost use Rattle.guest_plan.specs.Plans.{Known, known, nothing, add, plan_of, missing, Tells};
ghost use Rattle.guest_plan.specs.Spelling.{IsPlan};

use crate::adding::add;
use crate::items::item_of;
use crate::missing::missing;
use crate::plan::Plan;
use std::alloc::Global;
use std::marker::Model;
use text_lines::{LineFault, LineReader, PlanFault, PlanKind, read_lines};

// What the lines so far say. Contracts see it as a list of lines.
#[derive(Drop)]
struct PlanReader {
    plan: Plan,
}

impl Model for PlanReader {
    ghost use Rattle.guest_plan.specs.Plans.{Known, known};

    ghost Value = { Known };

    ghost view = { λ r. known r.plan };
}

// Takes a line.
fn take_line(alloc: Global, plan: &mut Plan, number: u64, line: &[u8]) -> Result<(), LineFault>
    ensures { MatchResult result
        (λ _. adds item_of add (known plan.old) number line.now ≡ Ok (known plan.new))
        (λ e. Fails e (adds item_of add (known plan.old) number line.now)) }
{
    let item = item_of(alloc, line)?;
    add(plan, number, item)
}

impl PlanReader {
    fn new(alloc: Global) -> PlanReader
        ensures { result ≡ nothing }
    {
        PlanReader {
            plan: Plan {
                secret: None,
                salt: None,
                lines: Vec::new(alloc),
                numbers: Vec::new(alloc),
            },
        }
    }

    fn missing(&self) -> Option<u64>
        ensures { result ≡ missing self.now }
    {
        missing(&self.plan)
    }

    fn into_plan(self) -> Plan
        ensures { known result ≡ self }
    {
        self.plan
    }
}

impl LineReader for PlanReader {
    ghost step = { adds item_of add };

    fn take(&mut self, alloc: Global, number: u64, line: &[u8]) -> Result<(), LineFault> {
        take_line(alloc, &mut self.plan, number, line)
    }
}

fn read(alloc: Global, bytes: &[u8]) -> Result<Plan, PlanFault>
    ensures { Tells result (plan_of bytes.now) }
{
    let mut reader = PlanReader::new(alloc);
    read_lines(alloc, b"plan 1", bytes, &mut reader)?;
    match reader.missing() {
        Some(line) => Err(PlanFault::At {
            line,
            kind: PlanKind::Missing,
        }),
        None => Ok(reader.into_plan()),
    }
}

/// Reads a plan, all of its bytes.
pub fn read_plan(alloc: Global, bytes: &[u8]) -> Result<Plan, PlanFault>
    // What is read is in the grammar.
    ensures found { IfOk result (λ p. IsPlan bytes.now (known p)) }
    // What is in the grammar is read, unless memory runs out.
    ensures only { (k : Known) → IsPlan bytes.now k → Tells result (Ok k) }
    // The plan; or the first line that breaks a rule, and the first rule that it breaks.
    ensures exact { Tells result (plan_of bytes.now) }
{
    read(alloc, bytes)
}
