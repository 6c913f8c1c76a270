// The text of a measure, as a record keeps it.
ghost use Rattle.std.specs.Prelude.{◌≡◌, ◌≤◌, length, IfErr};
ghost use Rattle.text_lines.specs.Fields.{Gives, IsKind};
ghost use Rattle.guest_plan.specs.Items.{measure_in};
ghost use Rattle.guest_plan.specs.Spelling.{measure_text};
ghost use Rattle.guest_plan.specs.Measures.{SaysMeasure};

use crate::items::measure_of;
use sha_tree::Measure;
use text_lines::{Line, LineFault, three_fields};

/// The text of a measure: its blocks in decimal, its salt and its root in hexadecimal digits, with single spaces between them. A
/// salt of no bytes is `-`. It takes no memory.
pub fn measure_text(measure: &Measure) -> Line
    ensures value { result ≡ measure_text measure.now }
    ensures len { length result ≤ 150 }
{
    let mut line = Line::new();
    line.number(measure.blocks);
    line.put(b" ");
    line.salt(&measure.salt);
    line.put(b" ");
    line.digest(&measure.root);
    line
}

// The measure of a text, or the first thing wrong with it.
#[tactic(auto, unfolding(crate::specs::Items::measure_in))]
fn measure_in(text: &[u8]) -> Result<Measure, LineFault>
    ensures value { Gives (λ m. m) result (measure_in text.now) }
    ensures kind { IfErr result IsKind }
{
    let (blocks, salt, root) = three_fields(text)?;
    measure_of(blocks, salt, root)
}

/// The measure that a text says: of 2 to 1,048,576 blocks, with a salt of at most 32 bytes; None exactly where it is the text of
/// none. It takes no memory.
pub fn read_measure(text: &[u8]) -> Option<Measure>
    ensures { SaysMeasure text.now result }
{
    match measure_in(text) {
        Ok(measure) => Some(measure),
        Err(_) => None,
    }
}
