// Lines of a list of an instance image's partitions.
ghost use Rattle.text_lines.specs.Fields.{Gives};
ghost use Rattle.guest_images.specs.ImageLists.{image_part_of, image_salt_of, named_uuid_of};

use guest_plan::uuid_of;
use mg_base::Guid;
use text_lines::{LineFault, PlanKind, hex64, number_in, three_fields, two_fields};

// A partition has fewer reserved sectors than this.
const SECTORS: u64 = 1_048_577;

// A UUID that isn't nil.
#[tactic(auto, unfolding(crate::specs::ImageLists::named_uuid_of))]
fn named_uuid_of(text: &[u8]) -> Result<Guid, LineFault>
    ensures { Gives (λ g. g) result (named_uuid_of text.now) }
{
    let uuid = uuid_of(text)?;
    if uuid == Guid([0; 16]) {
        return Err(LineFault::Kind(PlanKind::Range));
    }
    Ok(uuid)
}

/// The partition that a line says: its UUID, and how many sectors are reserved for it.
#[tactic(auto, unfolding(crate::specs::ImageLists::image_part_of))]
pub(crate) fn image_part_of(line: &[u8]) -> Result<(Guid, u32), LineFault>
    ensures { Gives (λ p. p) result (image_part_of line.now) }
{
    let (_, uuid, sectors) = three_fields(line)?;
    let uuid = named_uuid_of(uuid)?;
    let sectors = number_in(1, SECTORS, sectors)?;
    Ok((uuid, sectors as u32))
}

/// The salt that a line says.
#[tactic(auto, unfolding(crate::specs::ImageLists::image_salt_of))]
pub(crate) fn image_salt_of(line: &[u8]) -> Result<[u8; 64], LineFault>
    ensures { Gives (λ s. s) result (image_salt_of line.now) }
{
    let (_, salt) = two_fields(line)?;
    hex64(salt)
}
