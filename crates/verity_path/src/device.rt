// Reads of a range of a measured content.
ghost use Rattle.std.specs.Prelude.{◌≡◌, ℕ, ◌+◌, ◌-◌, ◌*◌, ◌/◌, ◌<◌, ◌≤◌, List, [], length};
ghost use Rattle.host_traits.specs.Did.{Did};
ghost use Rattle.verity_path.specs.Calls.{Suits};
ghost use Rattle.verity_path.specs.Range.{most_answers, IsForRead, RangeOutcome};
ghost use Rattle.verity_path.specs.Holding.{RangeIsRight};

use crate::served::Served;
use crate::states::Mismatch;
use crate::walk::{Layout, WalkFault, walk_page};
use host_traits::{Host, Raw};
use mg_base::Page;
use sha_tree::Measure;

/// Why a request was not answered, in the host's own answers to it.
#[derive(Clone, Copy, Debug, PartialEq, Eq, Drop)]
pub enum Cause {
    /// A page that was heard has another digest than the one that is tied to its place.
    Mismatch(Mismatch),
    /// An answer had fewer bytes than were asked for.
    Short { asked: u64, got: u64 },
    /// A call failed; how often calls had failed after it.
    Failed { faults: u64 },
    /// A record ends with this tag, and the right one is another. The right one isn't told: who knew it could forge the record.
    Tag { found: [u8; 16] },
    /// The record at this sector of an image has another header than when the image was opened.
    Changed { sector: u64 },
    /// Memory was wanted: the cause of a write that ended early.
    Memory,
}

/// A measured device at the host: whole blocks of 4096 bytes, and where they and their tree stand.
#[derive(Clone, Copy)]
pub struct Device {
    pub measure: Measure,
    pub layout: Layout,
}

/// Adds the bytes from `at` on, at most `len` of them and cut at the end, of a measured content of `size` bytes.
/// It asks only for the blocks that the range touches and the pages above them, in rising order, makes no call after one that
/// failed, and takes no memory. After a fault some of the bytes may have been added.
pub fn read_range<H: Host>(
    host: &mut H,
    device: &Device,
    size: u64,
    at: u64,
    len: u32,
    raw: &mut Raw,
    page: &mut Page,
    served: &mut Served,
) -> Result<(), WalkFault>
    requires empty { served.old ≡ [] }
    requires most { len ≤ 131072 }
    requires limit { device.now.measure.blocks ≤ 1048576 }
    requires suits { Suits device.now.layout device.now.measure.blocks }
    requires fits { size ≤ 4096 * device.now.measure.blocks }
    ensures did { Did (IsForRead device.now.layout device.now.measure size at len)
        (most_answers device.now.measure size at len) (H.told host.old) (H.told host.new)
        (RangeOutcome device.now.layout device.now.measure size at len served.new result) }
    // Over a host that holds the content, where no call failed or it is honest, its bytes or want of memory.
    ensures held { RangeIsRight device.now.layout device.now.measure size at len
        (H.told host.old) (H.told host.new) served.new result }
{
    if len == 0 || at >= size {
        return Ok(());
    }
    let end = at.saturating_add(len as u64).min(size);
    for index in at / 4096..(end + 4095) / 4096 {
        let start = 4096 * index;
        let from = at.max(start) - start;
        let to = end.min(start + 4096) - start;
        match walk_page(host, &device.layout, &device.measure, index, raw, page) {
            Ok(block) => served.push(&block, from as usize, to as usize),
            Err(fault) => return Err(fault),
        }
    }
    Ok(())
}
