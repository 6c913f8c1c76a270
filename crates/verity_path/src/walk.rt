// The walk from the top page down to a block.
ghost use Rattle.std.specs.Prelude.{◌≡◌, ℕ, ◌+◌, ◌-◌, ◌*◌, ◌/◌, ◌^◌, ◌≤◌, ◌<◌, List, length, IfOk, IfErr, IfSome, OnErr, OnOk, slice_range};
ghost use Rattle.host_traits.specs.Did.{Did};
ghost use Rattle.sha_tree.specs.Tree.{page_hash, padded, top, pages_at};
ghost use Rattle.verity_path.specs.Calls.{Suits, IsOnPath};
ghost use Rattle.verity_path.specs.Steps.{IsCallFor, FetchOutcome, ProvedOutcome, DescentOutcome};
ghost use Rattle.verity_path.specs.Walk.{WalkOutcome};
ghost use Rattle.verity_path.specs.Holding.{PageIsRight, ProvedIsRight, BelowIsRight, WalkIsRight};

use crate::ask::{ask, piece_of};
use crate::states::{Anchor, Mismatch, Proved, meets};
use host_traits::{Host, HostError, Raw};
use mg_base::Page;
use sha_tree::{Geometry, Measure, ancestor_of};

/// Where the blocks and the tree of a content stand at the host.
#[derive(Clone, Copy, Drop)]
pub enum Layout {
    /// A file of so many bytes, and its tree.
    File { file: u32, size: u64 },
    /// A disk: its blocks from a sector on, and its stored tree from a byte on.
    Parts { disk: u32, first: u64, tree: u64 },
}

/// Room for an answer and a page, as a caller keeps them.
#[derive(Drop)]
pub struct Buffers {
    /// For the host's answer.
    pub raw: Raw,
    /// For the page that is proved.
    pub page: Page,
}

/// Why a walk came to no page.
#[derive(Clone, Copy, Debug, PartialEq, Eq, Drop)]
pub enum WalkFault {
    /// A page that was heard has another digest than the one that is tied to its place.
    Mismatch(Mismatch),
    /// An answer had fewer bytes than were asked for.
    Short { asked: u64, got: u64 },
    /// A call failed; how often calls had failed after it.
    Failed { faults: u64 },
    /// The host had no memory.
    Memory,
}

/// Asks for the page of an anchor, which stands at these places of the host, in a tree over `geometry`'s blocks, and compares its
/// hash with the anchor's digest. It makes one call and takes no memory. After Ok and after a mismatch the page that was heard
/// is in `page`; after any other fault `page` is as before. What `raw` holds afterwards is nobody's to use.
pub fn fetch_page<H: Host>(
    host: &mut H,
    layout: &Layout,
    geometry: &Geometry,
    anchor: &Anchor,
    raw: &mut Raw,
    page: &mut Page,
) -> Result<(), WalkFault>
    requires low { anchor.now.level ≤ top geometry.now }
    requires within { anchor.now.index < pages_at geometry.now anchor.now.level }
    requires suits { Suits layout.now geometry.now }
    ensures did { Did (IsCallFor layout.now geometry.now anchor.now.level anchor.now.index) 1
        (H.told host.old) (H.told host.new)
        (FetchOutcome layout.now geometry.now anchor.now page.old page.new result) }
    // Over a host that holds the content, where no call failed or it is honest, its page or want of memory.
    ensures held { PageIsRight layout.now geometry.now anchor.now
        (H.told host.old) (H.told host.new) page.new result }
{
    let level = anchor.level();
    let index = anchor.index();
    match ask(host, layout, geometry, level, index, raw) {
        Ok(()) => {}
        Err(HostError::Failed) => {
            let faults = host.faults();
            return Err(WalkFault::Failed { faults });
        }
        Err(HostError::Memory) => return Err(WalkFault::Memory),
    }
    let piece = piece_of(layout, geometry, level, index);
    let got = raw.len() as u64;
    if got < piece.asked {
        return Err(WalkFault::Short {
            asked: piece.asked,
            got,
        });
    }
    match meets(raw, piece.from, piece.len, anchor, page) {
        Ok(()) => Ok(()),
        Err(mismatch) => Err(WalkFault::Mismatch(mismatch)),
    }
}

// Asks for the page of an anchor, and proves it.
fn fetch<'a, H: Host>(
    host: &mut H,
    layout: &Layout,
    geometry: &Geometry,
    anchor: &Anchor,
    raw: &mut Raw,
    page: &'a mut Page,
) -> Result<Proved<'a>, WalkFault>
    requires low { anchor.now.level ≤ top geometry.now }
    requires within { anchor.now.index < pages_at geometry.now anchor.now.level }
    requires suits { Suits layout.now geometry.now }
    ensures did { Did (IsCallFor layout.now geometry.now anchor.now.level anchor.now.index) 1
        (H.told host.old) (H.told host.new)
        (ProvedOutcome layout.now geometry.now anchor.now result) }
    ensures held { ProvedIsRight layout.now geometry.now anchor.now
        (H.told host.old) (H.told host.new) result }
{
    match fetch_page(host, layout, geometry, anchor, raw, page) {
        Ok(()) => Ok(Proved::new(page, anchor)),
        Err(fault) => Err(fault),
    }
}

// One level down on the way to a block.
fn descend<H: Host>(
    host: &mut H,
    layout: &Layout,
    geometry: &Geometry,
    block: u64,
    anchor: &Anchor,
    raw: &mut Raw,
    page: &mut Page,
) -> Result<Anchor, WalkFault>
    requires limit { geometry.now ≤ 1048576 }
    requires some { 1 ≤ anchor.now.level }
    requires low { anchor.now.level ≤ top geometry.now }
    requires within { anchor.now.index < pages_at geometry.now anchor.now.level }
    requires suits { Suits layout.now geometry.now }
    ensures did { Did (IsCallFor layout.now geometry.now anchor.now.level anchor.now.index) 1
        (H.told host.old) (H.told host.new)
        (DescentOutcome layout.now geometry.now block anchor.now result) }
    ensures held { BelowIsRight layout.now geometry.now block anchor.now
        (H.told host.old) (H.told host.new) result }
{
    let slot = ancestor_of(block, anchor.level() - 1) % 128;
    match fetch(host, layout, geometry, anchor, raw, page) {
        Ok(page) => Ok(page.child(slot as u32)),
        Err(fault) => Err(fault),
    }
}

/// Walks from the top page of a measure down to a block, and proves each page on the way. It makes at most one call more than
/// the top level's number, from the top page on and none after one that failed, and takes no memory.
pub fn walk_page<'a, H: Host>(
    host: &mut H,
    layout: &Layout,
    measure: &Measure,
    index: u64,
    raw: &mut Raw,
    page: &'a mut Page,
) -> Result<Proved<'a>, WalkFault>
    requires within { index < measure.now.blocks }
    requires limit { measure.now.blocks ≤ 1048576 }
    requires suits { Suits layout.now measure.now.blocks }
    ensures did { Did (IsOnPath layout.now measure.now index) (top measure.now.blocks + 1)
        (H.told host.old) (H.told host.new) (WalkOutcome layout.now measure.now index result) }
    // Over a host that holds the content, where no call failed or it is honest, its block or want of memory.
    ensures held { WalkIsRight layout.now measure.now index
        (H.told host.old) (H.told host.new) result }
{
    let Some(geometry) = Geometry::new(measure.blocks) else {
        unreachable!()
    };
    let Some(mut anchor) = Anchor::measured(measure) else {
        unreachable!()
    };
    let mut level = geometry.top();
    'levels: while level > 0 {
        let below = match descend(host, layout, &geometry, index, &anchor, raw, page) {
            Ok(below) => below,
            Err(fault) => return Err(fault),
        };
        anchor = below;
        level -= 1;
    }
    fetch(host, layout, &geometry, &anchor, raw, page)
}
