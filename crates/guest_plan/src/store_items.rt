// What a line of a store list says.
ghost use Rattle.std.specs.Prelude.{◌≡◌};
ghost use Rattle.text_lines.specs.Fields.{Gives};
ghost use Rattle.guest_plan.specs.StoreItems.{numbered_of, numbered_line_of, disk_of, composite_of, verity_of, empty_of, dir_of, keep_disk_of, keep_file_of, keep_of, store_line_of};

use crate::store::StoreLine;
use std::alloc::Global;
use text_lines::{
    LineFault, Name, PlanKind, first_field, folder_name_of, four_fields, number_in, page_salt,
    three_fields, two_fields,
};

// Files, directories and disks are numbered below this.
const NUMBERS: u64 = 2_147_483_648;

/// A number, and the name of a file in the folder.
#[tactic(auto, unfolding(crate::specs::StoreItems::numbered_of))]
fn numbered_of(alloc: Global, number: &[u8], name: &[u8]) -> Result<(u32, Name), LineFault>
    ensures { Gives (λ l. (l.0, l.1)) result (numbered_of number.now name.now) }
{
    let n = number_in(0, NUMBERS, number)?;
    let file = folder_name_of(alloc, name)?;
    Ok((n as u32, file))
}

/// The same behind the word of a line.
#[tactic(auto, unfolding(crate::specs::StoreItems::numbered_line_of))]
fn numbered_line_of(alloc: Global, line: &[u8]) -> Result<(u32, Name), LineFault>
    ensures { Gives (λ l. (l.0, l.1)) result (numbered_line_of line.now) }
{
    let (_, number, name) = three_fields(line)?;
    numbered_of(alloc, number, name)
}

#[tactic(auto, unfolding(crate::specs::StoreItems::disk_of))]
fn disk_of(alloc: Global, line: &[u8]) -> Result<StoreLine, LineFault>
    ensures { Gives (λ l. l) result (disk_of line.now) }
{
    let (n, file) = numbered_line_of(alloc, line)?;
    Ok(StoreLine::Disk { n, file })
}

#[tactic(auto, unfolding(crate::specs::StoreItems::composite_of))]
fn composite_of(alloc: Global, line: &[u8]) -> Result<StoreLine, LineFault>
    ensures { Gives (λ l. l) result (composite_of line.now) }
{
    let (n, file) = numbered_line_of(alloc, line)?;
    Ok(StoreLine::Composite { n, file })
}

#[tactic(auto, unfolding(crate::specs::StoreItems::verity_of))]
fn verity_of(alloc: Global, line: &[u8]) -> Result<StoreLine, LineFault>
    ensures { Gives (λ l. l) result (verity_of line.now) }
{
    let (_, number, name, salt) = four_fields(line)?;
    let (n, file) = numbered_of(alloc, number, name)?;
    let salt = page_salt(salt)?;
    Ok(StoreLine::Verity { n, file, salt })
}

#[tactic(auto, unfolding(crate::specs::StoreItems::empty_of))]
fn empty_of(line: &[u8]) -> Result<StoreLine, LineFault>
    ensures { Gives (λ l. l) result (empty_of line.now) }
{
    let (_, n) = two_fields(line)?;
    let n = number_in(0, NUMBERS, n)?;
    Ok(StoreLine::Empty { n: n as u32 })
}

#[tactic(auto, unfolding(crate::specs::StoreItems::dir_of))]
fn dir_of(line: &[u8]) -> Result<StoreLine, LineFault>
    ensures { Gives (λ l. l) result (dir_of line.now) }
{
    let (_, n) = two_fields(line)?;
    let n = number_in(0, NUMBERS, n)?;
    Ok(StoreLine::Dir { n: n as u32 })
}

#[tactic(auto, unfolding(crate::specs::StoreItems::keep_disk_of))]
fn keep_disk_of(alloc: Global, number: &[u8], name: &[u8]) -> Result<StoreLine, LineFault>
    ensures { Gives (λ l. l) result (keep_disk_of number.now name.now) }
{
    let (n, file) = numbered_of(alloc, number, name)?;
    Ok(StoreLine::KeepDisk { n, file })
}

#[tactic(auto, unfolding(crate::specs::StoreItems::keep_file_of))]
fn keep_file_of(alloc: Global, number: &[u8], name: &[u8]) -> Result<StoreLine, LineFault>
    ensures { Gives (λ l. l) result (keep_file_of number.now name.now) }
{
    let (n, file) = numbered_of(alloc, number, name)?;
    Ok(StoreLine::KeepFile { n, file })
}

#[tactic(auto, unfolding(crate::specs::StoreItems::keep_of, crate::specs::StoreItems::keep_by))]
fn keep_of(alloc: Global, line: &[u8]) -> Result<StoreLine, LineFault>
    ensures { Gives (λ l. l) result (keep_of line.now) }
{
    let (_, what, number, name) = four_fields(line)?;
    if what == b"disk".as_slice() {
        return keep_disk_of(alloc, number, name);
    }
    if what == b"file".as_slice() {
        return keep_file_of(alloc, number, name);
    }
    Err(LineFault::Kind(PlanKind::Word))
}

/// What the line says.
#[tactic(auto, unfolding(crate::specs::StoreItems::store_line_of))]
pub(crate) fn store_line_of(alloc: Global, line: &[u8]) -> Result<StoreLine, LineFault>
    ensures { Gives (λ l. l) result (store_line_of line.now) }
{
    let word = first_field(line);
    if word == b"disk".as_slice() {
        return disk_of(alloc, line);
    }
    if word == b"composite".as_slice() {
        return composite_of(alloc, line);
    }
    if word == b"verity".as_slice() {
        return verity_of(alloc, line);
    }
    if word == b"empty".as_slice() {
        return empty_of(line);
    }
    if word == b"dir".as_slice() {
        return dir_of(line);
    }
    if word == b"keep".as_slice() {
        return keep_of(alloc, line);
    }
    Err(LineFault::Kind(PlanKind::Word))
}
