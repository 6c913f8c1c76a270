// Bytes moved between a range of the disk and the files of its components.
ghost use Rattle.std.specs.Prelude.{◌≡◌, ◌+◌, ◌-◌, ◌<◌, ◌≤◌, ℕ, length, min, slice_index};
ghost use Rattle.composite_spec.specs.Said.{Composite, IsComposite, composite};
ghost use Rattle.block_map.specs.Disk.{contents, byte_at, end_of, Judges, MayWriteBelow, AreWritten};

use crate::bytes::{copy_part, put};
use crate::map::MapFault;
use crate::spans::{begin_of, end_of, holder, is_writable};
use composite_spec::Spec;

/// How many of the `left` bytes from a place on are in the component.
fn piece(spec: &Spec, index: usize, place: u64, left: usize) -> usize
    requires is { IsComposite (composite spec.now) }
    requires within { index < length (composite spec.now).components }
    requires before { place ≤ end_of (composite spec.now) index }
    ensures { result ≡ min (end_of (composite spec.now) index - place) left }
{
    (end_of(spec, index) - place).min(left as u64) as usize
}

/// Copies the bytes of the disk from `at` on.
pub(crate) fn copy(spec: &Spec, files: &[Vec<u8>], at: u64, out: &mut [u8])
    requires is { IsComposite (composite spec.now) }
    requires files { length files.now ≡ length (composite spec.now).components }
    requires range { at + length out.old ≤ (composite spec.now).length }
    ensures { (k : ℕ) → k < length out.old → slice_index out.new k
        ≡ byte_at (at + k) 0 (composite spec.now).components (contents files.now) }
{
    let mut index = holder(spec, at);
    let mut done = 0;
    while done < out.len() {
        let place = at + done as u64;
        let n = piece(spec, index, place, out.len() - done);
        let from = place - begin_of(spec, index);
        copy_part(files[index].as_slice(), from, out, done, n);
        done += n;
        index += 1;
    }
}

/// Whether the range from `at` to `end` may be written.
pub(crate) fn judge(spec: &Spec, files: &[Vec<u8>], at: u64, end: u64) -> Result<(), MapFault>
    requires is { IsComposite (composite spec.now) }
    requires files { length files.now ≡ length (composite spec.now).components }
    requires some { at < end }
    requires range { end ≤ (composite spec.now).length }
    ensures { Judges (composite spec.now) (contents files.now) at end result }
{
    let mut index = holder(spec, at);
    while index < spec.components.len() {
        let begin = begin_of(spec, index);
        if end <= begin {
            return Ok(());
        }
        if !is_writable(spec, index) {
            return Err(MapFault::ReadOnly {
                component: index as u64,
            });
        }
        let last = end.min(end_of(spec, index));
        if last - begin > files[index].len() as u64 {
            return Err(MapFault::PastComponent {
                component: index as u64,
            });
        }
        index += 1;
    }
    Ok(())
}

/// Overwrites the bytes of the disk from `at` on.
pub(crate) fn overwrite(spec: &Spec, files: &mut [Vec<u8>], at: u64, bytes: &[u8])
    requires is { IsComposite (composite spec.now) }
    requires files { length files.old ≡ length (composite spec.now).components }
    requires range { at + length bytes.now ≤ (composite spec.now).length }
    requires may { MayWriteBelow (composite spec.now) (contents files.old) at
        (at + length bytes.now) (length (composite spec.now).components) }
    ensures { AreWritten (composite spec.now) at bytes.now (contents files.old)
        (contents files.new) }
{
    let mut index = holder(spec, at);
    let mut done = 0;
    while done < bytes.len() {
        let place = at + done as u64;
        let n = piece(spec, index, place, bytes.len() - done);
        let from = (place - begin_of(spec, index)) as usize;
        put(&mut files[index], from, &bytes[done..done + n]);
        done += n;
        index += 1;
    }
}
