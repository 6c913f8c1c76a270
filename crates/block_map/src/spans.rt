// Where the components of a disk begin and end.
ghost use Rattle.std.specs.Prelude.{◌≡◌, ◌+◌, ◌<◌, ◌≤◌, length};
ghost use Rattle.composite_spec.specs.Said.{Composite, IsComposite, composite};
ghost use Rattle.block_map.specs.Disk.{begin_of, end_of, is_writable};

use composite_spec::Spec;

/// Where the component begins.
pub(crate) fn begin_of(spec: &Spec, index: usize) -> u64
    requires { index < length (composite spec.now).components }
    ensures { result ≡ begin_of (composite spec.now) index }
{
    spec.components[index].offset
}

/// Where the component ends.
pub(crate) fn end_of(spec: &Spec, index: usize) -> u64
    requires is { IsComposite (composite spec.now) }
    requires within { index < length (composite spec.now).components }
    ensures { result ≡ end_of (composite spec.now) index }
{
    if index + 1 < spec.components.len() {
        return begin_of(spec, index + 1);
    }
    spec.length
}

/// Whether the component may be written.
pub(crate) fn is_writable(spec: &Spec, index: usize) -> bool
    requires { index < length (composite spec.now).components }
    ensures { result ≡ is_writable (composite spec.now) index }
{
    spec.components[index].write
}

/// The last component that begins at or before a place, by binary search.
pub(crate) fn holder(spec: &Spec, at: u64) -> usize
    requires { IsComposite (composite spec.now) }
    ensures within { result < length (composite spec.now).components }
    ensures begins { begin_of (composite spec.now) result ≤ at }
    ensures later { result + 1 < length (composite spec.now).components → at
        < begin_of (composite spec.now) (result + 1) }
{
    let mut low = 0;
    let mut high = spec.components.len();
    while high - low > 1 {
        let middle = low + (high - low) / 2;
        if begin_of(spec, middle) <= at {
            low = middle;
        } else {
            high = middle;
        }
    }
    low
}
