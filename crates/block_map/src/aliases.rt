// Components that have one file.
ghost use Rattle.std.specs.Prelude.{◌≡◌, ◌<◌, ◌||◌, length};
ghost use Rattle.composite_spec.specs.Said.{composite};
ghost use Rattle.block_map.specs.Disk.{Aliases, is_writable, path_at};

use crate::map::MapFault;
use crate::spans::is_writable;
use composite_spec::Spec;
use std::alloc::Global;
use std::collections::BTreeMap;

/// The path of a component.
fn path_at(spec: &Spec, index: usize) -> &str
    requires { index < length (composite spec.now).components }
    ensures { result.now ≡ path_at (composite spec.now) index }
{
    spec.components[index].path.as_str()
}

/// Whether one of two components is writable.
fn one_writable(spec: &Spec, a: usize, b: usize) -> bool
    requires first { a < length (composite spec.now).components }
    requires second { b < length (composite spec.now).components }
    ensures { result ≡ (is_writable (composite spec.now) a || is_writable (composite spec.now) b) }
{
    is_writable(spec, a) || is_writable(spec, b)
}

/// Whether there is an alias among the components. Of each path the first component is kept in an ordered map.
pub(crate) fn judge_aliases(alloc: Global, spec: &Spec) -> Result<(), MapFault>
    ensures { Aliases (composite spec.now) result }
{
    let mut firsts: BTreeMap<&str, usize> = BTreeMap::new(alloc);
    for b in 0..spec.components.len() {
        let path = path_at(spec, b);
        match firsts.get(path).copied() {
            Some(a) => {
                if one_writable(spec, a, b) {
                    return Err(MapFault::Alias {
                        a: a as u64,
                        b: b as u64,
                    });
                }
            }
            None => {
                firsts.insert(path, b)?;
            }
        }
    }
    Ok(())
}
