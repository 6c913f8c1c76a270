// What composite files describe.
ghost use Rattle.std.specs.Prelude.{◌≡◌, IfOk};
ghost use Rattle.composite_spec.specs.Said.{Composite, IsComposite, composite};
ghost use Rattle.composite_spec.specs.Spelling.{IsFile};
ghost use Rattle.composite_spec.specs.Writing.{file_bytes};

use crate::words::bytes_of;
use anyhow::{Result, bail};
use composite_spec::{Spec, read_spec, write_spec};
use std::alloc::Global;

// What the bytes of a file describe.
fn spec_of(alloc: Global, bytes: &[u8]) -> Result<Spec>
    ensures said { IfOk result (λ s. (c : Composite) → IsFile bytes.now c → composite s ≡ c) }
    ensures describes { IfOk result (λ s. IsComposite (composite s)) }
{
    match read_spec(alloc, bytes) {
        Ok(spec) => Ok(spec),
        Err(fault) => bail!("{fault:?}"),
    }
}

// The file that is written for a description.
fn file_of(alloc: Global, spec: &Spec) -> Result<Vec<u8>>
    requires { IsComposite (composite spec.now) }
    ensures { IfOk result (λ v. v.items ≡ file_bytes (composite spec.now)) }
{
    let mut out = Vec::new(alloc);
    match write_spec(spec, &mut out) {
        Ok(()) => Ok(out),
        Err(_) => bail!("out of memory"),
    }
}

fn print(rt: &HostRuntime, spec: &Spec) -> Result<()>
    requires { IsComposite (composite spec.now) }
{
    let length = spec.length;
    println!(rt; "length {length}")?;
    for component in spec.components.iter() {
        let offset = component.offset;
        let mode = if component.write { "rw" } else { "ro" };
        let path = hex::encode(rt.alloc(), component.path.as_bytes())?;
        println!(rt; "component {offset} {mode} {path}")?;
    }
    let file = hex::encode(rt.alloc(), file_of(rt.alloc(), spec)?.as_slice())?;
    println!(rt; "file {file}")?;
    Ok(())
}

/// What a composite file describes and the file that is written for it: the disk's length, a line for each component with its
/// offset, `ro` or `rw` and the bytes of its path, and the written file. Of a file that is in no grammar the first broken rule.
pub fn print_composite(rt: &HostRuntime, bytes: &str) -> Result<()> {
    let bytes = bytes_of(rt.alloc(), bytes)?;
    match spec_of(rt.alloc(), bytes.as_slice()) {
        Ok(spec) => print(rt, &spec)?,
        Err(fault) => println!(rt; "{fault}")?,
    }
    Ok(())
}
