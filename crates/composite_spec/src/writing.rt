// A composite file, written to bytes.
ghost use Rattle.std.specs.Prelude.{◌≡◌, ◌+◌, ◌*◌, ◌<◌, ◌≤◌, ◌^◌, ◌++◌, OnOk, OnErr, Ok, length, take, map, string_bytes};
ghost use Rattle.std.specs.List.{flat_map, AllByRecursion};
ghost use Rattle.composite_spec.specs.Said.{Placed, IsPath, IsComposite, placed, composite, capability_of};
ghost use Rattle.composite_spec.specs.Reading.{decoded};
ghost use Rattle.composite_spec.specs.Spelling.{IsFile};
ghost use Rattle.composite_spec.specs.Writing.{varint_bytes, number_field, bytes_field, component_bytes, components_bytes, file_bytes};

use crate::kinds::{Component, Spec};
use mg_base::Memory;
use std::alloc::AllocError;

/// How many bytes the shortest varint of a number has.
fn varint_size(n: u64) -> u64
    ensures value { result ≡ length (varint_bytes n) }
    ensures few { result ≤ 10 }
{
    let mut size = 1;
    let mut left = n;
    while left >= 128 {
        left /= 128;
        size += 1;
    }
    size
}

/// How many bytes a field of a number has.
#[tactic(auto, unfolding(crate::specs::Writing::number_field))]
fn number_size(number: u64, value: u64) -> u64
    requires { number < 16 }
    ensures value { result ≡ length (number_field number value) }
    ensures few { result ≤ 20 }
{
    if value == 0 {
        return 0;
    }
    varint_size(8 * number) + varint_size(value)
}

/// The number that says whether a component may be written.
fn capability(component: &Component) -> u64
    ensures { result ≡ capability_of (placed component.now) }
{
    if component.write { 1 } else { 0 }
}

/// How many bytes a component has.
#[tactic(auto, unfolding(crate::specs::Writing::component_bytes))]
fn component_size(component: &Component) -> u64
    requires { length (string_bytes component.now.path) < 256 }
    ensures { result ≡ length (component_bytes (placed component.now)) }
{
    let path = component.path.as_bytes().len() as u64;
    varint_size(10)
        + varint_size(path)
        + path
        + number_size(2, component.offset)
        + number_size(3, capability(component))
}

/// Adds the shortest varint of a number.
fn put_varint(n: u64, out: &mut Vec<u8>) -> Result<(), AllocError>
    ensures ok { OnOk result (out.new.items ≡ out.old.items ++ varint_bytes n) }
    ensures kept { take (length out.old.items) out.new.items ≡ out.old.items }
{
    let mut left = n;
    while left >= 128 {
        out.push((left % 128) as u8 + 128)?;
        left /= 128;
    }
    out.push(left as u8)?;
    Ok(())
}

/// Adds a field of a number, or nothing where the number is 0.
#[tactic(auto, unfolding(crate::specs::Writing::number_field))]
fn put_number(number: u64, value: u64, out: &mut Vec<u8>) -> Result<(), AllocError>
    requires { number < 16 }
    ensures ok { OnOk result (out.new.items ≡ out.old.items ++ number_field number value) }
    ensures kept { take (length out.old.items) out.new.items ≡ out.old.items }
{
    if value == 0 {
        return Ok(());
    }
    put_varint(8 * number, out)?;
    put_varint(value, out)
}

/// Adds the tag and the length of a field of `size` bytes.
fn put_front(number: u64, size: u64, out: &mut Vec<u8>) -> Result<(), AllocError>
    requires { number < 16 }
    ensures ok { OnOk result
        (out.new.items ≡ out.old.items ++ (varint_bytes (8 * number + 2) ++ varint_bytes size)) }
    ensures kept { take (length out.old.items) out.new.items ≡ out.old.items }
{
    put_varint(8 * number + 2, out)?;
    put_varint(size, out)
}

/// Adds a field of bytes.
#[tactic(auto, unfolding(crate::specs::Writing::bytes_field))]
fn put_bytes(number: u64, bytes: &[u8], out: &mut Vec<u8>) -> Result<(), AllocError>
    requires { number < 16 }
    ensures ok { OnOk result (out.new.items ≡ out.old.items ++ bytes_field number bytes.now) }
    ensures kept { take (length out.old.items) out.new.items ≡ out.old.items }
{
    put_front(number, bytes.len() as u64, out)?;
    out.extend_from_slice(bytes)
}

/// Adds the two numbers of a component.
fn put_numbers(component: &Component, out: &mut Vec<u8>) -> Result<(), AllocError>
    ensures ok { OnOk result
        (out.new.items
        ≡ out.old.items
        ++ (number_field 2 (placed component.now).offset ++ number_field 3
        (capability_of (placed component.now)))) }
    ensures kept { take (length out.old.items) out.new.items ≡ out.old.items }
{
    put_number(2, component.offset, out)?;
    put_number(3, capability(component), out)
}

/// Adds what a component says.
#[tactic(auto, unfolding(crate::specs::Writing::component_bytes))]
fn put_said(component: &Component, out: &mut Vec<u8>) -> Result<(), AllocError>
    ensures ok { OnOk result
        (out.new.items ≡ out.old.items ++ component_bytes (placed component.now)) }
    ensures kept { take (length out.old.items) out.new.items ≡ out.old.items }
{
    put_bytes(1, component.path.as_bytes(), out)?;
    put_numbers(component, out)
}

/// Adds a component as a field of the disk.
#[tactic(auto, unfolding(crate::specs::Writing::bytes_field))]
fn put_component(component: &Component, out: &mut Vec<u8>) -> Result<(), AllocError>
    requires { length (string_bytes component.now.path) < 256 }
    ensures ok { OnOk result
        (out.new.items ≡ out.old.items ++ bytes_field 2 (component_bytes (placed component.now))) }
    ensures kept { take (length out.old.items) out.new.items ≡ out.old.items }
{
    put_front(2, component_size(component), out)?;
    put_said(component, out)
}

/// Adds the components, one after another.
fn put_components(components: &[Component], out: &mut Vec<u8>) -> Result<(), AllocError>
    requires { AllByRecursion (λ (c : Placed). IsPath c.path) (map placed components.now) }
    ensures ok { OnOk result
        (out.new.items ≡ out.old.items ++ components_bytes (map placed components.now)) }
    ensures kept { take (length out.old.items) out.new.items ≡ out.old.items }
{
    for component in components {
        put_component(component, out)?;
    }
    Ok(())
}

/// Adds the disk's fields.
fn put_disk(spec: &Spec, out: &mut Vec<u8>) -> Result<(), AllocError>
    requires { IsComposite (composite spec.now) }
    ensures ok { OnOk result
        (out.new.items
        ≡ out.old.items
        ++ (number_field 1 2
        ++ (components_bytes (composite spec.now).components ++ number_field 3
        (composite spec.now).length))) }
    ensures kept { take (length out.old.items) out.new.items ≡ out.old.items }
{
    put_number(1, 2, out)?;
    put_components(&spec.components, out)?;
    put_number(3, spec.length, out)
}

/// Adds a file, or a front part of it.
#[tactic(auto, unfolding(crate::specs::Writing::file_bytes))]
fn put_file(spec: &Spec, out: &mut Vec<u8>) -> Result<(), AllocError>
    requires { IsComposite (composite spec.now) }
    ensures ok { OnOk result (out.new.items ≡ out.old.items ++ file_bytes (composite spec.now)) }
    ensures kept { take (length out.old.items) out.new.items ≡ out.old.items }
{
    out.extend_from_slice(b"composite_disk\x1d")?;
    put_disk(spec, out)
}

/// Writes the composite file of a description behind what stands in `out`: shortest varints, the fields in the order
/// of their numbers, numbers that are 0 left out. Where memory runs out, `out` is as before.
pub fn write_spec(spec: &Spec, out: &mut Vec<u8>) -> Result<(), Memory>
    requires { IsComposite (composite spec.now) }
    ensures bytes { OnOk result
        (out.new.items ≡ out.old.items ++ file_bytes (composite spec.now)) }
    // They are spelled so, and so have at most 1 MiB.
    ensures spelled { IsFile (file_bytes (composite spec.now)) (composite spec.now) }
    // They are read as this description.
    ensures again { decoded (file_bytes (composite spec.now)) ≡ Ok (composite spec.now) }
    ensures unchanged { OnErr result (out.new.items ≡ out.old.items) }
{
    let before = out.len();
    match put_file(spec, out) {
        Ok(()) => Ok(()),
        Err(_) => {
            out.truncate(before);
            Err(Memory)
        }
    }
}
