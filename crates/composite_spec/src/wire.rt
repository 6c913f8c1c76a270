// Varints and fields, from the front of a message (Protocol Buffers, "Encoding").
ghost use Rattle.std.specs.Prelude.{◌≡◌, ◌+◌, ◌<◌, ◌≤◌, IfOk, length};
ghost use Rattle.composite_spec.specs.Wire.{Tells, Field, content, size_of, place, varint_in, varint, front, value_of, is_wire, allows, field};

use crate::kinds::SpecFault;

/// A message whose fields are known.
#[derive(Clone, Copy, Drop)]
pub(crate) enum Message {
    Disk,
    Component,
}

/// The value of a field.
#[derive(Clone, Copy)]
pub(crate) enum Value<'a> {
    /// A varint.
    Number(u64),
    /// Bytes behind their length.
    Sized(&'a [u8]),
    /// Eight or four bytes, which are skipped.
    Fixed,
}

/// The place in the file of the first byte of what is left of a message that ends at `end`.
pub(crate) fn place(end: u64, rest: &[u8]) -> u64
    requires { length rest.now ≤ end }
    ensures { result ≡ place end rest.now }
{
    end - rest.len() as u64
}

/// A varint of at most `left` bytes, whose first byte is at `at`, and what is behind it.
#[tactic(auto, unfolding(crate::specs::Wire::varint_in))]
fn varint_in(at: u64, left: u32, rest: &[u8]) -> Result<(u64, &[u8]), SpecFault>
    requires { 0 < left }
    ensures value { Tells (λ x. (x.0, x.1.now)) result (varint_in at left rest.now) }
    ensures shorter { IfOk result (λ x. length x.1.now < length rest.now) }
{
    match rest {
        [] => Err(SpecFault::Truncated { at }),
        [byte, more @ ..] => {
            if *byte < 128 {
                return Ok((u64::from(*byte), more));
            }
            if left == 1 {
                return Err(SpecFault::Varint { at });
            }
            let (high, after) = varint_in(at, left - 1, more)?;
            if high >= 1 << 57 {
                return Err(SpecFault::Varint { at });
            }
            Ok((128 * high + u64::from(*byte - 128), after))
        }
    }
}

/// The varint at the front of what is left of a message, and what is behind it.
#[tactic(auto, unfolding(crate::specs::Wire::varint))]
fn varint(end: u64, rest: &[u8]) -> Result<(u64, &[u8]), SpecFault>
    requires { length rest.now ≤ end }
    ensures value { Tells (λ x. (x.0, x.1.now)) result (varint end rest.now) }
    ensures shorter { IfOk result (λ x. length x.1.now < length rest.now) }
{
    varint_in(place(end, rest), 10, rest)
}

/// The next `n` bytes of the value at `at`, and what is behind them.
#[tactic(auto, unfolding(crate::specs::Wire::front))]
fn front(at: u64, n: u64, rest: &[u8]) -> Result<(&[u8], &[u8]), SpecFault>
    ensures value { Tells (λ x. (x.0.now, x.1.now)) result (front at n rest.now) }
    ensures whole { IfOk result (λ x. length x.0.now + length x.1.now ≤ length rest.now) }
{
    if (rest.len() as u64) < n {
        return Err(SpecFault::Truncated { at });
    }
    let (bytes, after) = rest.split_at(n as usize);
    Ok((bytes, after))
}

/// The value of this wire type, and what is behind it.
#[tactic(auto, unfolding(crate::specs::Wire::value_of))]
fn value_of(end: u64, wire: u64, rest: &[u8]) -> Result<(Value<'_>, &[u8]), SpecFault>
    requires { length rest.now ≤ end }
    ensures value { Tells (λ x. (content x.0, x.1.now)) result (value_of end wire rest.now) }
    ensures inside { IfOk result
        (λ x. size_of (content x.0) + length x.1.now ≤ length rest.now) }
{
    let at = place(end, rest);
    if wire == 0 {
        let (number, after) = varint(end, rest)?;
        return Ok((Value::Number(number), after));
    }
    if wire == 1 {
        let (_, after) = front(at, 8, rest)?;
        return Ok((Value::Fixed, after));
    }
    if wire == 2 {
        let (length, sized) = varint(end, rest)?;
        let (bytes, after) = front(at, length, sized)?;
        return Ok((Value::Sized(bytes), after));
    }
    let (_, after) = front(at, 4, rest)?;
    Ok((Value::Fixed, after))
}

fn is_wire(wire: u64) -> bool
    ensures { result ≡ is_wire wire }
{
    wire < 3 || wire == 5
}

/// Whether a field of this number may have this wire type.
fn allows(message: Message, number: u64, wire: u64) -> bool
    ensures { result ≡ allows message number wire }
{
    let bytes = match message {
        Message::Disk => 2,
        Message::Component => 1,
    };
    if number == 0 {
        return false;
    }
    if number == bytes {
        return wire == 2;
    }
    if number < 4 {
        return wire == 0;
    }
    is_wire(wire)
}

/// The field at the front of what is left of a message: its number, its value and what is behind it.
#[tactic(auto, unfolding(crate::specs::Wire::field))]
pub(crate) fn field(
    message: Message,
    end: u64,
    rest: &[u8],
) -> Result<(u64, Value<'_>, &[u8]), SpecFault>
    requires { length rest.now ≤ end }
    ensures value { Tells (λ x. record { number = x.0; value = content x.1; rest = x.2.now })
        result (field message end rest.now) }
    ensures inside { IfOk result (λ x. size_of (content x.1) + length x.2.now < length rest.now) }
{
    let at = place(end, rest);
    let (tag, after) = varint(end, rest)?;
    let number = tag / 8;
    let wire = tag % 8;
    if !allows(message, number, wire) {
        return Err(SpecFault::Wire { at });
    }
    let (value, behind) = value_of(end, wire, after)?;
    Ok((number, value, behind))
}
