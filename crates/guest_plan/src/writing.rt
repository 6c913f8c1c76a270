// The text of a plan.
ghost use Rattle.std.specs.Prelude.{◌≡◌, ◌∷◌, ◌++◌, OnOk, OnErr, codes};
ghost use Rattle.std.specs.List.{flat_map};
ghost use Rattle.guest_plan.specs.declared.plan.PlanLine.TheVariants.{Instance, Blob, Apk, File};
ghost use Rattle.guid_crc.specs.Guids.{guid_text};
ghost use Rattle.guest_plan.specs.Plans.{known};
ghost use Rattle.std.specs.Fmt.{decimal};
ghost use Rattle.text_lines.specs.Spelling.{ended, ◌then◌};
ghost use Rattle.guest_plan.specs.Spelling.{measure_text, how_text, line_text, item_text, secret_items, salt_items, plan_text, IsWritten, IsPlan};

use crate::plan::{How, Plan, PlanLine};
use mg_base::{Digest, Guid, Memory};
use sha_tree::Measure;
use std::alloc::{AllocError, Global};
use text_lines::{Name, put_hex, put_number, put_salt};
use uuid::Uuid;

/// Adds the text of a measure: blocks, salt and root.
fn put_measure(alloc: Global, out: &mut Vec<u8>, measure: &Measure) -> Result<(), AllocError>
    ensures { OnOk result (out.new.items ≡ out.old.items ++ measure_text measure.now) }
{
    put_number(alloc, out, measure.blocks)?;
    out.push(b' ')?;
    put_salt(out, &measure.salt)?;
    out.push(b' ')?;
    put_hex(out, &measure.root.0)
}

/// Adds the text of a GUID (RFC 4122, section 3), in lower case.
fn put_guid(out: &mut Vec<u8>, guid: &Guid) -> Result<(), AllocError>
    ensures { OnOk result (out.new.items ≡ out.old.items ++ guid_text guid.now.0) }
{
    let id = Uuid::from_bytes(guid.0);
    let mut buffer = Uuid::encode_buffer();
    let text = id.hyphenated().encode_lower(&mut buffer);
    out.extend_from_slice(text.as_bytes())?;
    Ok(())
}

/// Adds how an APK device is measured.
fn put_how(alloc: Global, out: &mut Vec<u8>, how: &How) -> Result<(), AllocError>
    ensures { OnOk result (out.new.items ≡ out.old.items ++ how_text how.now) }
{
    match how {
        How::Fixed(measure) => {
            out.extend_from_slice(b"fixed ")?;
            put_measure(alloc, out, measure)
        }
        How::First => out.extend_from_slice(b"first"),
        How::Kept(guid) => {
            out.extend_from_slice(b"record ")?;
            put_guid(out, guid)
        }
    }
}

/// Adds a word with a space, a name and a number.
fn put_named(
    alloc: Global,
    out: &mut Vec<u8>,
    word: &[u8],
    name: &Name,
    file: u32,
) -> Result<(), AllocError>
    ensures { OnOk result
        (out.new.items ≡ out.old.items ++ (word.now ++ (name.now then decimal file))) }
{
    out.extend_from_slice(word)?;
    out.extend_from_slice(name.as_str().as_bytes())?;
    out.push(b' ')?;
    put_number(alloc, out, u64::from(file))
}

fn put_instance(alloc: Global, out: &mut Vec<u8>, disk: u32, part: &Name) -> Result<(), AllocError>
    ensures { OnOk result
        (out.new.items ≡ out.old.items ++ line_text (Instance disk part.now)) }
{
    out.extend_from_slice(b"instance ")?;
    put_number(alloc, out, u64::from(disk))?;
    out.push(b' ')?;
    out.extend_from_slice(part.as_str().as_bytes())
}

fn put_blob(
    alloc: Global,
    out: &mut Vec<u8>,
    file: u32,
    measure: &Measure,
) -> Result<(), AllocError>
    ensures { OnOk result (out.new.items ≡ out.old.items ++ line_text (Blob file measure.now)) }
{
    out.extend_from_slice(b"blob ")?;
    put_number(alloc, out, u64::from(file))?;
    out.push(b' ')?;
    put_measure(alloc, out, measure)
}

fn put_apk_place(alloc: Global, out: &mut Vec<u8>, disk: u32, apk: &Name) -> Result<(), AllocError>
    ensures { OnOk result
        (out.new.items ≡ out.old.items ++ (codes "apk" then decimal disk then apk.now)) }
{
    out.extend_from_slice(b"apk ")?;
    put_number(alloc, out, u64::from(disk))?;
    out.push(b' ')?;
    out.extend_from_slice(apk.as_str().as_bytes())
}

fn put_apk_measure(
    alloc: Global,
    out: &mut Vec<u8>,
    idsig: &Name,
    how: &How,
) -> Result<(), AllocError>
    ensures { OnOk result
        (out.new.items ≡ out.old.items ++ (32 ∷ (idsig.now then how_text how.now))) }
{
    out.push(b' ')?;
    out.extend_from_slice(idsig.as_str().as_bytes())?;
    out.push(b' ')?;
    put_how(alloc, out, how)
}

fn put_apk(
    alloc: Global,
    out: &mut Vec<u8>,
    disk: u32,
    apk: &Name,
    idsig: &Name,
    how: &How,
) -> Result<(), AllocError>
    ensures { OnOk result
        (out.new.items ≡ out.old.items ++ line_text (Apk disk apk.now idsig.now how.now)) }
{
    put_apk_place(alloc, out, disk, apk)?;
    put_apk_measure(alloc, out, idsig, how)
}

fn put_file(
    alloc: Global,
    out: &mut Vec<u8>,
    name: &Name,
    file: u32,
    digest: &Digest,
) -> Result<(), AllocError>
    ensures { OnOk result
        (out.new.items ≡ out.old.items ++ line_text (File name.now file digest.now)) }
{
    put_named(alloc, out, b"file ", name, file)?;
    out.push(b' ')?;
    put_hex(out, &digest.0)
}

/// Adds what a line says, without its line feed.
fn put_text(alloc: Global, out: &mut Vec<u8>, line: &PlanLine) -> Result<(), AllocError>
    ensures { OnOk result (out.new.items ≡ out.old.items ++ line_text line.now) }
{
    match line {
        PlanLine::Instance { disk, part } => put_instance(alloc, out, *disk, part),
        PlanLine::Blob { file, measure } => put_blob(alloc, out, *file, measure),
        PlanLine::Apk {
            disk,
            apk,
            idsig,
            how,
        } => put_apk(alloc, out, *disk, apk, idsig, how),
        PlanLine::File { name, file, digest } => put_file(alloc, out, name, *file, digest),
        PlanLine::Write { name, file } => put_named(alloc, out, b"write ", name, *file),
        PlanLine::WriteDir { name, file } => put_named(alloc, out, b"writedir ", name, *file),
    }
}

fn put_line(alloc: Global, out: &mut Vec<u8>, line: &PlanLine) -> Result<(), AllocError>
    ensures { OnOk result (out.new.items ≡ out.old.items ++ ended (line_text line.now)) }
{
    put_text(alloc, out, line)?;
    out.push(b'\n')?;
    Ok(())
}

fn put_lines(alloc: Global, out: &mut Vec<u8>, lines: &[PlanLine]) -> Result<(), AllocError>
    ensures { OnOk result
        (out.new.items ≡ out.old.items ++ flat_map (λ l. ended (line_text l)) lines.now) }
{
    for line in lines {
        put_line(alloc, out, line)?;
    }
    Ok(())
}

fn put_secret(out: &mut Vec<u8>, secret: &Option<[u8; 32]>) -> Result<(), AllocError>
    ensures { OnOk result
        (out.new.items
        ≡ out.old.items ++ flat_map (λ i. ended (item_text i)) (secret_items secret.now)) }
{
    if let Some(bytes) = secret {
        out.extend_from_slice(b"secret ")?;
        put_hex(out, bytes)?;
        out.push(b'\n')?;
    }
    Ok(())
}

fn put_instance_salt(out: &mut Vec<u8>, salt: &Option<[u8; 64]>) -> Result<(), AllocError>
    ensures { OnOk result
        (out.new.items
        ≡ out.old.items ++ flat_map (λ i. ended (item_text i)) (salt_items salt.now)) }
{
    if let Some(bytes) = salt {
        out.extend_from_slice(b"salt ")?;
        put_hex(out, bytes)?;
        out.push(b'\n')?;
    }
    Ok(())
}

fn put_plan(alloc: Global, plan: &Plan, out: &mut Vec<u8>) -> Result<(), AllocError>
    ensures { OnOk result (out.new.items ≡ out.old.items ++ plan_text (known plan.now)) }
{
    out.extend_from_slice(b"plan 1\n")?;
    put_secret(out, &plan.secret)?;
    put_instance_salt(out, &plan.salt)?;
    put_lines(alloc, out, &plan.lines)?;
    Ok(())
}

/// Adds the text of a plan behind what stands in `out`: the secret, the salt and then the lines.
/// Where memory runs out, `out` is as before.
pub fn write_plan(alloc: Global, plan: &Plan, out: &mut Vec<u8>) -> Result<(), Memory>
    requires { IsWritten (known plan.now) }
    ensures text { OnOk result (out.new.items ≡ out.old.items ++ plan_text (known plan.now)) }
    // It is read again as this plan.
    ensures again { IsPlan (plan_text (known plan.now)) (known plan.now) }
    ensures unchanged { OnErr result (out.new.items ≡ out.old.items) }
{
    let mut text = Vec::new(alloc);
    match put_plan(alloc, plan, &mut text) {
        Ok(()) => {}
        Err(_) => return Err(Memory),
    }
    match out.extend_from_slice(&text) {
        Ok(()) => Ok(()),
        Err(_) => Err(Memory),
    }
}
