// The words of a fault of boot, and the line of the log that a run ends with after one.
ghost use Rattle.std.specs.Prelude.{◌≡◌, ◌≤◌, ◌+◌, ◌++◌, length, OnOk, OnErr};
ghost use Rattle.std.specs.Io.KnownBytes.{Appends};
ghost use Rattle.std.specs.Fmt.{decimal, signed_decimal};
ghost use Rattle.host_traits.specs.Streams.{SomePrefix, HasCause};
ghost use Rattle.guest_boot.specs.Wording.{gpt_words, idsig_words, apk_words, descriptor_words, file_words, image_words, get_words, put_words, front_words, named, front, boot_end, space, pair, crc_text, digests};

use crate::faults::{BootCause, BootFault};
use crate::row::Row;
use apk_verity::ApkFault;
use gpt::GptFault;
use host_traits::{Failed, Sink};
use idsig_v4::IdsigFault;
use instance_image::{GetFault, ImageFault, PutFault};
use mg_base::Digest;
use ro_file::RoFault;
use verity_descriptor::DescriptorFault;

fn put_crcs(row: &mut Row, word: &[u8], expected: u32, found: u32)
    requires { length row.old + length word.now + 17 ≤ 256 }
    ensures value { row.new
        ≡ row.old ++ (word.now ++ crc_text expected ++ space ++ crc_text found) }
    ensures len { length row.new ≡ length row.old + length word.now + 17 }
{
    row.put(word);
    row.crc(expected);
    row.put(b" ");
    row.crc(found);
}

fn put_number(row: &mut Row, word: &[u8], n: u64)
    requires { length row.old + length word.now + 20 ≤ 256 }
    ensures value { row.new ≡ row.old ++ (word.now ++ decimal n) }
    ensures len { length row.new ≤ length row.old + length word.now + 20 }
{
    row.put(word);
    row.number(n);
}

fn put_signed(row: &mut Row, word: &[u8], n: i32)
    requires { length row.old + length word.now + 11 ≤ 256 }
    ensures value { row.new ≡ row.old ++ (word.now ++ signed_decimal n) }
    ensures len { length row.new ≤ length row.old + length word.now + 11 }
{
    row.put(word);
    row.signed(n);
}

fn put_pair(row: &mut Row, word: &[u8], a: u64, b: u64)
    requires { length row.old + length word.now + 41 ≤ 256 }
    ensures value { row.new ≡ row.old ++ (word.now ++ pair a b) }
    ensures len { length row.new ≤ length row.old + length word.now + 41 }
{
    row.put(word);
    row.pair(a, b);
}

fn put_digests(row: &mut Row, word: &[u8], a: &Digest, b: &Digest)
    requires { length row.old + length word.now + 129 ≤ 256 }
    ensures value { row.new ≡ row.old ++ (word.now ++ digests a.now b.now) }
    ensures len { length row.new ≡ length row.old + length word.now + 129 }
{
    row.put(word);
    row.digests(a, b);
}

fn put_gpt(row: &mut Row, fault: &GptFault)
    requires { length row.old ≤ 60 }
    ensures value { row.new ≡ row.old ++ gpt_words fault.now }
    ensures len { length row.new ≤ 200 }
{
    match fault {
        GptFault::Size { sectors } => put_number(row, b"size ", *sectors),
        GptFault::Signature => row.put(b"signature"),
        GptFault::Revision { found } => put_number(row, b"revision ", *found as u64),
        GptFault::HeaderSize { found } => put_number(row, b"headersize ", *found as u64),
        GptFault::HeaderCrc { expected, found } => put_crcs(row, b"headercrc ", *expected, *found),
        GptFault::EntrySize { found } => put_number(row, b"entrysize ", *found as u64),
        GptFault::EntryCount { found } => put_number(row, b"entrycount ", *found as u64),
        GptFault::Place => row.put(b"place"),
        GptFault::ArrayCrc { expected, found } => put_crcs(row, b"arraycrc ", *expected, *found),
        GptFault::Range { entry } => put_number(row, b"range ", *entry as u64),
        GptFault::Overlap { a, b } => put_pair(row, b"overlap ", *a as u64, *b as u64),
        GptFault::Memory => row.put(b"memory"),
    }
}

fn put_idsig(row: &mut Row, fault: &IdsigFault)
    requires { length row.old ≤ 60 }
    ensures value { row.new ≡ row.old ++ idsig_words fault.now }
    ensures len { length row.new ≤ 200 }
{
    match fault {
        IdsigFault::Truncated { at } => put_number(row, b"truncated ", *at),
        IdsigFault::Version { found } => put_signed(row, b"version ", *found),
        IdsigFault::InfoLength { found } => put_signed(row, b"infolength ", *found),
        IdsigFault::Algorithm { found } => put_signed(row, b"algorithm ", *found),
        IdsigFault::BlockSize { found } => put_number(row, b"blocksize ", *found as u64),
        IdsigFault::SaltLength { found } => put_signed(row, b"saltlength ", *found),
        IdsigFault::RootLength { found } => put_signed(row, b"rootlength ", *found),
        IdsigFault::SigningLength { found } => put_signed(row, b"signinglength ", *found),
        IdsigFault::NoTree => row.put(b"notree"),
        IdsigFault::TreeLength { expected, found } => {
            put_pair(row, b"treelength ", *expected, *found)
        }
    }
}

fn put_apk(row: &mut Row, fault: &ApkFault)
    requires { length row.old ≤ 50 }
    ensures value { row.new ≡ row.old ++ apk_words fault.now }
    ensures len { length row.new ≤ 200 }
{
    match fault {
        ApkFault::Failed { faults } => put_number(row, b"failed ", *faults),
        ApkFault::Short { asked, got } => put_pair(row, b"short ", *asked, *got),
        ApkFault::Idsig(fault) => {
            row.put(b"idsig ");
            put_idsig(row, fault);
        }
        ApkFault::SaltMismatch => row.put(b"saltmismatch"),
        ApkFault::RootMismatch { expected, found } => {
            put_digests(row, b"rootmismatch ", expected, found)
        }
        ApkFault::TooFewBlocks { blocks } => put_number(row, b"toofewblocks ", *blocks),
        ApkFault::TooManyBlocks { blocks } => put_number(row, b"toomanyblocks ", *blocks),
        ApkFault::SpanShort { blocks, sectors } => {
            put_pair(row, b"spanshort ", *blocks, *sectors)
        }
        ApkFault::Memory => row.put(b"memory"),
    }
}

fn put_descriptor(row: &mut Row, fault: &DescriptorFault)
    requires { length row.old ≤ 60 }
    ensures value { row.new ≡ row.old ++ descriptor_words fault.now }
    ensures len { length row.new ≤ 200 }
{
    match fault {
        DescriptorFault::Version { found } => put_number(row, b"version ", *found as u64),
        DescriptorFault::Algorithm { found } => put_number(row, b"algorithm ", *found as u64),
        DescriptorFault::BlockSize { found } => put_number(row, b"blocksize ", *found as u64),
        DescriptorFault::SaltLength { found } => put_number(row, b"saltlength ", *found as u64),
        DescriptorFault::NotZero { at } => put_number(row, b"notzero ", *at as u64),
    }
}

fn put_file(row: &mut Row, fault: &RoFault)
    requires { length row.old ≤ 45 }
    ensures value { row.new ≡ row.old ++ file_words fault.now }
    ensures len { length row.new ≤ 200 }
{
    match fault {
        RoFault::Failed { faults } => put_number(row, b"failed ", *faults),
        RoFault::Short { asked, got } => put_pair(row, b"short ", *asked, *got),
        RoFault::DigestMismatch { expected, found } => {
            put_digests(row, b"digestmismatch ", expected, found)
        }
        RoFault::Descriptor(fault) => {
            row.put(b"descriptor ");
            put_descriptor(row, fault);
        }
        RoFault::TooLong { size } => put_number(row, b"toolong ", *size),
        RoFault::Memory => row.put(b"memory"),
    }
}

fn put_image(row: &mut Row, fault: &ImageFault)
    requires { length row.old ≤ 60 }
    ensures value { row.new ≡ row.old ++ image_words fault.now }
    ensures len { length row.new ≤ 200 }
{
    match fault {
        ImageFault::Failed { faults } => put_number(row, b"failed ", *faults),
        ImageFault::Short { asked, got } => put_pair(row, b"short ", *asked, *got),
        ImageFault::Magic => row.put(b"magic"),
        ImageFault::Version { found } => put_number(row, b"version ", *found as u64),
        ImageFault::NotZero { sector } => put_number(row, b"notzero ", *sector),
        ImageFault::SaltMismatch => row.put(b"saltmismatch"),
        ImageFault::Header { sector } => put_number(row, b"header ", *sector),
        ImageFault::TooMany { sector } => put_number(row, b"toomany ", *sector),
        ImageFault::Memory => row.put(b"memory"),
    }
}

fn put_get(row: &mut Row, fault: &GetFault)
    requires { length row.old ≤ 60 }
    ensures value { row.new ≡ row.old ++ get_words fault.now }
    ensures len { length row.new ≤ 200 }
{
    match fault {
        GetFault::NoRecord => row.put(b"norecord"),
        GetFault::Failed { faults } => put_number(row, b"failed ", *faults),
        GetFault::Short { asked, got } => put_pair(row, b"short ", *asked, *got),
        GetFault::Changed { sector } => put_number(row, b"changed ", *sector),
        GetFault::Tag(tag) => {
            row.put(b"tag ");
            row.hex(&tag.found);
        }
        GetFault::Memory => row.put(b"memory"),
    }
}

fn put_put(row: &mut Row, fault: &PutFault)
    requires { length row.old ≤ 60 }
    ensures value { row.new ≡ row.old ++ put_words fault.now }
    ensures len { length row.new ≤ 200 }
{
    match fault {
        PutFault::NoRecord => row.put(b"norecord"),
        PutFault::TooLarge { text, room } => put_pair(row, b"toolarge ", *text, *room),
        PutFault::Memory => row.put(b"memory"),
        PutFault::Failed { faults } => put_number(row, b"failed ", *faults),
    }
}

// The words of a cause, but for the name at their end.
fn put_front(row: &mut Row, why: &BootCause)
    requires { length row.old ≤ 40 }
    ensures value { row.new ≡ row.old ++ front_words why.now }
    ensures len { length row.new ≤ 200 }
{
    match why {
        BootCause::Gpt(fault) => {
            row.put(b"gpt ");
            put_gpt(row, fault);
        }
        BootCause::NoPart { name: _ } => row.put(b"nopart "),
        BootCause::Apk(fault) => {
            row.put(b"apk ");
            put_apk(row, fault);
        }
        BootCause::File(fault) => {
            row.put(b"file ");
            put_file(row, fault);
        }
        BootCause::Image(fault) => {
            row.put(b"image ");
            put_image(row, fault);
        }
        BootCause::Get(fault) => {
            row.put(b"get ");
            put_get(row, fault);
        }
        BootCause::Put(fault) => {
            row.put(b"put ");
            put_put(row, fault);
        }
        BootCause::NoEntropy { left } => put_number(row, b"noentropy ", *left),
        BootCause::MeasureText => row.put(b"measuretext"),
        BootCause::Failed { faults } => put_number(row, b"failed ", *faults),
        BootCause::Short { asked, got } => put_pair(row, b"short ", *asked, *got),
        BootCause::Memory => row.put(b"memory"),
    }
}

// The end line, but for the name and the line feed at its end.
fn front_of(fault: &BootFault) -> Row
    ensures value { result ≡ front fault.now }
    ensures len { length result ≤ 200 }
{
    let mut row = Row::new();
    row.put(b"end 8 boot ");
    row.number(fault.line);
    row.put(b" ");
    put_front(&mut row, &fault.why);
    row
}

// The name at the end of a cause's words, if any.
fn named(why: &BootCause) -> &[u8]
    ensures { result.now ≡ named why.now }
{
    match why {
        BootCause::NoPart { name } => name.as_bytes(),
        _ => b"",
    }
}

/// Writes the line of the log that a run ends with after a fault of boot: `end 8 boot`, the number of the line, and the words of
/// the cause. After `Failed` a front part of it was written. It takes no memory.
pub fn write_boot_end<L: Sink>(fault: &BootFault, log: &mut L) -> Result<(), Failed>
    ensures ok { OnOk result (Appends (L.holds log.old) (L.holds log.new) (boot_end fault.now)) }
    ensures err { OnErr result
        (SomePrefix (L.holds log.old) (L.holds log.new) (boot_end fault.now)) }
    ensures cause { HasCause (L.faults log.old) (L.faults log.new) result }
{
    let row = front_of(fault);
    match log.write_all(row.bytes()) {
        Ok(()) => {}
        Err(failed) => return Err(failed),
    }
    match log.write_all(named(&fault.why)) {
        Ok(()) => {}
        Err(failed) => return Err(failed),
    }
    log.write_all(b"\n")
}
