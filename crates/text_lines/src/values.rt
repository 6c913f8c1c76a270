// The values that fields spell.

ghost use Rattle.std.specs.Prelude.{◌≡◌, ℕ, ◌*◌, ◌<◌, ◌≤◌, ◌^◌, List, length, MatchOption, MatchResult, IfOk, IfErr, Ok, true};
ghost use Rattle.text_lines.specs.declared.kinds.LineFault.TheVariants.{Memory};
ghost use Rattle.std.specs.Str.{all_ascii_digits};
ghost use Rattle.std.specs.Str.Parse.{digits_value};
ghost use Rattle.std.specs.List.{list_all};
ghost use Rattle.std.specs.Fmt.{decimal};
ghost use Rattle.hex.specs.Hex.{encode_lower};
ghost use Rattle.text_lines.specs.Spelling.{IsHexed, IsSalt, salt_text};
ghost use Rattle.text_lines.specs.Fields.{Gives, Fails, IsKind};
ghost use Rattle.text_lines.specs.Values.{is_number, number_in, hex_of, page_salt, is_printed, is_name_byte, is_name, name_of, is_part, part_of, is_folder_name, folder_name_of};

use crate::kinds::{LineFault, Name, PlanKind};
use mg_base::Salt;
use std::alloc::Global;

fn all_digits(text: &[u8]) -> bool
    ensures { result ≡ all_ascii_digits text.now }
{
    for b in text {
        if !b.is_ascii_digit() {
            return false;
        }
    }
    true
}

/// Whether the text has the form of a number.
fn is_number(text: &[u8]) -> bool
    ensures { result ≡ is_number text.now }
{
    if !all_digits(text) {
        return false;
    }
    if text.is_empty() {
        return false;
    }
    if text[0] != b'0' {
        return true;
    }
    text.len() == 1
}

// The value of digits, where 64 bits have room for it.
fn value_of(text: &[u8]) -> Option<u64>
    requires digits { all_ascii_digits text.now ≡ true }
    requires some { 0 < length text.now }
    ensures { MatchOption result (2 ^ 64 ≤ digits_value 10 text.now)
        (λ n. n ≡ digits_value 10 text.now) }
{
    match str::from_utf8(text) {
        Ok(text) => match text.parse::<u64>() {
            Ok(n) => Some(n),
            Err(_) => None,
        },
        Err(_) => None,
    }
}

#[tactic(auto, unfolding(crate::specs::Values::number_in))]
fn parse_number64(text: &[u8]) -> Result<u64, LineFault>
    ensures value { Gives (λ n. n) result (number_in 0 (2 ^ 64) text.now) }
    ensures kind { IfErr result IsKind }
{
    if !is_number(text) {
        return Err(LineFault::Kind(PlanKind::Number));
    }
    match value_of(text) {
        Some(n) => Ok(n),
        None => Err(LineFault::Kind(PlanKind::Range)),
    }
}

#[tactic(auto, unfolding(crate::specs::Values::number_in))]
fn parse_number(low: u64, limit: u64, text: &[u8]) -> Result<u64, LineFault>
    ensures value { Gives (λ n. n) result (number_in low limit text.now) }
    ensures kind { IfErr result IsKind }
{
    let n = parse_number64(text)?;
    if n < low || limit <= n {
        return Err(LineFault::Kind(PlanKind::Range));
    }
    Ok(n)
}

/// The bytes that the text has the digits of, in lower case; as many as there is room for.
#[tactic(auto, unfolding(crate::specs::Values::hex_of))]
pub fn read_hex(text: &[u8], out: &mut [u8]) -> Result<(), LineFault>
    requires { length out.old ≤ 64 }
    ensures value { MatchResult result (λ _. hex_of (length out.old) text.now ≡ Ok out.new)
        (λ e. Fails e (hex_of (length out.old) text.now)) }
    ensures kind { IfErr result IsKind }
{
    if hex::decode_to_slice(text, out).is_err() {
        return Err(LineFault::Kind(PlanKind::Hex));
    }
    let mut room = [0u8; 128];
    let again = &mut room[..2 * out.len()];
    let bytes: &[u8] = out;
    if hex::encode_to_slice(bytes, again).is_err() {
        return Err(LineFault::Kind(PlanKind::Hex));
    }
    let digits: &[u8] = again;
    if digits != text {
        return Err(LineFault::Kind(PlanKind::Hex));
    }
    Ok(())
}

fn parse_hex32(text: &[u8]) -> Result<[u8; 32], LineFault>
    ensures value { Gives (λ b. b) result (hex_of 32 text.now) }
    ensures kind { IfErr result IsKind }
{
    let mut bytes = [0u8; 32];
    read_hex(text, &mut bytes)?;
    Ok(bytes)
}

fn parse_hex64(text: &[u8]) -> Result<[u8; 64], LineFault>
    ensures value { Gives (λ b. b) result (hex_of 64 text.now) }
    ensures kind { IfErr result IsKind }
{
    let mut bytes = [0u8; 64];
    read_hex(text, &mut bytes)?;
    Ok(bytes)
}

#[tactic(auto, unfolding(crate::specs::Values::page_salt))]
fn parse_salt(text: &[u8]) -> Result<Salt, LineFault>
    ensures value { Gives (λ s. s) result (page_salt text.now) }
    ensures kind { IfErr result IsKind }
{
    if text == b"-".as_slice() {
        return Ok(Salt::none());
    }
    if text.len() < 2 || text.len() > 64 {
        return Err(LineFault::Kind(PlanKind::Hex));
    }
    let mut room = [0u8; 32];
    let bytes = &mut room[..text.len() / 2];
    read_hex(text, bytes)?;
    match Salt::new(bytes) {
        Some(salt) => Ok(salt),
        None => Err(LineFault::Kind(PlanKind::Hex)),
    }
}

fn is_printed(b: u8) -> bool
    ensures { result ≡ is_printed b }
{
    32 < b && b < 127
}

fn is_name_byte(b: u8) -> bool
    ensures { result ≡ is_name_byte b }
{
    is_printed(b) && b != b'/'
}

fn all_printed(text: &[u8]) -> bool
    ensures { result ≡ list_all is_printed text.now }
{
    for b in text {
        if !is_printed(*b) {
            return false;
        }
    }
    true
}

fn all_name_bytes(text: &[u8]) -> bool
    ensures { result ≡ list_all is_name_byte text.now }
{
    for b in text {
        if !is_name_byte(*b) {
            return false;
        }
    }
    true
}

/// Whether the text can be the name of a directory's entry.
fn is_name(text: &[u8]) -> bool
    ensures { result ≡ is_name text.now }
{
    if text.is_empty() || 255 < text.len() {
        return false;
    }
    if !all_name_bytes(text) {
        return false;
    }
    if text == b".".as_slice() {
        return false;
    }
    text != b"..".as_slice()
}

/// Whether the text can be the name of a partition.
fn is_part(text: &[u8]) -> bool
    ensures { result ≡ is_part text.now }
{
    if text.is_empty() || 36 < text.len() {
        return false;
    }
    all_name_bytes(text)
}

/// Whether the text can be the name of a file in the folder.
fn is_folder_name(text: &[u8]) -> bool
    ensures { result ≡ is_folder_name text.now }
{
    if text.is_empty() || 255 < text.len() {
        return false;
    }
    all_printed(text)
}

/// A copy of the text.
fn copied(alloc: Global, text: &[u8]) -> Result<Name, LineFault>
    requires { list_all is_printed text.now ≡ true }
    ensures value { IfOk result (λ n. n ≡ text.now) }
    ensures err { IfErr result (λ e. e ≡ Memory) }
{
    match str::from_utf8(text) {
        Ok(text) => Ok(Name::new(String::from_str(alloc, text)?)),
        Err(_) => Err(LineFault::Memory),
    }
}

/// The name of a directory's entry: 1 to 255 bytes from 0x21 to 0x7E without `/`, and neither `.` nor `..`.
#[tactic(auto, unfolding(crate::specs::Values::name_of))]
pub fn name_of(alloc: Global, text: &[u8]) -> Result<Name, LineFault>
    ensures value { Gives (λ n. n) result (name_of text.now) }
    ensures found { IfOk result (λ n. (n ≡ text.now) × (is_name n ≡ true)) }
{
    if !is_name(text) {
        return Err(LineFault::Kind(PlanKind::Name));
    }
    copied(alloc, text)
}

/// The name of a partition: 1 to 36 bytes from 0x21 to 0x7E without `/`.
#[tactic(auto, unfolding(crate::specs::Values::part_of))]
pub fn part_of(alloc: Global, text: &[u8]) -> Result<Name, LineFault>
    ensures value { Gives (λ n. n) result (part_of text.now) }
    ensures found { IfOk result (λ n. (n ≡ text.now) × (is_part n ≡ true)) }
{
    if !is_part(text) {
        return Err(LineFault::Kind(PlanKind::Name));
    }
    copied(alloc, text)
}

/// The name of a file in the folder: 1 to 255 bytes from 0x21 to 0x7E.
#[tactic(auto, unfolding(crate::specs::Values::folder_name_of))]
pub fn folder_name_of(alloc: Global, text: &[u8]) -> Result<Name, LineFault>
    ensures value { Gives (λ n. n) result (folder_name_of text.now) }
    ensures found { IfOk result (λ n. (n ≡ text.now) × (is_folder_name n ≡ true)) }
{
    if !is_folder_name(text) {
        return Err(LineFault::Kind(PlanKind::Name));
    }
    copied(alloc, text)
}

/// A number from `low` on, below `limit`.
pub fn number_in(low: u64, limit: u64, text: &[u8]) -> Result<u64, LineFault>
    // The value, or the first rule broken.
    ensures value { Gives (λ n. n) result (number_in low limit text.now) }
    // What is read is spelled so.
    ensures found { IfOk result (λ n. (text.now ≡ decimal n) × (low ≤ n) × (n < limit)) }
    // What is spelled so is read.
    ensures only { (n : ℕ) → text.now ≡ decimal n → low ≤ n → n < limit
        → Gives (λ m. m) result (Ok n) }
    // It takes no memory.
    ensures kind { IfErr result IsKind }
{
    parse_number(low, limit, text)
}

/// A number that 64 bits have room for.
pub fn number64(text: &[u8]) -> Result<u64, LineFault>
    // The value, or the first rule broken.
    ensures value { Gives (λ n. n) result (number_in 0 (2 ^ 64) text.now) }
    // What is read is spelled so.
    ensures found { IfOk result (λ n. text.now ≡ decimal n) }
    // What is spelled so is read.
    ensures only { (n : ℕ) → text.now ≡ decimal n → n < 2 ^ 64 → Gives (λ m. m) result (Ok n) }
    // It takes no memory.
    ensures kind { IfErr result IsKind }
{
    parse_number64(text)
}

/// 32 bytes as digits.
pub fn hex32(text: &[u8]) -> Result<[u8; 32], LineFault>
    // The value, or the first rule broken.
    ensures value { Gives (λ b. b) result (hex_of 32 text.now) }
    // What is read is spelled so.
    ensures found { IfOk result (λ b. text.now ≡ encode_lower b) }
    // What is spelled so is read.
    ensures only { (b : List ℕ) → IsHexed 32 b → text.now ≡ encode_lower b
        → Gives (λ x. x) result (Ok b) }
    // It takes no memory.
    ensures kind { IfErr result IsKind }
{
    parse_hex32(text)
}

/// 64 bytes as digits.
pub fn hex64(text: &[u8]) -> Result<[u8; 64], LineFault>
    // The value, or the first rule broken.
    ensures value { Gives (λ b. b) result (hex_of 64 text.now) }
    // What is read is spelled so.
    ensures found { IfOk result (λ b. text.now ≡ encode_lower b) }
    // What is spelled so is read.
    ensures only { (b : List ℕ) → IsHexed 64 b → text.now ≡ encode_lower b
        → Gives (λ x. x) result (Ok b) }
    // It takes no memory.
    ensures kind { IfErr result IsKind }
{
    parse_hex64(text)
}

/// The salt of a device's pages: `-` for none, or the digits of 1 to 32 bytes.
pub fn page_salt(text: &[u8]) -> Result<Salt, LineFault>
    // The value, or the first rule broken.
    ensures value { Gives (λ s. s) result (page_salt text.now) }
    // What is read is spelled so.
    ensures found { IfOk result (λ s. IsSalt s × (text.now ≡ salt_text s)) }
    // What is spelled so is read.
    ensures only { (s : List ℕ) → IsSalt s → text.now ≡ salt_text s
        → Gives (λ x. x) result (Ok s) }
    // It takes no memory.
    ensures kind { IfErr result IsKind }
{
    parse_salt(text)
}
