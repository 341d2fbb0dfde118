//! How the bytes of a value are spelled in printable characters, and how they are read back.

ghost use Rattle.std.specs.Prelude.{◌≡◌, ◌/◌, ◌%◌, ◌<◌, ◌++◌, ℕ, false, List, IfSome, length};
ghost use Rattle.script_text.specs.Spelling.{is_plain, hex_digit, spelled_byte, spelled, AreBytes, IsValue, SpellsByte};

use arrayvec::ArrayVec;
use sd_base::Value;

/// A spelled value is read back: no two values have one spelling.
pub fn law_of_one_spelling()
    ensures { (v w : List ℕ) → AreBytes v → AreBytes w → spelled v ≡ spelled w → v ≡ w }
{}

/// Whether a byte stands for itself.
pub(crate) fn is_plain(b: u8) -> bool
    ensures { result ≡ is_plain b }
{
    (0x20..=0x7e).contains(&b) && b != b'\\'
}

/// The digit of a number below 16.
pub(crate) fn hex_digit(n: u8) -> u8
    requires { n < 16 }
    ensures { result ≡ hex_digit n }
{
    if n < 10 { b'0' + n } else { b'a' - 10 + n }
}

/// The number that a lower-case hexadecimal digit stands for.
fn hex_value(digit: u8) -> Option<u8>
    ensures found { IfSome result (λ n. (n < 16) × (digit ≡ hex_digit n)) }
    ensures only { (n : ℕ) → n < 16 → digit ≡ hex_digit n → result ≡ Some n }
{
    match digit {
        b'0'..=b'9' => Some(digit - b'0'),
        b'a'..=b'f' => Some(digit - b'a' + 10),
        _ => None,
    }
}

/// The byte whose spelling a text begins with, and the length of that.
fn read_byte(text: &[u8]) -> Option<(u8, usize)>
    requires { 0 < length text.now }
    ensures found { IfSome result (λ read. SpellsByte text.now read.0 read.1) }
    ensures only { (b : ℕ) (rest : List ℕ) → b < 256 → text.now ≡ spelled_byte b ++ rest → result ≡ Some (b, length (spelled_byte b)) }
{
    if is_plain(text[0]) {
        return Some((text[0], 1));
    }
    if text.len() < 4 || text[0] != b'\\' || text[1] != b'x' {
        return None;
    }
    let b = escaped(text[2], text[3])?;
    Some((b, 4))
}

/// The byte that two digits spell, unless it stands for itself.
fn escaped(high: u8, low: u8) -> Option<u8>
    ensures found { IfSome result (λ b. (b < 256) × (is_plain b ≡ false) × (high ≡ hex_digit (b / 16)) × (low ≡ hex_digit (b % 16))) }
    ensures only { (b : ℕ) → b < 256 → is_plain b ≡ false → high ≡ hex_digit (b / 16) → low ≡ hex_digit (b % 16) → result ≡ Some b }
{
    let b = 16 * hex_value(high)? + hex_value(low)?;
    if is_plain(b) { None } else { Some(b) }
}

/// The value that a text spells.
pub fn read_value(text: &[u8]) -> Option<Value>
    ensures found { IfSome result (λ v. IsValue v × (text.now ≡ spelled v)) }
    ensures only { (v : List ℕ) → IsValue v → text.now ≡ spelled v → result ≡ Some v }
{
    let mut bytes: ArrayVec<u8, 248> = ArrayVec::new();
    let mut at = 0;
    while at < text.len() {
        let Some((b, len)) = read_byte(&text[at..]) else {
            return None;
        };
        if bytes.is_full() {
            return None;
        }
        bytes.push(b);
        at += len;
    }
    Value::from_slice(bytes.as_slice())
}
