//! Numbers are read in the one spelling that each has.

ghost use Rattle.std.specs.Prelude.{◌≡◌, ◌<◌, ◌≤◌, ◌^◌, ◌↔◌, ℕ, decimal, IfSome, IsTrue};
ghost use Rattle.script_text.specs.Words.{IsWithin};

use itoa::Buffer;

/// The number from `low` to `high` that these digits spell. A number has one spelling: decimal
/// digits without a sign and without a leading zero.
pub fn read_number(digits: &[u8], low: u64, high: u64) -> Option<u64>
    ensures found { IfSome result (λ n. IsWithin low high n × (digits.now ≡ decimal n)) }
    ensures only { (n : ℕ) → IsWithin low high n → digits.now ≡ decimal n → result ≡ Some n }
{
    match parse(digits) {
        Some(number) if is_number_in(number, low, high) && is_spelled(number, digits) => Some(
            number,
        ),
        _ => None,
    }
}

fn is_number_in(number: u64, low: u64, high: u64) -> bool
    ensures { IsTrue result ↔ IsWithin low high number }
{
    low <= number && number <= high
}

/// Whether these are the digits of the number.
fn is_spelled(number: u64, digits: &[u8]) -> bool
    ensures { IsTrue result ↔ (digits.now ≡ decimal number) }
{
    let mut buffer = Buffer::new();
    buffer.format(number).as_bytes() == digits
}

/// The number that the text reads as. The parser of std takes a sign and leading zeros too.
fn parse(digits: &[u8]) -> Option<u64>
    ensures { (n : ℕ) → n < 2 ^ 64 → digits.now ≡ decimal n → result ≡ Some n }
{
    match str::from_utf8(digits) {
        Ok(text) => text.parse::<u64>().ok(),
        Err(_) => None,
    }
}
