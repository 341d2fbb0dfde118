//! Bytes and numbers are put into a text, and numbers are read from it.

ghost use Rattle.std.specs.Prelude.{◌≡◌, ◌+◌, ◌≤◌, length};
ghost use Rattle.byteorder.specs.Endian.{big_bytes};
ghost use Rattle.sd_base.specs.Text.{put, number_at};

use byteorder::{BigEndian, ByteOrder};

/// Puts bytes into a text.
#[tactic(auto, unfolding(crate::specs::Text::put))]
pub fn put_bytes(out: &mut [u8], at: usize, bytes: &[u8])
    requires { at + length bytes.now ≤ length out.old }
    ensures { out.new ≡ put at bytes.now out.old }
{
    out[at..at + bytes.len()].copy_from_slice(bytes);
}

/// Puts a number into four bytes of a text, the highest byte first.
#[tactic(auto, unfolding(crate::specs::Text::put))]
pub fn put_u32(out: &mut [u8], at: usize, n: u32)
    requires { at + 4 ≤ length out.old }
    ensures { out.new ≡ put at (big_bytes 4 n) out.old }
{
    BigEndian::write_u32(&mut out[at..at + 4], n);
}

/// Puts a number into eight bytes of a text, the highest byte first.
#[tactic(auto, unfolding(crate::specs::Text::put))]
pub fn put_u64(out: &mut [u8], at: usize, n: u64)
    requires { at + 8 ≤ length out.old }
    ensures { out.new ≡ put at (big_bytes 8 n) out.old }
{
    BigEndian::write_u64(&mut out[at..at + 8], n);
}

/// The number in four bytes of a text.
pub fn u32_at(text: &[u8], at: usize) -> u32
    requires { at + 4 ≤ length text.now }
    ensures { result ≡ number_at 4 at text.now }
{
    BigEndian::read_u32(&text[at..])
}

/// The number in eight bytes of a text.
pub fn u64_at(text: &[u8], at: usize) -> u64
    requires { at + 8 ≤ length text.now }
    ensures { result ≡ number_at 8 at text.now }
{
    BigEndian::read_u64(&text[at..])
}
