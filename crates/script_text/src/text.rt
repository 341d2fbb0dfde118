//! The text of a reply, to which bytes, numbers and spelled bytes are added.

ghost use Rattle.std.specs.Prelude.{◌≡◌, ◌+◌, ◌*◌, ◌≤◌, ◌++◌, length, decimal};
ghost use Rattle.arrayvec.specs.ArrayVec.{array_vec_len};
ghost use Rattle.script_text.specs.Spelling.{spelled, spelled_byte};

use crate::spelling::{hex_digit, is_plain};
use arrayvec::ArrayVec;
use itoa::Buffer;

/// Room for the text of the longest reply.
pub type ReplyText = ArrayVec<u8, 1100>;

/// Writes bytes behind a text that has room for them.
pub fn put_text(out: &mut ReplyText, text: &[u8])
    requires { array_vec_len out.old + length text.now ≤ 1100 }
    ensures items { out.new.items ≡ out.old.items ++ text.now }
    ensures len { array_vec_len out.new ≡ array_vec_len out.old + length text.now }
{
    out.try_extend_from_slice(text).unwrap();
}

/// Writes a number in decimal digits, at most twenty.
pub fn put_number(out: &mut ReplyText, n: u64)
    requires { array_vec_len out.old + 20 ≤ 1100 }
    ensures items { out.new.items ≡ out.old.items ++ decimal n }
    ensures len { array_vec_len out.new ≤ array_vec_len out.old + 20 }
{
    let mut buffer = Buffer::new();
    put_text(out, buffer.format(n).as_bytes());
}

/// Writes the spelling of bytes.
pub fn put_spelled(out: &mut ReplyText, bytes: &[u8])
    requires { array_vec_len out.old + 4 * length bytes.now ≤ 1100 }
    ensures items { out.new.items ≡ out.old.items ++ spelled bytes.now }
    ensures len { array_vec_len out.new ≤ array_vec_len out.old + 4 * length bytes.now }
{
    for b in bytes {
        put_byte(out, *b);
    }
}

/// Writes the spelling of a byte.
fn put_byte(out: &mut ReplyText, b: u8)
    requires { array_vec_len out.old + 4 ≤ 1100 }
    ensures items { out.new.items ≡ out.old.items ++ spelled_byte b }
    ensures len { array_vec_len out.new ≤ array_vec_len out.old + 4 }
{
    if is_plain(b) {
        out.push(b);
    } else {
        put_text(out, &[b'\\', b'x', hex_digit(b / 16), hex_digit(b % 16)]);
    }
}
