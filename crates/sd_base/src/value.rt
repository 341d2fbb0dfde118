//! The value of a record: at most 248 bytes.

ghost use Rattle.std.specs.Prelude.{◌≡◌, ◌+◌, ◌<◌, ◌≤◌, ◌↔◌, [], ◌++◌, length, take, IsNone, IfSome};

use crate::text::put_bytes;
use std::marker::Model;

/// The value of a record: at most 248 bytes. A contract sees it as the list of its bytes.
#[derive(Clone, Copy, Debug, PartialEq, Eq)]
pub struct Value {
    len: u8,
    bytes: [u8; 248],
}

impl Model for Value {
    ghost use Rattle.std.specs.Prelude.{◌≡◌, ◌≤◌, ◌-◌, ◌++◌, ℕ, List, length, take, drop, replicate};
    ghost use Rattle.sd_base.specs.Padded.{padded_is};

    ghost Value = { List ℕ };

    ghost view = { λ v. take v.len v.bytes };

    // The bytes past the value are zero, so each value is kept in one way.
    ghost invariant = { λ v. (v.len ≤ 248) × (length v.bytes ≡ 248) × (drop v.len v.bytes ≡ replicate (248 - v.len) 0) };

    ghost inverse = { λ bytes. record { len = length bytes; bytes = bytes ++ replicate (248 - length bytes) 0 } };

    ghost inverse_ok = { λ a h. λ i. record { len = (padded_is 248 a.len a.bytes h.0 h.1 h.2).0 i; bytes = (padded_is 248 a.len a.bytes h.0 h.1 h.2).1 i } };
}

/// The value of the bytes of two parts.
fn of_parts(front: &[u8], back: &[u8]) -> Value
    requires { length front.now + length back.now ≤ 248 }
    ensures { result ≡ front.now ++ back.now }
{
    let mut bytes = [0; 248];
    put_bytes(&mut bytes, 0, front);
    put_bytes(&mut bytes, front.len(), back);
    Value {
        len: (front.len() + back.len()) as u8,
        bytes,
    }
}

impl Value {
    /// The longest value, in bytes.
    pub const MAX_LEN: usize = 248;

    /// The value of no bytes.
    pub fn empty() -> Value
        ensures { result ≡ [] }
    {
        of_parts(&[], &[])
    }

    /// The value of these bytes, unless they are too many.
    pub fn from_slice(s: &[u8]) -> Option<Value>
        ensures long { IsNone result ↔ (248 < length s.now) }
        ensures value { IfSome result (λ v. v ≡ s.now) }
    {
        if s.len() > Value::MAX_LEN {
            return None;
        }
        Some(of_parts(s, &[]))
    }

    /// The bytes of the value.
    pub fn as_slice(&self) -> &[u8]
        ensures bytes { result.now ≡ self.now }
        ensures short { length self.now ≤ 248 }
    {
        &self.bytes[..self.len as usize]
    }

    /// The first `len` bytes of the value, or all of a shorter one.
    pub fn prefix(&self, len: u8) -> Value
        ensures { result ≡ take len self.now }
    {
        let kept = self.len.min(len);
        of_parts(&self.bytes[..kept as usize], &[])
    }

    /// The bytes of the value, and these behind them. What is past 248 bytes is dropped.
    pub fn join(&self, more: &Value) -> Value
        ensures { result ≡ take 248 (self.now ++ more.now) }
    {
        let bytes = self.as_slice();
        let room = Value::MAX_LEN - bytes.len();
        of_parts(bytes, more.prefix(room as u8).as_slice())
    }
}
