//! Where each slot stands in the block of a data page, and how it is written and read.

ghost use Rattle.std.specs.Prelude.{◌≡◌, ◌+◌, ◌*◌, ◌≤◌, ◌<◌, ℕ, None, length, drop, slice_index_or};
ghost use Rattle.sd_base.specs.Text.{put};
ghost use Rattle.page_image.specs.Slot.{slot_text, slot_of_text, FitsSlot};

use sd_base::{Block, Value, put_bytes};

/// Where a slot begins in a block.
fn slot_place(i: u8) -> usize
    requires { i ≤ 15 }
    ensures { result ≡ 64 + 252 * i }
{
    64 + 252 * i as usize
}

/// What is read at the place of a slot, whatever stands there.
pub fn slot_at(b: &Block, i: u8) -> Option<Value>
    requires { i ≤ 15 }
    ensures { result ≡ slot_of_text (drop (64 + 252 * i) b.now) }
{
    let at = slot_place(i);
    if b[at] == 0 {
        return None;
    }
    // A longer one is no slot: the text that is written of it differs from the block.
    let len = b[at + 1].min(248) as usize;
    Value::from_slice(&b[at + 4..at + 4 + len])
}

/// What is read at the places of all slots.
pub fn slots_at(b: &Block) -> [Option<Value>; 16]
    ensures { (k : ℕ) → k < 16 → slice_index_or result k None ≡ slot_of_text (drop (64 + 252 * k) b.now) }
{
    let mut slots = [None; 16];
    for i in 0..16 {
        slots[i as usize] = slot_at(b, i);
    }
    slots
}

/// The bytes of a slot that holds a value.
fn present_bytes(value: &Value) -> [u8; 252]
    ensures text { result ≡ slot_text (Some value.now) }
    ensures fits { FitsSlot (Some value.now) }
{
    let mut text = [0; 252];
    let bytes = value.as_slice();
    text[0] = 1;
    text[1] = bytes.len() as u8;
    put_bytes(&mut text, 4, bytes);
    text
}

/// The bytes of a slot.
fn slot_bytes(content: &Option<Value>) -> [u8; 252]
    ensures text { result ≡ slot_text content.now }
    ensures fits { FitsSlot content.now }
{
    match content {
        Some(value) => present_bytes(value),
        None => [0; 252],
    }
}

/// Writes a slot.
pub fn write_slot(out: &mut Block, i: u8, content: &Option<Value>)
    requires { i ≤ 15 }
    ensures text { out.new ≡ put (64 + 252 * i) (slot_text content.now) out.old }
    ensures fits { FitsSlot content.now }
{
    let bytes = slot_bytes(content);
    put_bytes(out, slot_place(i), &bytes);
}
