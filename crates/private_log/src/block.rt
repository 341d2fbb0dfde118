//! The text of a log block: a header, and up to six records.

ghost use Rattle.std.specs.Prelude.{◌≡◌, ◌≢◌, ◌+◌, ◌*◌, ◌<◌, ◌≤◌, ℕ, List, [], ◌∷◌, ◌++◌, length, slice_index_or, false, None, IfSome, IsTrue, Some};
ghost use Rattle.sd_base.specs.Text.{bytes_at};
ghost use Rattle.private_log.specs.LogBlock.{log_header, log_block, AreRecords, FitsBlock};
ghost use Rattle.private_log.specs.Content.{Region, IsLegal, CountsRecords};

use sd_base::{Block, NodeId, put_bytes, put_u64, u64_at};

/// How many records a log block has room for.
pub(crate) const BLOCK_RECORDS: u64 = 6;

/// The length of the text of a record.
const RECORD_LEN: usize = 672;

/// Where the first record of a log block stands.
const FIRST_RECORD: usize = 64;

/// The numbers of log blocks are below this.
const BLOCK_LIMIT: u64 = 1 << 56;

/// What a log block has in front of its records.
#[derive(Clone, Copy)]
struct Header {
    number: u64,
    count: u8,
}

/// The bytes of a block from a place on.
fn part(block: &Block, at: usize, len: usize) -> &[u8]
    requires { at + len ≤ 4096 }
    ensures bytes { result.now ≡ bytes_at len at block.now }
    ensures length { length result.now ≡ len }
{
    &block[at..at + len]
}

/// Writes what stands in front of the records of a log block, and no record.
fn write_header(node: NodeId, number: u64, count: u8, out: &mut Block)
    ensures { out.new ≡ log_header node.0 number count }
{
    *out = [0; 4096];
    put_bytes(out, 0, b"SDLOGBLK");
    put_bytes(out, 8, &[node.0, count]);
    put_u64(out, 16, number);
}

/// Begins a log block: it has no record yet.
pub(crate) fn begin_block(node: NodeId, number: u64, out: &mut Block)
    ensures { out.new ≡ log_block node.0 number [] }
{
    write_header(node, number, 0, out);
}

/// Puts a record behind the first `count` records of a log block.
pub(crate) fn put_record(out: &mut Block, count: usize, text: &[u8; 672])
    requires { count < 6 }
    ensures { (node number : ℕ) (records : List (List ℕ)) → AreRecords records → length records ≡ count → out.old ≡ log_block node number records → out.new ≡ log_block node number (records ++ text.now ∷ []) }
{
    put_bytes(out, 9, &[count as u8 + 1]);
    put_bytes(out, FIRST_RECORD + RECORD_LEN * count, text);
}

/// Copies the record at a place of a log block, for a place from 0 to 5.
pub(crate) fn copy_record(block: &Block, place: usize, out: &mut [u8; 672])
    requires { place < 6 }
    ensures { (node number : ℕ) (records : List (List ℕ)) → FitsBlock number records → place < length records → block.now ≡ log_block node number records → out.new ≡ slice_index_or records place [] }
{
    let record = part(block, FIRST_RECORD + RECORD_LEN * place, RECORD_LEN);
    out.copy_from_slice(record);
}

/// Reads the front of a log block of a node. `None` exactly where the block isn't one.
fn parse_header(block: &Block, node: NodeId) -> Option<Header>
    ensures found { IfSome result (λ h. (records : List (List ℕ)) × FitsBlock h.number records × (length records ≡ h.count) × (block.now ≡ log_block node.0 h.number records)) }
    ensures only { (number : ℕ) (records : List (List ℕ)) → FitsBlock number records → block.now ≡ log_block node.0 number records → IfSome result (λ h. (h.number ≡ number) × (h.count ≡ length records)) }
    ensures none { result ≡ None → (number : ℕ) (records : List (List ℕ)) → FitsBlock number records → block.now ≢ log_block node.0 number records }
{
    let number = u64_at(block, 16);
    let count = block[9];
    if number >= BLOCK_LIMIT || count == 0 || count > 6 {
        return None;
    }
    let mut text = [0; 4096];
    write_header(node, number, count, &mut text);
    let records = part(block, FIRST_RECORD, RECORD_LEN * count as usize);
    put_bytes(&mut text, FIRST_RECORD, records);
    if text == *block {
        Some(Header { number, count })
    } else {
        None
    }
}

/// How many records of the log block with this number a block at its place in the ring has: none
/// where the log doesn't go on there. `None` exactly where the block may not stand at that place.
pub(crate) fn count_records(block: &Block, node: NodeId, ring: u32, number: u64) -> Option<u64>
    requires { 0 < ring }
    ensures found { (g : Region) → g.node ≡ node.0 → g.ring ≡ ring → IfSome result (λ count. CountsRecords g number count block.now) }
    ensures none { (g : Region) → g.node ≡ node.0 → g.ring ≡ ring → result ≡ None → ¬ (IsLegal g number (Some block.now)) }
{
    if *block == [0; 4096] {
        return Some(0);
    }
    let header = parse_header(block, node)?;
    if header.number == number {
        return Some(u64::from(header.count));
    }
    let ring = u64::from(ring);
    if header.number % ring == number % ring {
        Some(0)
    } else {
        None
    }
}

/// Whether a block is the log block of a node with this number, and has a record at this place.
pub(crate) fn holds_record(block: &Block, node: NodeId, number: u64, place: usize) -> bool
    requires { place < 6 }
    ensures holds { IsTrue result → (records : List (List ℕ)) × FitsBlock number records × (place < length records) × (block.now ≡ log_block node.0 number records) }
    ensures only { result ≡ false → (records : List (List ℕ)) → FitsBlock number records → place < length records → block.now ≢ log_block node.0 number records }
{
    match parse_header(block, node) {
        Some(header) => header.number == number && place < header.count as usize,
        None => false,
    }
}
