//! A node's log is found on the disk: its start in the anchor, and its end in the ring.

ghost use Rattle.std.specs.Prelude.{◌≡◌, ◌+◌, ◌*◌, ◌≤◌, ◌<◌, ◌^◌, ℕ, false, true, List, Some, length, IsTrue, OnOk, IfOk, IfErr};
ghost use Rattle.sd_base.specs.Disk.{IsPort};
ghost use Rattle.sd_base.specs.Calls.{Keeps, Narrows, NoNewWriter, KeepsForeign};
ghost use Rattle.sd_base.specs.Faults.{Caused, IsStopOf, OnStop, StaysLive};
ghost use Rattle.sd_base.specs.Anchors.{anchor_text, IsAnchorNumber};
ghost use Rattle.sd_base.specs.Shape.{IsShape};
ghost use Rattle.private_log.specs.Content.{region_of, place, IsLegal, LogContent, HasNoFuture, CountsRecords};
ghost use Rattle.private_log.specs.Spread.{IsStill};
ghost use Rattle.private_log.specs.Frames.{IsInReach};
ghost use Rattle.private_log.specs.Reading.{contents, IsLogFault, IsTold, ReadsLog};
ghost use Rattle.private_log.specs.Log.{region, IsLogOn};

use crate::block::{BLOCK_RECORDS, count_records};
use crate::log::Log;
use sd_base::{Block, DevFault, Disk, NodeId, Shape, parse_anchor, read_block};

/// Reads the anchor of a node: the number of the block that its log starts with.
fn read_start<D: Disk>(
    disk: &mut D,
    port: NodeId,
    s: &Shape,
    n: NodeId,
    block: &mut Block,
) -> Result<u64, DevFault>
    requires shape { IsShape s.now }
    requires node { (1 ≤ n.0) × (n.0 ≤ s.now.nodes) }
    requires port { IsPort port.0 }
    requires live { (D.state disk.old).live port.0 ≡ true }
    requires reach { IsInReach (region_of s.now n.0) (D.state disk.old).reach }
    ensures keeps { Keeps port.0 (D.state disk.old) (D.state disk.new) }
    ensures cause { IfErr result (λ fault. Caused fault (D.state disk.old) (D.state disk.new)) }
    ensures fault { IfErr result (IsLogFault (region_of s.now n.0) port.0) }
    ensures told { IsTrue D.told → IfErr result (IsTold (region_of s.now n.0) (contents (D.state disk.old).block)) }
    ensures live { StaysLive result ((D.state disk.new).live port.0 ≡ true) }
    ensures stopped { IfErr result (λ fault. OnStop fault ((D.state disk.new).live port.0 ≡ false)) }
    ensures outcomes { IsTrue D.told → Narrows (D.state disk.old).block (D.state disk.new).block }
    ensures writers { IsTrue D.told → NoNewWriter (D.state disk.old).block (D.state disk.new).block }
    ensures foreign { IsTrue D.told → KeepsForeign port.0 (D.state disk.old).block (D.state disk.new).block }
    ensures blocks { IsTrue D.told → StaysLive result ((D.state disk.new).block ≡ (D.state disk.old).block) }
    ensures legal { IsTrue D.told → (number : ℕ) → IsAnchorNumber number → contents (D.state disk.old).block (region_of s.now n.0).anchor ≡ Some (anchor_text false n.0 number) → IfErr result (IsStopOf port.0) }
    ensures number { IfOk result IsAnchorNumber }
    ensures anchor { IfOk result (λ start. IsTrue D.told → contents (D.state disk.old).block (region_of s.now n.0).anchor ≡ Some (anchor_text false n.0 start)) }
{
    let at = s.anchor_block(false, n);
    read_block(disk, port, at, block)?;
    match parse_anchor(block, false, n) {
        Some(start) => Ok(start),
        None => Err(DevFault::Damaged(at)),
    }
}

/// Reads the block at the place of a log block, and answers how many records of that log block are in
/// it: none where the log doesn't go on there.
fn read_count<D: Disk>(
    disk: &mut D,
    port: NodeId,
    s: &Shape,
    n: NodeId,
    number: u64,
    block: &mut Block,
) -> Result<u64, DevFault>
    requires shape { IsShape s.now }
    requires node { (1 ≤ n.0) × (n.0 ≤ s.now.nodes) }
    requires port { IsPort port.0 }
    requires live { (D.state disk.old).live port.0 ≡ true }
    requires reach { IsInReach (region_of s.now n.0) (D.state disk.old).reach }
    ensures keeps { Keeps port.0 (D.state disk.old) (D.state disk.new) }
    ensures cause { IfErr result (λ fault. Caused fault (D.state disk.old) (D.state disk.new)) }
    ensures fault { IfErr result (IsLogFault (region_of s.now n.0) port.0) }
    ensures told { IsTrue D.told → IfErr result (IsTold (region_of s.now n.0) (contents (D.state disk.old).block)) }
    ensures live { StaysLive result ((D.state disk.new).live port.0 ≡ true) }
    ensures stopped { IfErr result (λ fault. OnStop fault ((D.state disk.new).live port.0 ≡ false)) }
    ensures outcomes { IsTrue D.told → Narrows (D.state disk.old).block (D.state disk.new).block }
    ensures writers { IsTrue D.told → NoNewWriter (D.state disk.old).block (D.state disk.new).block }
    ensures foreign { IsTrue D.told → KeepsForeign port.0 (D.state disk.old).block (D.state disk.new).block }
    ensures blocks { IsTrue D.told → StaysLive result ((D.state disk.new).block ≡ (D.state disk.old).block) }
    ensures most { IfOk result (λ count. count ≤ 6) }
    ensures count { IfOk result (λ count. CountsRecords (region_of s.now n.0) number count block.new) }
    ensures read { OnOk result (IsTrue D.told → contents (D.state disk.old).block (place (region_of s.now n.0) number) ≡ Some block.new) }
    ensures legal { IsTrue D.told → IsLegal (region_of s.now n.0) number (contents (D.state disk.old).block (place (region_of s.now n.0) number)) → IfErr result (IsStopOf port.0) }
{
    let at = s.ring_block(n, number);
    read_block(disk, port, at, block)?;
    match count_records(block, n, s.ring, number) {
        Some(count) => Ok(count),
        None => Err(DevFault::Damaged(at)),
    }
}

/// Reads the ring of a node from the start of its log on, and answers the number of the record behind
/// the last one. In `block` it leaves the last block that was read.
fn read_ring<D: Disk>(
    disk: &mut D,
    port: NodeId,
    s: &Shape,
    n: NodeId,
    start: u64,
    block: &mut Block,
) -> Result<u64, DevFault>
    requires shape { IsShape s.now }
    requires node { (1 ≤ n.0) × (n.0 ≤ s.now.nodes) }
    requires start { IsAnchorNumber start }
    requires port { IsPort port.0 }
    requires live { (D.state disk.old).live port.0 ≡ true }
    requires reach { IsInReach (region_of s.now n.0) (D.state disk.old).reach }
    ensures keeps { Keeps port.0 (D.state disk.old) (D.state disk.new) }
    ensures cause { IfErr result (λ fault. Caused fault (D.state disk.old) (D.state disk.new)) }
    ensures fault { IfErr result (IsLogFault (region_of s.now n.0) port.0) }
    ensures told { IsTrue D.told → IfErr result (IsTold (region_of s.now n.0) (contents (D.state disk.old).block)) }
    ensures live { StaysLive result ((D.state disk.new).live port.0 ≡ true) }
    ensures stopped { IfErr result (λ fault. OnStop fault ((D.state disk.new).live port.0 ≡ false)) }
    ensures outcomes { IsTrue D.told → Narrows (D.state disk.old).block (D.state disk.new).block }
    ensures writers { IsTrue D.told → NoNewWriter (D.state disk.old).block (D.state disk.new).block }
    ensures foreign { IsTrue D.told → KeepsForeign port.0 (D.state disk.old).block (D.state disk.new).block }
    ensures blocks { IsTrue D.told → StaysLive result ((D.state disk.new).block ≡ (D.state disk.old).block) }
    ensures tail { IfOk result (λ tail. (6 * start ≤ tail) × (tail ≤ 6 * start + 6 * s.now.ring) × (tail ≤ 6 * 2 ^ 56)) }
    ensures log { IfOk result (λ tail. IsTrue D.told → contents (D.state disk.old).block (region_of s.now n.0).anchor ≡ Some (anchor_text false n.0 start)
        → ReadsLog (region_of s.now n.0) (contents (D.state disk.old).block) start tail block.new) }
    ensures legal { IsTrue D.told → (xs : List (List ℕ)) → LogContent (region_of s.now n.0) (contents (D.state disk.old).block) start xs → IfErr result (IsStopOf port.0) }
{
    for k in 0..s.ring {
        let number = start + u64::from(k);
        let count = read_count(disk, port, s, n, number, block)?;
        if count < BLOCK_RECORDS {
            return Ok(BLOCK_RECORDS * number + count);
        }
    }
    Ok(BLOCK_RECORDS * (start + u64::from(s.ring)))
}

impl Log {
    /// Reads the log of a node from its anchor and its ring.
    ///
    /// It answers `Damaged` where a block that it reads may not stand at its place, and `Lost` where one
    /// is lost.
    pub fn attach<D: Disk>(
        disk: &mut D,
        s: &Shape,
        n: NodeId,
        port: NodeId,
    ) -> Result<Log, DevFault>
        requires shape { IsShape s.now }
        requires node { (1 ≤ n.0) × (n.0 ≤ s.now.nodes) }
        requires port { IsPort port.0 }
        requires live { (D.state disk.old).live port.0 ≡ true }
        requires reach { IsInReach (region_of s.now n.0) (D.state disk.old).reach }
        ensures keeps { Keeps port.0 (D.state disk.old) (D.state disk.new) }
        ensures cause { IfErr result (λ fault. Caused fault (D.state disk.old) (D.state disk.new)) }
        ensures fault { IfErr result (IsLogFault (region_of s.now n.0) port.0) }
        ensures told { IsTrue D.told → IfErr result (IsTold (region_of s.now n.0) (contents (D.state disk.old).block)) }
        ensures legal { IsTrue D.told → (start : ℕ) (xs : List (List ℕ)) → LogContent (region_of s.now n.0) (contents (D.state disk.old).block) start xs → IfErr result (IsStopOf port.0) }
        ensures live { StaysLive result ((D.state disk.new).live port.0 ≡ true) }
        ensures stopped { IfErr result (λ fault. OnStop fault ((D.state disk.new).live port.0 ≡ false)) }
        ensures outcomes { IsTrue D.told → Narrows (D.state disk.old).block (D.state disk.new).block }
        ensures writers { IsTrue D.told → NoNewWriter (D.state disk.old).block (D.state disk.new).block }
        ensures foreign { IsTrue D.told → KeepsForeign port.0 (D.state disk.old).block (D.state disk.new).block }
        ensures blocks { IsTrue D.told → StaysLive result ((D.state disk.new).block ≡ (D.state disk.old).block) }
        ensures shape { IfOk result (λ log. log.shape ≡ s.now) }
        ensures node { IfOk result (λ log. log.node ≡ n) }
        ensures stable { IfOk result (λ log. log.stable ≡ log.tail) }
        ensures log { IfOk result (λ log. IsTrue D.told → ReadsLog (region_of s.now n.0) (contents (D.state disk.old).block) log.start log.tail log.block) }
        ensures on { IfOk result (λ log. IsTrue D.told → (start : ℕ) (xs : List (List ℕ)) → IsStill (region log) (D.state disk.old).block
            → LogContent (region log) (contents (D.state disk.old).block) start xs → HasNoFuture (region log) (contents (D.state disk.old).block) start xs → IsLogOn log (D.state disk.new).block xs) }
    {
        let mut block = [0; 4096];
        let start = read_start(disk, port, s, n, &mut block)?;
        let tail = read_ring(disk, port, s, n, start, &mut block)?;
        Ok(Log {
            shape: *s,
            node: n,
            start,
            tail,
            stable: tail,
            block,
        })
    }
}
