//! A record of the log is read by its number, from memory or from its block.

ghost use Rattle.std.specs.Prelude.{◌≡◌, ◌≢◌, ◌-◌, ◌*◌, ◌/◌, ◌%◌, ◌≤◌, ◌<◌, ℕ, true, false, [], List, slice_index_or, IsTrue, IsOk, OnOk, OnErr, IfErr};
ghost use Rattle.sd_base.specs.Disk.{IsPort};
ghost use Rattle.sd_base.specs.Calls.{Keeps, Narrows, NoNewWriter, KeepsForeign};
ghost use Rattle.sd_base.specs.Faults.{Caused, IsStopOf, OnStop, StaysLive};
ghost use Rattle.private_log.specs.Spread.{IsFreeRegion, IsStill};
ghost use Rattle.private_log.specs.Frames.{IsInReach};
ghost use Rattle.private_log.specs.Reading.{contents, IsLogFault, IsToldOf, ReadsLog};
ghost use Rattle.private_log.specs.Log.{region, IsLogOn};

use crate::block::{BLOCK_RECORDS, copy_record, holds_record};
use crate::log::Log;
use sd_base::{DevFault, Disk, NodeId, read_block};

impl Log {
    /// Reads a record of the log, from `6 * start()` to `tail()`.
    ///
    /// Records of the last block, unless it is full, are read from memory. It answers `Damaged` where the
    /// record's block isn't the log block that should stand there, and `Lost` where it is lost.
    pub fn read<D: Disk>(
        &self,
        disk: &mut D,
        port: NodeId,
        r: u64,
        out: &mut [u8; 672],
    ) -> Result<(), DevFault>
        requires from { 6 * self.now.start ≤ r }
        requires below { r < self.now.tail }
        requires port { IsPort port.0 }
        requires live { (D.state disk.old).live port.0 ≡ true }
        requires reach { IsInReach (region self.now) (D.state disk.old).reach }
        ensures keeps { Keeps port.0 (D.state disk.old) (D.state disk.new) }
        ensures cause { IfErr result (λ fault. Caused fault (D.state disk.old) (D.state disk.new)) }
        ensures fault { IfErr result (IsLogFault (region self.now) port.0) }
        ensures told { IsTrue D.told → IfErr result (IsToldOf (region self.now) (r / 6) (r % 6) (contents (D.state disk.old).block)) }
        ensures live { StaysLive result ((D.state disk.new).live port.0 ≡ true) }
        ensures stopped { IfErr result (λ fault. OnStop fault ((D.state disk.new).live port.0 ≡ false)) }
        ensures outcomes { IsTrue D.told → Narrows (D.state disk.old).block (D.state disk.new).block }
        ensures writers { IsTrue D.told → NoNewWriter (D.state disk.old).block (D.state disk.new).block }
        ensures foreign { IsTrue D.told → KeepsForeign port.0 (D.state disk.old).block (D.state disk.new).block }
        ensures blocks { IsTrue D.told → StaysLive result ((D.state disk.new).block ≡ (D.state disk.old).block) }
        ensures still { IfErr result (λ fault. OnStop fault (IsTrue D.told → IsFreeRegion (region self.now) port.0 (D.state disk.old).block → IsStill (region self.now) (D.state disk.new).block)) }
        ensures memory { self.now.tail / 6 ≡ r / 6 → disk.new ≡ disk.old }
        ensures sure { self.now.tail / 6 ≡ r / 6 → IsOk result }
        ensures kept { OnErr result (out.new ≡ out.old) }
        ensures record { OnOk result (IsTrue D.told → (xs : List (List ℕ)) → IsLogOn self.now (D.state disk.old).block xs → out.new ≡ slice_index_or xs (r - 6 * self.now.start) []) }
        ensures there { IsTrue D.told → (xs : List (List ℕ)) → IsLogOn self.now (D.state disk.old).block xs → IfErr result (IsStopOf port.0) }
        ensures record_read { OnOk result (IsTrue D.told → (l : ReadsLog (region self.now) (contents (D.state disk.old).block) self.now.start self.now.tail self.now.block) → out.new ≡ slice_index_or l.records (r - 6 * self.now.start) []) }
        ensures there_read { IsTrue D.told → ReadsLog (region self.now) (contents (D.state disk.old).block) self.now.start self.now.tail self.now.block → IfErr result (IsStopOf port.0) }
    {
        let number = r / BLOCK_RECORDS;
        let place = (r % BLOCK_RECORDS) as usize;
        if number == self.tail / BLOCK_RECORDS {
            copy_record(&self.block, place, out);
            return Ok(());
        }
        let at = self.shape.ring_block(self.node, number);
        let mut block = [0; 4096];
        read_block(disk, port, at, &mut block)?;
        if !holds_record(&block, self.node, number, place) {
            return Err(DevFault::Damaged(at));
        }
        copy_record(&block, place, out);
        Ok(())
    }
}
