//! The start of the log moves on, so that the blocks before it can be used again.

ghost use Rattle.std.specs.Prelude.{◌≡◌, ◌⊎◌, ◌-◌, ◌*◌, ◌≤◌, ℕ, false, true, List, Option, drop, IsTrue, OnOk, OnErr, IfErr};
ghost use Rattle.sd_base.specs.Disk.{IsPort, IsOutcome};
ghost use Rattle.sd_base.specs.Calls.{Keeps, NarrowsBut, NoNewWriterBut, KeepsForeignBut};
ghost use Rattle.sd_base.specs.Faults.{Caused, IsStopOf};
ghost use Rattle.sd_base.specs.Anchors.{anchor_text};
ghost use Rattle.private_log.specs.Content.{HoldsFront};
ghost use Rattle.private_log.specs.Spread.{IsFreeRegion, IsStill, IsCutLog};
ghost use Rattle.private_log.specs.Frames.{IsInReach, KeepsContents};
ghost use Rattle.private_log.specs.Log.{region, written, IsLogOn};

use crate::block::BLOCK_RECORDS;
use crate::log::Log;
use sd_base::{DevFault, Disk, NodeId, cover, write_anchor, write_block};

impl Log {
    /// Moves the start of the log up to a block of which all records are stable: those before it are
    /// gone, and their blocks can be written again. It writes the anchor alone, and covers it.
    ///
    /// After an error the log has to be attached again.
    pub fn move_start<D: Disk>(
        &mut self,
        disk: &mut D,
        port: NodeId,
        to: u64,
    ) -> Result<(), DevFault>
        requires from { self.old.start ≤ to }
        requires stable { 6 * to ≤ self.old.stable }
        requires port { IsPort port.0 }
        requires live { (D.state disk.old).live port.0 ≡ true }
        requires reach { IsInReach (region self.old) (D.state disk.old).reach }
        requires free { IsTrue D.told → IsFreeRegion (region self.old) port.0 (D.state disk.old).block }
        ensures keeps { Keeps port.0 (D.state disk.old) (D.state disk.new) }
        ensures cause { IfErr result (λ fault. Caused fault (D.state disk.old) (D.state disk.new)) }
        ensures fault { IfErr result (IsStopOf port.0) }
        ensures live { OnOk result ((D.state disk.new).live port.0 ≡ true) }
        ensures stopped { OnErr result ((D.state disk.new).live port.0 ≡ false) }
        ensures outcomes { IsTrue D.told → NarrowsBut (region self.old).anchor (anchor_text false self.old.node.0 to) (D.state disk.old).block (D.state disk.new).block }
        ensures writers { IsTrue D.told → NoNewWriterBut (region self.old).anchor port.0 (D.state disk.old).block (D.state disk.new).block }
        ensures foreign { IsTrue D.told → KeepsForeignBut (region self.old).anchor port.0 (D.state disk.old).block (D.state disk.new).block }
        ensures contents { OnOk result (IsTrue D.told → KeepsContents (region self.old).anchor (D.state disk.old).block (D.state disk.new).block) }
        ensures shape { self.new.shape ≡ self.old.shape }
        ensures node { self.new.node ≡ self.old.node }
        ensures start { OnOk result (self.new.start ≡ to) }
        ensures tail { self.new.tail ≡ self.old.tail }
        ensures stable { OnOk result (self.new.stable ≡ written self.old) }
        ensures kept { OnErr result (self.new ≡ self.old) }
        ensures free { OnOk result (IsTrue D.told → IsFreeRegion (region self.new) port.0 (D.state disk.new).block) }
        ensures still { OnErr result (IsTrue D.told → IsStill (region self.old) (D.state disk.new).block) }
        ensures log { OnOk result (IsTrue D.told → (xs : List (List ℕ)) → IsLogOn self.old (D.state disk.old).block xs → IsLogOn self.new (D.state disk.new).block (drop (6 * (to - self.old.start)) xs)) }
        ensures cut { OnErr result (IsTrue D.told → (xs : List (List ℕ)) → IsLogOn self.old (D.state disk.old).block xs
            → IsCutLog (region self.old) self.old.start self.old.stable (D.state disk.new).block xs ⊎ IsCutLog (region self.old) to self.old.stable (D.state disk.new).block (drop (6 * (to - self.old.start)) xs)) }
        ensures any_outcome { IsTrue D.told → (xs : List (List ℕ)) → IsLogOn self.old (D.state disk.old).block xs → (image : ℕ → Option (List ℕ)) → IsOutcome (D.state disk.new).block image
            → HoldsFront (region self.old) self.old.start self.old.stable xs image ⊎ HoldsFront (region self.old) to self.old.stable (drop (6 * (to - self.old.start)) xs) image }
    {
        let mut anchor = [0; 4096];
        write_anchor(self.node, false, to, &mut anchor);
        let at = self.shape.anchor_block(false, self.node);
        write_block(disk, port, at, &anchor)?;
        cover(disk, port)?;
        let full = BLOCK_RECORDS * (self.tail / BLOCK_RECORDS);
        self.stable = self.stable.max(full);
        self.start = to;
        Ok(())
    }
}
