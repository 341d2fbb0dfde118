//! Records are appended to the log and made stable.

ghost use Rattle.std.specs.Prelude.{◌≡◌, ◌≢◌, ◌+◌, ◌-◌, ◌*◌, ◌/◌, ◌%◌, ◌≤◌, ◌<◌, ℕ, true, false, List, [], ◌∷◌, ◌++◌, length, drop, max, Option, IsTrue, IsOk, OnOk, OnErr, IfOk, IfErr};
ghost use Rattle.sd_base.specs.Disk.{BlockState, IsPort, IsOutcome};
ghost use Rattle.sd_base.specs.Calls.{Keeps, Narrows, NarrowsBut, NoNewWriter, NoNewWriterBut, KeepsForeign, KeepsForeignBut};
ghost use Rattle.sd_base.specs.Faults.{Caused, IsStopOf};
ghost use Rattle.sd_base.specs.Shape.{ring_place};
ghost use Rattle.private_log.specs.LogBlock.{log_block, six};
ghost use Rattle.private_log.specs.Content.{HoldsFront};
ghost use Rattle.private_log.specs.Spread.{IsFreeRegion, IsStill, IsCutLog};
ghost use Rattle.private_log.specs.Frames.{IsInReach, NarrowsBeside, KeepsContents};
ghost use Rattle.private_log.specs.Log.{LogState, region, tail_place, next_place, space, written, SameLog, IsLoaded, IsWritten, IsLogOn};

use crate::block::{BLOCK_RECORDS, begin_block, put_record};
use crate::log::Log;
use sd_base::{DevFault, Disk, NodeId, cover, write_block};

impl Log {
    /// Begins the block that the next record goes into, unless it has records already.
    fn open_block(&mut self)
        requires { 1 ≤ space self.old }
        ensures same { SameLog self.old self.new }
        ensures tail { self.new.tail ≡ self.old.tail }
        ensures stable { self.new.stable ≡ self.old.stable }
        ensures block { (b : ℕ → BlockState) (xs : List (List ℕ)) (k : ℕ) → IsLogOn self.old b xs → 6 * k ≤ length xs → length xs < 6 * k + 6 → self.new.block ≡ log_block self.old.node.0 (self.old.start + k) (six k xs) }
    {
        if self.tail % BLOCK_RECORDS == 0 {
            begin_block(self.node, self.tail / BLOCK_RECORDS, &mut self.block);
        }
    }

    /// Puts a record into the block in memory.
    fn push(&mut self, text: &[u8; 672])
        requires { 1 ≤ space self.old }
        ensures same { SameLog self.old self.new }
        ensures tail { self.new.tail ≡ self.old.tail + 1 }
        ensures stable { self.new.stable ≡ self.old.stable }
        ensures log { (b : ℕ → BlockState) (xs : List (List ℕ)) → IsLogOn self.old b xs → IsLoaded self.new b (xs ++ text.now ∷ []) }
    {
        self.open_block();
        let place = (self.tail % BLOCK_RECORDS) as usize;
        put_record(&mut self.block, place, text);
        self.tail += 1;
    }

    /// Covers what is written before the block with this number, unless it is stable already.
    fn cover_below<D: Disk>(
        &mut self,
        disk: &mut D,
        port: NodeId,
        number: u64,
    ) -> Result<(), DevFault>
        requires number { 6 * number < self.old.tail }
        requires port { IsPort port.0 }
        requires live { (D.state disk.old).live port.0 ≡ true }
        requires free { IsTrue D.told → IsFreeRegion (region self.old) port.0 (D.state disk.old).block }
        ensures keeps { Keeps port.0 (D.state disk.old) (D.state disk.new) }
        ensures cause { IfErr result (λ fault. Caused fault (D.state disk.old) (D.state disk.new)) }
        ensures fault { IfErr result (IsStopOf port.0) }
        ensures live { OnOk result ((D.state disk.new).live port.0 ≡ true) }
        ensures stopped { OnErr result ((D.state disk.new).live port.0 ≡ false) }
        ensures outcomes { IsTrue D.told → Narrows (D.state disk.old).block (D.state disk.new).block }
        ensures writers { IsTrue D.told → NoNewWriter (D.state disk.old).block (D.state disk.new).block }
        ensures foreign { IsTrue D.told → KeepsForeign port.0 (D.state disk.old).block (D.state disk.new).block }
        ensures same { SameLog self.old self.new }
        ensures tail { self.new.tail ≡ self.old.tail }
        ensures block { self.new.block ≡ self.old.block }
        ensures stable { OnOk result (self.new.stable ≡ max self.old.stable (6 * number)) }
        ensures kept { OnErr result (self.new ≡ self.old) }
        ensures contents { OnOk result (IsTrue D.told → (k : ℕ) → ((D.state disk.new).block k).current ≡ ((D.state disk.old).block k).current) }
        ensures still { OnErr result (IsTrue D.told → IsStill (region self.old) (D.state disk.new).block) }
        ensures log { OnOk result (IsTrue D.told → (xs : List (List ℕ)) → self.old.tail ≤ 6 * number + 6 → IsLoaded self.old (D.state disk.old).block xs → IsLoaded self.new (D.state disk.new).block xs) }
        ensures cut { OnErr result (IsTrue D.told → (xs : List (List ℕ)) → IsLoaded self.old (D.state disk.old).block xs → IsCutLog (region self.old) self.old.start self.old.stable (D.state disk.new).block xs) }
    {
        if self.stable >= BLOCK_RECORDS * number {
            return Ok(());
        }
        cover(disk, port)?;
        self.stable = BLOCK_RECORDS * number;
        Ok(())
    }

    /// Writes the last block, after all that is written before it was covered.
    fn write_tail<D: Disk>(&mut self, disk: &mut D, port: NodeId) -> Result<(), DevFault>
        requires some { 6 * self.old.start < self.old.tail }
        requires port { IsPort port.0 }
        requires live { (D.state disk.old).live port.0 ≡ true }
        requires reach { IsInReach (region self.old) (D.state disk.old).reach }
        requires free { IsTrue D.told → IsFreeRegion (region self.old) port.0 (D.state disk.old).block }
        ensures keeps { Keeps port.0 (D.state disk.old) (D.state disk.new) }
        ensures cause { IfErr result (λ fault. Caused fault (D.state disk.old) (D.state disk.new)) }
        ensures fault { IfErr result (IsStopOf port.0) }
        ensures live { OnOk result ((D.state disk.new).live port.0 ≡ true) }
        ensures stopped { OnErr result ((D.state disk.new).live port.0 ≡ false) }
        ensures outcomes { IsTrue D.told → NarrowsBeside (tail_place self.old) (D.state disk.old).block (D.state disk.new).block }
        ensures writers { IsTrue D.told → NoNewWriterBut (tail_place self.old) port.0 (D.state disk.old).block (D.state disk.new).block }
        ensures foreign { IsTrue D.told → KeepsForeignBut (tail_place self.old) port.0 (D.state disk.old).block (D.state disk.new).block }
        ensures same { SameLog self.old self.new }
        ensures tail { self.new.tail ≡ self.old.tail }
        ensures block { self.new.block ≡ self.old.block }
        ensures stable { OnOk result (self.new.stable ≡ max self.old.stable (6 * ((self.old.tail - 1) / 6))) }
        ensures contents { OnOk result (IsTrue D.told → KeepsContents (tail_place self.old) (D.state disk.old).block (D.state disk.new).block) }
        ensures still { OnErr result (IsTrue D.told → IsStill (region self.old) (D.state disk.new).block) }
        ensures log { OnOk result (IsTrue D.told → (xs : List (List ℕ)) → IsLoaded self.old (D.state disk.old).block xs → IsWritten self.new (D.state disk.new).block xs) }
        ensures cut { OnErr result (IsTrue D.told → (xs : List (List ℕ)) → IsLoaded self.old (D.state disk.old).block xs → IsCutLog (region self.old) self.old.start self.old.stable (D.state disk.new).block xs) }
    {
        let number = (self.tail - 1) / BLOCK_RECORDS;
        self.cover_below(disk, port, number)?;
        let at = self.shape.ring_block(self.node, number);
        write_block(disk, port, at, &self.block)
    }

    /// Appends a record, and answers its number. It may be in memory alone until it is forced: a block is
    /// written where the record fills it, and covered before the next one is written.
    ///
    /// There has to be space for it, which `space` tells. After an error the log has to be attached
    /// again.
    pub fn append<D: Disk>(
        &mut self,
        disk: &mut D,
        port: NodeId,
        text: &[u8; 672],
    ) -> Result<u64, DevFault>
        requires space { 1 ≤ space self.old }
        requires port { IsPort port.0 }
        requires live { (D.state disk.old).live port.0 ≡ true }
        requires reach { IsInReach (region self.old) (D.state disk.old).reach }
        requires free { IsTrue D.told → IsFreeRegion (region self.old) port.0 (D.state disk.old).block }
        ensures keeps { Keeps port.0 (D.state disk.old) (D.state disk.new) }
        ensures cause { IfErr result (λ fault. Caused fault (D.state disk.old) (D.state disk.new)) }
        ensures fault { IfErr result (IsStopOf port.0) }
        ensures live { OnOk result ((D.state disk.new).live port.0 ≡ true) }
        ensures stopped { OnErr result ((D.state disk.new).live port.0 ≡ false) }
        ensures outcomes { IsTrue D.told → NarrowsBeside (next_place self.old) (D.state disk.old).block (D.state disk.new).block }
        ensures writers { IsTrue D.told → NoNewWriterBut (next_place self.old) port.0 (D.state disk.old).block (D.state disk.new).block }
        ensures foreign { IsTrue D.told → KeepsForeignBut (next_place self.old) port.0 (D.state disk.old).block (D.state disk.new).block }
        ensures contents { OnOk result (IsTrue D.told → KeepsContents (next_place self.old) (D.state disk.old).block (D.state disk.new).block) }
        ensures memory { (self.old.tail + 1) % 6 ≢ 0 → disk.new ≡ disk.old }
        ensures sure { (self.old.tail + 1) % 6 ≢ 0 → IsOk result }
        ensures number { IfOk result (λ number. number ≡ self.old.tail) }
        ensures same { SameLog self.old self.new }
        ensures tail { OnOk result (self.new.tail ≡ self.old.tail + 1) }
        ensures stable_in_memory { OnOk result ((self.old.tail + 1) % 6 ≢ 0 → self.new.stable ≡ self.old.stable) }
        ensures stable_written { OnOk result ((self.old.tail + 1) % 6 ≡ 0 → self.new.stable ≡ written self.old) }
        ensures free { OnOk result (IsTrue D.told → IsFreeRegion (region self.new) port.0 (D.state disk.new).block) }
        ensures still { OnErr result (IsTrue D.told → IsStill (region self.old) (D.state disk.new).block) }
        ensures log { OnOk result (IsTrue D.told → (xs : List (List ℕ)) → IsLogOn self.old (D.state disk.old).block xs → IsLogOn self.new (D.state disk.new).block (xs ++ text.now ∷ [])) }
        ensures cut { OnErr result (IsTrue D.told → (xs : List (List ℕ)) → IsLogOn self.old (D.state disk.old).block xs → IsCutLog (region self.old) self.old.start self.old.stable (D.state disk.new).block (xs ++ text.now ∷ [])) }
        ensures any_outcome { IsTrue D.told → (xs : List (List ℕ)) → IsLogOn self.old (D.state disk.old).block xs → (image : ℕ → Option (List ℕ)) → IsOutcome (D.state disk.new).block image
            → HoldsFront (region self.old) self.old.start self.old.stable (xs ++ text.now ∷ []) image }
    {
        let number = self.tail;
        self.push(text);
        if self.tail % BLOCK_RECORDS != 0 {
            return Ok(number);
        }
        self.write_tail(disk, port)?;
        Ok(number)
    }

    /// Writes what of the last block is in memory alone.
    fn write_rest<D: Disk>(&mut self, disk: &mut D, port: NodeId) -> Result<(), DevFault>
        requires port { IsPort port.0 }
        requires live { (D.state disk.old).live port.0 ≡ true }
        requires reach { IsInReach (region self.old) (D.state disk.old).reach }
        requires free { IsTrue D.told → IsFreeRegion (region self.old) port.0 (D.state disk.old).block }
        ensures keeps { Keeps port.0 (D.state disk.old) (D.state disk.new) }
        ensures cause { IfErr result (λ fault. Caused fault (D.state disk.old) (D.state disk.new)) }
        ensures fault { IfErr result (IsStopOf port.0) }
        ensures live { OnOk result ((D.state disk.new).live port.0 ≡ true) }
        ensures stopped { OnErr result ((D.state disk.new).live port.0 ≡ false) }
        ensures outcomes { IsTrue D.told → NarrowsBeside (tail_place self.old) (D.state disk.old).block (D.state disk.new).block }
        ensures writers { IsTrue D.told → NoNewWriterBut (tail_place self.old) port.0 (D.state disk.old).block (D.state disk.new).block }
        ensures foreign { IsTrue D.told → KeepsForeignBut (tail_place self.old) port.0 (D.state disk.old).block (D.state disk.new).block }
        ensures contents { OnOk result (IsTrue D.told → KeepsContents (tail_place self.old) (D.state disk.old).block (D.state disk.new).block) }
        ensures full { self.old.tail % 6 ≡ 0 → disk.new ≡ disk.old }
        ensures same { SameLog self.old self.new }
        ensures tail { self.new.tail ≡ self.old.tail }
        ensures block { self.new.block ≡ self.old.block }
        ensures stable { OnOk result (self.old.stable ≤ self.new.stable) }
        ensures still { OnErr result (IsTrue D.told → IsStill (region self.old) (D.state disk.new).block) }
        ensures log { OnOk result (IsTrue D.told → (xs : List (List ℕ)) → IsLogOn self.old (D.state disk.old).block xs → IsWritten self.new (D.state disk.new).block xs) }
        ensures cut { OnErr result (IsTrue D.told → (xs : List (List ℕ)) → IsLogOn self.old (D.state disk.old).block xs → IsCutLog (region self.old) self.old.start self.old.stable (D.state disk.new).block xs) }
    {
        if self.tail % BLOCK_RECORDS == 0 {
            return Ok(());
        }
        self.write_tail(disk, port)
    }

    /// Makes all records stable. It writes at most the last block, and does nothing where all are stable.
    ///
    /// After an error the log has to be attached again.
    pub fn force<D: Disk>(&mut self, disk: &mut D, port: NodeId) -> Result<(), DevFault>
        requires port { IsPort port.0 }
        requires live { (D.state disk.old).live port.0 ≡ true }
        requires reach { IsInReach (region self.old) (D.state disk.old).reach }
        requires free { IsTrue D.told → IsFreeRegion (region self.old) port.0 (D.state disk.old).block }
        ensures keeps { Keeps port.0 (D.state disk.old) (D.state disk.new) }
        ensures cause { IfErr result (λ fault. Caused fault (D.state disk.old) (D.state disk.new)) }
        ensures fault { IfErr result (IsStopOf port.0) }
        ensures live { OnOk result ((D.state disk.new).live port.0 ≡ true) }
        ensures stopped { OnErr result ((D.state disk.new).live port.0 ≡ false) }
        ensures outcomes { IsTrue D.told → NarrowsBeside (tail_place self.old) (D.state disk.old).block (D.state disk.new).block }
        ensures writers { IsTrue D.told → NoNewWriterBut (tail_place self.old) port.0 (D.state disk.old).block (D.state disk.new).block }
        ensures foreign { IsTrue D.told → KeepsForeignBut (tail_place self.old) port.0 (D.state disk.old).block (D.state disk.new).block }
        ensures contents { OnOk result (IsTrue D.told → KeepsContents (tail_place self.old) (D.state disk.old).block (D.state disk.new).block) }
        ensures barrier { self.old.tail % 6 ≡ 0 → IsTrue D.told → Narrows (D.state disk.old).block (D.state disk.new).block }
        ensures idle { self.old.stable ≡ self.old.tail → disk.new ≡ disk.old }
        ensures sure { self.old.stable ≡ self.old.tail → IsOk result }
        ensures same { SameLog self.old self.new }
        ensures tail { self.new.tail ≡ self.old.tail }
        ensures stable { OnOk result (self.new.stable ≡ self.old.tail) }
        ensures free { OnOk result (IsTrue D.told → IsFreeRegion (region self.new) port.0 (D.state disk.new).block) }
        ensures still { OnErr result (IsTrue D.told → IsStill (region self.old) (D.state disk.new).block) }
        ensures log { OnOk result (IsTrue D.told → (xs : List (List ℕ)) → IsLogOn self.old (D.state disk.old).block xs → IsLogOn self.new (D.state disk.new).block xs) }
        ensures cut { OnErr result (IsTrue D.told → (xs : List (List ℕ)) → IsLogOn self.old (D.state disk.old).block xs → IsCutLog (region self.old) self.old.start self.old.stable (D.state disk.new).block xs) }
        ensures any_outcome { IsTrue D.told → (xs : List (List ℕ)) → IsLogOn self.old (D.state disk.old).block xs → (image : ℕ → Option (List ℕ)) → IsOutcome (D.state disk.new).block image
            → HoldsFront (region self.old) self.old.start self.old.stable xs image }
    {
        if self.stable == self.tail {
            return Ok(());
        }
        self.write_rest(disk, port)?;
        cover(disk, port)?;
        self.stable = self.tail;
        Ok(())
    }
}
