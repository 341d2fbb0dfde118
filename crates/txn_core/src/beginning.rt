//! A transaction begins in a free seat.

ghost use Rattle.std.specs.Prelude.{◌≡◌, ◌≢◌, ◌+◌, ◌*◌, ◌≤◌, ℕ, true, false, [], ◌∷◌, ◌++◌, List, Option, Some, None, IsTrue, IfSome, IfErr, OnOk, OnErr, length, map, slice_set};
ghost use Rattle.sd_base.specs.Disk.{IsOutcome};
ghost use Rattle.sd_base.specs.Calls.{Keeps, NoNewWriterBut, KeepsForeignBut};
ghost use Rattle.sd_base.specs.Faults.{Caused, IsStopOf};
ghost use Rattle.sd_base.specs.declared.shape.Shape.{Shape};
ghost use Rattle.log_record.specs.declared.record.LogRecord.{LogRecord};
ghost use Rattle.log_record.specs.declared.record.LogRecord.TheVariants.{Begin, Commit, Abort};
ghost use Rattle.log_record.specs.Legal.{IsLegal};
ghost use Rattle.log_record.specs.Text.{record_text};
ghost use Rattle.private_log.specs.Content.{HoldsFront};
ghost use Rattle.private_log.specs.Spread.{IsCutLog, IsFreeRegion, IsStill};
ghost use Rattle.private_log.specs.Frames.{IsInReach, KeepsContents, NarrowsBeside};
ghost use Rattle.private_log.specs.Log.{SameLog, next_place, region, space};
ghost use Rattle.node_cache.specs.Cache.{IsOfStore, IsTiedToDisk, IsTiedToLog};
ghost use Rattle.txn_core.specs.Seats.{AreTied, OpenTxn, is_busy, owed, txn_in};
ghost use Rattle.txn_core.specs.Told.{AreTold, HasRecords};

use crate::seats::{Open, Seats};
use log_record::LogRecord;
use node_cache::NodeCache;
use sd_base::{DevFault, Disk};

impl Seats {
    /// Begins a transaction in a free seat: the number of its record is the transaction's. The log needs
    /// room for two records more than are owed.
    ///
    /// After an error the cache is good for `wreck` alone; so in all calls of the seats.
    pub fn begin<D: Disk>(
        &mut self,
        disk: &mut D,
        c: &mut NodeCache,
        seat: u8,
    ) -> Result<(), DevFault>
        requires seat { seat ≤ 7 }
        requires idle { is_busy self.old seat ≡ false }
        requires room { owed self.old + 2 ≤ space c.old.log }
        requires tie { AreTied self.old c.old }
        requires log_tie { IsTiedToLog c.old }
        requires live { (D.state disk.old).live c.old.node.0 ≡ true }
        requires reach { IsInReach (region c.old.log) (D.state disk.old).reach }
        requires free { IsTrue D.told → IsFreeRegion (region c.old.log) c.old.node.0 (D.state disk.old).block }
        ensures keeps { Keeps c.old.node.0 (D.state disk.old) (D.state disk.new) }
        ensures cause { IfErr result (λ fault. Caused fault (D.state disk.old) (D.state disk.new)) }
        ensures fault { IfErr result (IsStopOf c.old.node.0) }
        ensures live { OnOk result ((D.state disk.new).live c.old.node.0 ≡ true) }
        ensures stopped { OnErr result ((D.state disk.new).live c.old.node.0 ≡ false) }
        ensures outcomes { IsTrue D.told → NarrowsBeside (next_place c.old.log) (D.state disk.old).block (D.state disk.new).block }
        ensures writers { IsTrue D.told → NoNewWriterBut (next_place c.old.log) c.old.node.0 (D.state disk.old).block (D.state disk.new).block }
        ensures foreign { IsTrue D.told → KeepsForeignBut (next_place c.old.log) c.old.node.0 (D.state disk.old).block (D.state disk.new).block }
        ensures contents { OnOk result (IsTrue D.told → KeepsContents (next_place c.old.log) (D.state disk.old).block (D.state disk.new).block) }
        ensures node { self.new.node ≡ self.old.node }
        ensures cache_node { c.new.node ≡ c.old.node }
        ensures pages { c.new.pages ≡ c.old.pages }
        ensures same { SameLog c.old.log c.new.log }
        ensures tail { OnOk result (c.new.log.tail ≡ c.old.log.tail + 1) }
        ensures rises { OnOk result (c.old.log.stable ≤ c.new.log.stable) }
        ensures seats { OnOk result (self.new.seats ≡ slice_set self.old.seats seat (Some (record { begin = c.old.log.tail; last = c.old.log.tail; left = 0 }))) }
        ensures seats_kept { OnErr result (self.new.seats ≡ self.old.seats) }
        ensures tie { OnOk result (AreTied self.new c.new) }
        ensures log_tie { OnOk result (IsTiedToLog c.new) }
        ensures disk_tie { IsTrue D.told → (s : Shape) (pool : List (Option (List ℕ))) → IsOfStore s c.old → IsTiedToDisk s pool c.old (D.state disk.old).block → IsTiedToDisk s pool c.new (D.state disk.new).block }
        ensures free { OnOk result (IsTrue D.told → IsFreeRegion (region c.new.log) c.old.node.0 (D.state disk.new).block) }
        ensures still { OnErr result (IsTrue D.told → IsStill (region c.old.log) (D.state disk.new).block) }
        ensures records { OnOk result (IsTrue D.told → (recs : List LogRecord) → HasRecords c.old.log (D.state disk.old).block recs → HasRecords c.new.log (D.state disk.new).block (recs ++ Begin ∷ [])) }
        ensures told { OnOk result ((recs : List LogRecord) → 6 * c.old.log.start + length recs ≡ c.old.log.tail → AreTold self.old c.old.log.start recs → AreTold self.new c.old.log.start (recs ++ Begin ∷ [])) }
        ensures legal { IsLegal Begin }
        ensures cut { OnErr result (IsTrue D.told → (recs : List LogRecord) → HasRecords c.old.log (D.state disk.old).block recs
            → IsCutLog (region c.old.log) c.old.log.start c.old.log.stable (D.state disk.new).block (map record_text (recs ++ Begin ∷ []))) }
        ensures any_outcome { IsTrue D.told → (recs : List LogRecord) → HasRecords c.old.log (D.state disk.old).block recs → (image : ℕ → Option (List ℕ)) → IsOutcome (D.state disk.new).block image
            → HoldsFront (region c.old.log) c.old.log.start c.old.log.stable (map record_text (recs ++ Begin ∷ [])) image }
    {
        let number = c.log().tail();
        c.log_only(disk, &LogRecord::Begin)?;
        self.seats[seat as usize] = Some(Open {
            begin: number,
            last: number,
            left: 0,
        });
        Ok(())
    }
}
