//! How a transaction ends: by one record, which is stable then.
ghost use Rattle.std.specs.Prelude.{◌≡◌, ◌≢◌, ◌+◌, ◌*◌, ◌≤◌, ℕ, true, false, [], ◌∷◌, ◌++◌, List, Option, Some, None, IsTrue, IfSome, IfErr, OnOk, OnErr, length, map, slice_set};
ghost use Rattle.sd_base.specs.Disk.{IsOutcome};
ghost use Rattle.sd_base.specs.Calls.{Keeps, NoNewWriterBut, KeepsForeignBut};
ghost use Rattle.sd_base.specs.Faults.{Caused, IsStopOf};
ghost use Rattle.sd_base.specs.declared.shape.Shape.{Shape};
ghost use Rattle.log_record.specs.declared.record.LogRecord.{LogRecord};
ghost use Rattle.log_record.specs.Legal.{IsLegal};
ghost use Rattle.log_record.specs.Record.{page_op_of};
ghost use Rattle.log_record.specs.Text.{record_text};
ghost use Rattle.private_log.specs.Content.{HoldsFront};
ghost use Rattle.private_log.specs.Spread.{IsCutLog, IsFreeRegion, IsStill};
ghost use Rattle.private_log.specs.Frames.{IsInReach, KeepsContents, NarrowsBeside};
ghost use Rattle.private_log.specs.Log.{SameLog, next_place, region, space};
ghost use Rattle.node_cache.specs.Cache.{IsOfStore, IsTiedToDisk, IsTiedToLog};
ghost use Rattle.txn_core.specs.declared.ending.Ending.TheVariants.{Abort};
ghost use Rattle.txn_core.specs.Ending.{end_record};
ghost use Rattle.txn_core.specs.Seats.{AreTied, OpenTxn, is_busy, owed, txn_in};
ghost use Rattle.txn_core.specs.Shown.{shown};
ghost use Rattle.txn_core.specs.Told.{AreTold, HasRecords};

use crate::seats::{Open, Seats};
use log_record::LogRecord;
use node_cache::NodeCache;
use sd_base::{DevFault, Disk};

/// How a transaction ends.
#[derive(Clone, Copy, Debug)]
pub enum Ending {
    /// What it did stays.
    Commit,
    /// Nothing is left of what it did: all of it was taken back.
    Abort,
}

/// The record by which a transaction ends.
fn end_record(txn: Open, ending: Ending) -> LogRecord
    ensures is { result ≡ end_record ending (shown txn) }
    ensures change { page_op_of result ≡ None }
{
    match ending {
        Ending::Commit => LogRecord::Commit {
            txn: txn.begin,
            prev: txn.last,
        },
        Ending::Abort => LogRecord::Abort {
            txn: txn.begin,
            prev: txn.last,
        },
    }
}

impl Seats {
    /// The transaction in a seat.
    pub(crate) fn open_in(&self, seat: u8) -> Open
        requires seat { seat ≤ 7 }
        requires busy { IsTrue (is_busy self.now seat) }
        ensures { txn_in self.now seat ≡ Some (shown result) }
    {
        match self.seats[seat as usize] {
            Some(txn) => txn,
            None => unreachable!(),
        }
    }

    /// Ends a transaction: its end is stable then, and its seat is free. Only the node's own log is
    /// written.
    ///
    /// After an error it may have ended or not: what a stop leaves is a front of the log with the record
    /// of the end.
    pub fn end<D: Disk>(
        &mut self,
        disk: &mut D,
        c: &mut NodeCache,
        seat: u8,
        ending: Ending,
    ) -> Result<(), DevFault>
        requires seat { seat ≤ 7 }
        requires busy { IsTrue (is_busy self.old seat) }
        requires nothing { ending ≡ Abort → (t : OpenTxn) → txn_in self.old seat ≡ Some t → t.left ≡ 0 }
        requires tie { AreTied self.old c.old }
        requires log_tie { IsTiedToLog c.old }
        requires live { (D.state disk.old).live c.old.node.0 ≡ true }
        requires reach { IsInReach (region c.old.log) (D.state disk.old).reach }
        requires free { IsTrue D.told → IsFreeRegion (region c.old.log) c.old.node.0 (D.state disk.old).block }
        ensures keeps { Keeps c.old.node.0 (D.state disk.old) (D.state disk.new) }
        ensures cause { IfErr result (λ fault. Caused fault (D.state disk.old) (D.state disk.new)) }
        ensures fault { IfErr result (IsStopOf c.old.node.0) }
        ensures live { OnOk result ((D.state disk.new).live c.old.node.0 ≡ true) }
        ensures stopped { OnErr result ((D.state disk.new).live c.old.node.0 ≡ false) }
        ensures outcomes { IsTrue D.told → NarrowsBeside (next_place c.old.log) (D.state disk.old).block (D.state disk.new).block }
        ensures writers { IsTrue D.told → NoNewWriterBut (next_place c.old.log) c.old.node.0 (D.state disk.old).block (D.state disk.new).block }
        ensures foreign { IsTrue D.told → KeepsForeignBut (next_place c.old.log) c.old.node.0 (D.state disk.old).block (D.state disk.new).block }
        ensures contents { OnOk result (IsTrue D.told → KeepsContents (next_place c.old.log) (D.state disk.old).block (D.state disk.new).block) }
        ensures node { self.new.node ≡ self.old.node }
        ensures cache_node { c.new.node ≡ c.old.node }
        ensures pages { c.new.pages ≡ c.old.pages }
        ensures same { SameLog c.old.log c.new.log }
        ensures tail { OnOk result (c.new.log.tail ≡ c.old.log.tail + 1) }
        ensures stable { OnOk result (c.new.log.stable ≡ c.new.log.tail) }
        ensures seats { OnOk result (self.new.seats ≡ slice_set self.old.seats seat None) }
        ensures seats_kept { OnErr result (self.new.seats ≡ self.old.seats) }
        ensures tie { OnOk result (AreTied self.new c.new) }
        ensures log_tie { OnOk result (IsTiedToLog c.new) }
        ensures disk_tie { IsTrue D.told → (s : Shape) (pool : List (Option (List ℕ))) → IsOfStore s c.old → IsTiedToDisk s pool c.old (D.state disk.old).block → IsTiedToDisk s pool c.new (D.state disk.new).block }
        ensures free { OnOk result (IsTrue D.told → IsFreeRegion (region c.new.log) c.old.node.0 (D.state disk.new).block) }
        ensures still { OnErr result (IsTrue D.told → IsStill (region c.old.log) (D.state disk.new).block) }
        ensures records { OnOk result (IsTrue D.told → (recs : List LogRecord) → (t : OpenTxn) → txn_in self.old seat ≡ Some t → HasRecords c.old.log (D.state disk.old).block recs → HasRecords c.new.log (D.state disk.new).block (recs ++ end_record ending t ∷ [])) }
        ensures told { OnOk result ((recs : List LogRecord) → (t : OpenTxn) → txn_in self.old seat ≡ Some t → 6 * c.old.log.start + length recs ≡ c.old.log.tail → AreTold self.old c.old.log.start recs → AreTold self.new c.old.log.start (recs ++ end_record ending t ∷ [])) }
        ensures legal { (t : OpenTxn) → txn_in self.old seat ≡ Some t → IsLegal (end_record ending t) }
        ensures cut { OnErr result (IsTrue D.told → (recs : List LogRecord) → (t : OpenTxn) → txn_in self.old seat ≡ Some t → HasRecords c.old.log (D.state disk.old).block recs
            → IsCutLog (region c.old.log) c.old.log.start c.old.log.stable (D.state disk.new).block (map record_text (recs ++ end_record ending t ∷ []))) }
        ensures any_outcome { IsTrue D.told → (recs : List LogRecord) → (t : OpenTxn) → txn_in self.old seat ≡ Some t → HasRecords c.old.log (D.state disk.old).block recs → (image : ℕ → Option (List ℕ)) → IsOutcome (D.state disk.new).block image
            → HoldsFront (region c.old.log) c.old.log.start c.old.log.stable (map record_text (recs ++ end_record ending t ∷ [])) image }
    {
        let rec = end_record(self.open_in(seat), ending);
        c.log_only(disk, &rec)?;
        c.force(disk)?;
        self.seats[seat as usize] = None;
        Ok(())
    }
}
