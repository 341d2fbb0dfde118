//! Records that change no page are appended to the log, and the log is made stable.

ghost use Rattle.std.specs.Prelude.{◌≡◌, ◌≢◌, ◌+◌, ◌%◌, ◌≤◌, ℕ, [], ◌∷◌, ◌++◌, List, Option, None, true, false, IsTrue, IsOk, IfOk, IfErr, OnOk, OnErr};
ghost use Rattle.sd_base.specs.Disk.{IsPort, IsOutcome};
ghost use Rattle.sd_base.specs.Calls.{Keeps, NoNewWriterBut, KeepsForeignBut};
ghost use Rattle.sd_base.specs.Faults.{Caused, IsStopOf};
ghost use Rattle.sd_base.specs.declared.shape.Shape.{Shape};
ghost use Rattle.log_record.specs.Legal.{IsLegal};
ghost use Rattle.log_record.specs.Record.{page_op_of};
ghost use Rattle.log_record.specs.Text.{record_text};
ghost use Rattle.private_log.specs.Content.{HoldsFront};
ghost use Rattle.private_log.specs.Spread.{IsFreeRegion, IsStill, IsCutLog};
ghost use Rattle.private_log.specs.Frames.{IsInReach, NarrowsBeside, KeepsContents};
ghost use Rattle.private_log.specs.Log.{region, tail_place, next_place, space, written, SameLog, IsLogOn};
ghost use Rattle.node_cache.specs.Cache.{IsOfStore, IsTiedToLog, IsTiedToDisk};
ghost use Rattle.node_cache.specs.Records.{IsTiedToRecords};

use crate::cache::NodeCache;
use log_record::{LogRecord, encode};
use sd_base::{DevFault, Disk};

impl NodeCache {
    /// Appends a record that changes no page, and answers its number. It may be in memory alone until
    /// the log is forced.
    pub fn log_only<D: Disk>(&mut self, disk: &mut D, rec: &LogRecord) -> Result<u64, DevFault>
        requires legal { IsLegal rec.now }
        requires change { page_op_of rec.now ≡ None }
        requires space { 1 ≤ space self.old.log }
        requires log_tie { IsTiedToLog self.old }
        requires live { (D.state disk.old).live self.old.node.0 ≡ true }
        requires reach { IsInReach (region self.old.log) (D.state disk.old).reach }
        requires free { IsTrue D.told → IsFreeRegion (region self.old.log) self.old.node.0 (D.state disk.old).block }
        ensures keeps { Keeps self.old.node.0 (D.state disk.old) (D.state disk.new) }
        ensures cause { IfErr result (λ fault. Caused fault (D.state disk.old) (D.state disk.new)) }
        ensures fault { IfErr result (IsStopOf self.old.node.0) }
        ensures live { OnOk result ((D.state disk.new).live self.old.node.0 ≡ true) }
        ensures stopped { OnErr result ((D.state disk.new).live self.old.node.0 ≡ false) }
        ensures outcomes { IsTrue D.told → NarrowsBeside (next_place self.old.log) (D.state disk.old).block (D.state disk.new).block }
        ensures writers { IsTrue D.told → NoNewWriterBut (next_place self.old.log) self.old.node.0 (D.state disk.old).block (D.state disk.new).block }
        ensures foreign { IsTrue D.told → KeepsForeignBut (next_place self.old.log) self.old.node.0 (D.state disk.old).block (D.state disk.new).block }
        ensures contents { OnOk result (IsTrue D.told → KeepsContents (next_place self.old.log) (D.state disk.old).block (D.state disk.new).block) }
        ensures memory { (self.old.log.tail + 1) % 6 ≢ 0 → disk.new ≡ disk.old }
        ensures sure { (self.old.log.tail + 1) % 6 ≢ 0 → IsOk result }
        ensures number { IfOk result (λ number. number ≡ self.old.log.tail) }
        ensures legal { IsLegal rec.now }
        ensures node { self.new.node ≡ self.old.node }
        ensures pages { self.new.pages ≡ self.old.pages }
        ensures same { SameLog self.old.log self.new.log }
        ensures tail { OnOk result (self.new.log.tail ≡ self.old.log.tail + 1) }
        ensures stable_in_memory { OnOk result ((self.old.log.tail + 1) % 6 ≢ 0 → self.new.log.stable ≡ self.old.log.stable) }
        ensures stable_written { OnOk result ((self.old.log.tail + 1) % 6 ≡ 0 → self.new.log.stable ≡ written self.old.log) }
        ensures rises { OnOk result (self.old.log.stable ≤ self.new.log.stable) }
        ensures log_tie { OnOk result (IsTiedToLog self.new) }
        ensures disk_tie { IsTrue D.told → (s : Shape) (pool : List (Option (List ℕ))) → IsOfStore s self.old → IsTiedToDisk s pool self.old (D.state disk.old).block → IsTiedToDisk s pool self.new (D.state disk.new).block }
        ensures record_tie { OnOk result (IsTrue D.told → (s : Shape) (xs : List (List ℕ)) → IsOfStore s self.old → IsTiedToRecords s self.old (D.state disk.old).block xs → IsTiedToRecords s self.new (D.state disk.new).block (xs ++ record_text rec.now ∷ [])) }
        ensures free { OnOk result (IsTrue D.told → IsFreeRegion (region self.new.log) self.old.node.0 (D.state disk.new).block) }
        ensures still { OnErr result (IsTrue D.told → IsStill (region self.old.log) (D.state disk.new).block) }
        ensures log { OnOk result (IsTrue D.told → (xs : List (List ℕ)) → IsLogOn self.old.log (D.state disk.old).block xs → IsLogOn self.new.log (D.state disk.new).block (xs ++ record_text rec.now ∷ [])) }
        ensures cut { OnErr result (IsTrue D.told → (xs : List (List ℕ)) → IsLogOn self.old.log (D.state disk.old).block xs → IsCutLog (region self.old.log) self.old.log.start self.old.log.stable (D.state disk.new).block (xs ++ record_text rec.now ∷ [])) }
        ensures any_outcome { IsTrue D.told → (xs : List (List ℕ)) → IsLogOn self.old.log (D.state disk.old).block xs → (image : ℕ → Option (List ℕ)) → IsOutcome (D.state disk.new).block image
            → HoldsFront (region self.old.log) self.old.log.start self.old.log.stable (xs ++ record_text rec.now ∷ []) image }
    {
        let mut text = [0; 672];
        encode(rec, &mut text);
        self.log.append(disk, self.node, &text)
    }

    /// Makes all records of the log stable. It writes at most the last block of the log.
    pub fn force<D: Disk>(&mut self, disk: &mut D) -> Result<(), DevFault>
        requires log_tie { IsTiedToLog self.old }
        requires live { (D.state disk.old).live self.old.node.0 ≡ true }
        requires reach { IsInReach (region self.old.log) (D.state disk.old).reach }
        requires free { IsTrue D.told → IsFreeRegion (region self.old.log) self.old.node.0 (D.state disk.old).block }
        ensures keeps { Keeps self.old.node.0 (D.state disk.old) (D.state disk.new) }
        ensures cause { IfErr result (λ fault. Caused fault (D.state disk.old) (D.state disk.new)) }
        ensures fault { IfErr result (IsStopOf self.old.node.0) }
        ensures live { OnOk result ((D.state disk.new).live self.old.node.0 ≡ true) }
        ensures stopped { OnErr result ((D.state disk.new).live self.old.node.0 ≡ false) }
        ensures outcomes { IsTrue D.told → NarrowsBeside (tail_place self.old.log) (D.state disk.old).block (D.state disk.new).block }
        ensures writers { IsTrue D.told → NoNewWriterBut (tail_place self.old.log) self.old.node.0 (D.state disk.old).block (D.state disk.new).block }
        ensures foreign { IsTrue D.told → KeepsForeignBut (tail_place self.old.log) self.old.node.0 (D.state disk.old).block (D.state disk.new).block }
        ensures contents { OnOk result (IsTrue D.told → KeepsContents (tail_place self.old.log) (D.state disk.old).block (D.state disk.new).block) }
        ensures idle { self.old.log.stable ≡ self.old.log.tail → disk.new ≡ disk.old }
        ensures sure { self.old.log.stable ≡ self.old.log.tail → IsOk result }
        ensures node { self.new.node ≡ self.old.node }
        ensures pages { self.new.pages ≡ self.old.pages }
        ensures same { SameLog self.old.log self.new.log }
        ensures tail { self.new.log.tail ≡ self.old.log.tail }
        ensures stable { OnOk result (self.new.log.stable ≡ self.old.log.tail) }
        ensures rises { OnOk result (self.old.log.stable ≤ self.new.log.stable) }
        ensures log_tie { IsTiedToLog self.new }
        ensures disk_tie { IsTrue D.told → (s : Shape) (pool : List (Option (List ℕ))) → IsOfStore s self.old → IsTiedToDisk s pool self.old (D.state disk.old).block → IsTiedToDisk s pool self.new (D.state disk.new).block }
        ensures record_tie { IsTrue D.told → (s : Shape) (xs : List (List ℕ)) → IsOfStore s self.old → IsTiedToRecords s self.old (D.state disk.old).block xs → IsTiedToRecords s self.new (D.state disk.new).block xs }
        ensures free { OnOk result (IsTrue D.told → IsFreeRegion (region self.new.log) self.old.node.0 (D.state disk.new).block) }
        ensures still { OnErr result (IsTrue D.told → IsStill (region self.old.log) (D.state disk.new).block) }
        ensures log { OnOk result (IsTrue D.told → (xs : List (List ℕ)) → IsLogOn self.old.log (D.state disk.old).block xs → IsLogOn self.new.log (D.state disk.new).block xs) }
        ensures cut { OnErr result (IsTrue D.told → (xs : List (List ℕ)) → IsLogOn self.old.log (D.state disk.old).block xs → IsCutLog (region self.old.log) self.old.log.start self.old.log.stable (D.state disk.new).block xs) }
        ensures any_outcome { IsTrue D.told → (xs : List (List ℕ)) → IsLogOn self.old.log (D.state disk.old).block xs → (image : ℕ → Option (List ℕ)) → IsOutcome (D.state disk.new).block image
            → HoldsFront (region self.old.log) self.old.log.start self.old.log.stable xs image }
    {
        self.law_of_log();
        self.log.force(disk, self.node)
    }
}
