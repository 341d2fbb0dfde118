//! How the undo of a transaction ends: by its end record, which is stable then.

ghost use Rattle.std.specs.Prelude.{◌≡◌, ◌+◌, ◌≤◌, ◌<◌, ℕ, true, false, [], ◌∷◌, ◌++◌, List, Option, IsTrue, IfErr, OnOk, OnErr, map};
ghost use Rattle.sd_base.specs.Disk.{IsOutcome, IsPort};
ghost use Rattle.sd_base.specs.Calls.{Keeps, NoNewWriterBut, KeepsForeignBut};
ghost use Rattle.sd_base.specs.Faults.{Caused, IsStopOf};
ghost use Rattle.log_record.specs.declared.record.LogRecord.{LogRecord};
ghost use Rattle.log_record.specs.declared.record.LogRecord.TheVariants.{Abort};
ghost use Rattle.log_record.specs.Legal.{IsLegal};
ghost use Rattle.log_record.specs.Text.{record_text};
ghost use Rattle.private_log.specs.Content.{HoldsFront};
ghost use Rattle.private_log.specs.Spread.{IsCutLog, IsFreeRegion, IsStill};
ghost use Rattle.private_log.specs.Frames.{IsInReach, KeepsContents, NarrowsBeside};
ghost use Rattle.private_log.specs.Log.{IsLogOn, SameLog, next_place, region, space};
ghost use Rattle.loser_undo.specs.Logs.{HasRecords};

use crate::losers::Loser;
use log_record::{LogRecord, encode};
use private_log::Log;
use sd_base::{DevFault, Disk, NodeId};

/// Appends a record to a log and makes it stable.
///
/// After an error what is left of the log is a front of it with the record, which has all that was
/// stable.
pub(crate) fn append_forced<D: Disk>(
    disk: &mut D,
    log: &mut Log,
    port: NodeId,
    rec: &LogRecord,
) -> Result<(), DevFault>
    requires legal { IsLegal rec.now }
    requires space { 1 ≤ space log.old }
    requires port { IsPort port.0 }
    requires live { (D.state disk.old).live port.0 ≡ true }
    requires reach { IsInReach (region log.old) (D.state disk.old).reach }
    requires free { IsTrue D.told → IsFreeRegion (region log.old) port.0 (D.state disk.old).block }
    ensures keeps { Keeps port.0 (D.state disk.old) (D.state disk.new) }
    ensures cause { IfErr result (λ fault. Caused fault (D.state disk.old) (D.state disk.new)) }
    ensures fault { IfErr result (IsStopOf port.0) }
    ensures live { OnOk result ((D.state disk.new).live port.0 ≡ true) }
    ensures stopped { OnErr result ((D.state disk.new).live port.0 ≡ false) }
    ensures outcomes { IsTrue D.told → NarrowsBeside (next_place log.old) (D.state disk.old).block (D.state disk.new).block }
    ensures writers { IsTrue D.told → NoNewWriterBut (next_place log.old) port.0 (D.state disk.old).block (D.state disk.new).block }
    ensures foreign { IsTrue D.told → KeepsForeignBut (next_place log.old) port.0 (D.state disk.old).block (D.state disk.new).block }
    ensures contents { OnOk result (IsTrue D.told → KeepsContents (next_place log.old) (D.state disk.old).block (D.state disk.new).block) }
    ensures same { SameLog log.old log.new }
    ensures tail { OnOk result (log.new.tail ≡ log.old.tail + 1) }
    ensures stable { OnOk result (log.new.stable ≡ log.new.tail) }
    ensures free { OnOk result (IsTrue D.told → IsFreeRegion (region log.new) port.0 (D.state disk.new).block) }
    ensures still { OnErr result (IsTrue D.told → IsStill (region log.old) (D.state disk.new).block) }
    ensures log { OnOk result (IsTrue D.told → (xs : List (List ℕ)) → IsLogOn log.old (D.state disk.old).block xs → IsLogOn log.new (D.state disk.new).block (xs ++ record_text rec.now ∷ [])) }
    ensures cut { OnErr result (IsTrue D.told → (xs : List (List ℕ)) → IsLogOn log.old (D.state disk.old).block xs
        → IsCutLog (region log.old) log.old.start log.old.stable (D.state disk.new).block (xs ++ record_text rec.now ∷ [])) }
    ensures any_outcome { IsTrue D.told → (xs : List (List ℕ)) → IsLogOn log.old (D.state disk.old).block xs → (image : ℕ → Option (List ℕ)) → IsOutcome (D.state disk.new).block image
        → HoldsFront (region log.old) log.old.start log.old.stable (xs ++ record_text rec.now ∷ []) image }
{
    let mut text = [0; 672];
    encode(rec, &mut text);
    log.append(disk, port, &text)?;
    log.force(disk, port)?;
    Ok(())
}

/// Ends a transaction of which nothing is left to be taken back: its `Abort` is appended to its log, and
/// stable then.
///
/// There has to be space for it. After an error it may have ended or not: what is left of the log is a
/// front of it with the record of the end, which has all that was stable.
pub fn end_loser<D: Disk>(
    disk: &mut D,
    log: &mut Log,
    l: &Loser,
    port: NodeId,
) -> Result<(), DevFault>
    requires nothing { l.now.left ≡ 0 }
    requires begun { l.now.begin ≤ l.now.last }
    requires last { l.now.last < log.old.tail }
    requires space { 1 ≤ space log.old }
    requires port { IsPort port.0 }
    requires live { (D.state disk.old).live port.0 ≡ true }
    requires reach { IsInReach (region log.old) (D.state disk.old).reach }
    requires free { IsTrue D.told → IsFreeRegion (region log.old) port.0 (D.state disk.old).block }
    ensures keeps { Keeps port.0 (D.state disk.old) (D.state disk.new) }
    ensures cause { IfErr result (λ fault. Caused fault (D.state disk.old) (D.state disk.new)) }
    ensures fault { IfErr result (IsStopOf port.0) }
    ensures live { OnOk result ((D.state disk.new).live port.0 ≡ true) }
    ensures stopped { OnErr result ((D.state disk.new).live port.0 ≡ false) }
    ensures outcomes { IsTrue D.told → NarrowsBeside (next_place log.old) (D.state disk.old).block (D.state disk.new).block }
    ensures writers { IsTrue D.told → NoNewWriterBut (next_place log.old) port.0 (D.state disk.old).block (D.state disk.new).block }
    ensures foreign { IsTrue D.told → KeepsForeignBut (next_place log.old) port.0 (D.state disk.old).block (D.state disk.new).block }
    ensures contents { OnOk result (IsTrue D.told → KeepsContents (next_place log.old) (D.state disk.old).block (D.state disk.new).block) }
    ensures same { SameLog log.old log.new }
    ensures tail { OnOk result (log.new.tail ≡ log.old.tail + 1) }
    ensures stable { OnOk result (log.new.stable ≡ log.new.tail) }
    ensures free { OnOk result (IsTrue D.told → IsFreeRegion (region log.new) port.0 (D.state disk.new).block) }
    ensures still { OnErr result (IsTrue D.told → IsStill (region log.old) (D.state disk.new).block) }
    ensures records { OnOk result (IsTrue D.told → (recs : List LogRecord) → HasRecords log.old (D.state disk.old).block recs → HasRecords log.new (D.state disk.new).block (recs ++ Abort l.now.begin l.now.last ∷ [])) }
    ensures cut { OnErr result (IsTrue D.told → (recs : List LogRecord) → HasRecords log.old (D.state disk.old).block recs
        → IsCutLog (region log.old) log.old.start log.old.stable (D.state disk.new).block (map record_text (recs ++ Abort l.now.begin l.now.last ∷ []))) }
    ensures any_outcome { IsTrue D.told → (recs : List LogRecord) → HasRecords log.old (D.state disk.old).block recs → (image : ℕ → Option (List ℕ)) → IsOutcome (D.state disk.new).block image
        → HoldsFront (region log.old) log.old.start log.old.stable (map record_text (recs ++ Abort l.now.begin l.now.last ∷ [])) image }
{
    let rec = LogRecord::Abort {
        txn: l.begin,
        prev: l.last,
    };
    append_forced(disk, log, port, &rec)
}
