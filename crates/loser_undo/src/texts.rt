//! Each text of a log is tested to be that of a record.

ghost use Rattle.std.specs.Prelude.{◌≡◌, ℕ, true, false, List, IsTrue, IfErr, OnOk};
ghost use Rattle.sd_base.specs.Calls.{Keeps, KeepsForeign, Narrows, NoNewWriter};
ghost use Rattle.sd_base.specs.Disk.{IsPort};
ghost use Rattle.sd_base.specs.Faults.{Caused, OnStop, StaysLive};
ghost use Rattle.private_log.specs.Spread.{IsFreeRegion, IsStill};
ghost use Rattle.private_log.specs.Frames.{IsInReach};
ghost use Rattle.private_log.specs.Log.{IsLogOn, region};
ghost use Rattle.private_log.specs.Reading.{IsLogFault};
ghost use Rattle.loser_undo.specs.Logs.{AreTexts, IsNoRecord};

use crate::reading::{first_of, read_record};
use private_log::Log;
use sd_base::{DevFault, Disk, NodeId};

/// Tests that each text of a log is that of a legal record, whose page is one of the store and of the
/// kind that the record changes.
///
/// It answers `Damaged` for the block of the first one that isn't.
pub fn check_texts<D: Disk>(disk: &mut D, log: &Log, port: NodeId) -> Result<(), DevFault>
    requires port { IsPort port.0 }
    requires live { (D.state disk.old).live port.0 ≡ true }
    requires reach { IsInReach (region log.now) (D.state disk.old).reach }
    ensures keeps { Keeps port.0 (D.state disk.old) (D.state disk.new) }
    ensures cause { IfErr result (λ fault. Caused fault (D.state disk.old) (D.state disk.new)) }
    ensures fault { IfErr result (IsLogFault (region log.now) port.0) }
    ensures live { StaysLive result ((D.state disk.new).live port.0 ≡ true) }
    ensures stopped { IfErr result (λ fault. OnStop fault ((D.state disk.new).live port.0 ≡ false)) }
    ensures outcomes { IsTrue D.told → Narrows (D.state disk.old).block (D.state disk.new).block }
    ensures writers { IsTrue D.told → NoNewWriter (D.state disk.old).block (D.state disk.new).block }
    ensures foreign { IsTrue D.told → KeepsForeign port.0 (D.state disk.old).block (D.state disk.new).block }
    ensures blocks { IsTrue D.told → StaysLive result ((D.state disk.new).block ≡ (D.state disk.old).block) }
    ensures still { IfErr result (λ fault. OnStop fault (IsTrue D.told → IsFreeRegion (region log.now) port.0 (D.state disk.old).block → IsStill (region log.now) (D.state disk.new).block)) }
    ensures texts { OnOk result (IsTrue D.told → (xs : List (List ℕ)) → IsLogOn log.now (D.state disk.old).block xs → AreTexts log.now xs) }
    ensures none { IsTrue D.told → (xs : List (List ℕ)) → IsLogOn log.now (D.state disk.old).block xs → IfErr result (IsNoRecord log.now xs) }
{
    for r in first_of(log)..log.tail() {
        let _rec = read_record(disk, log, port, r)?;
    }
    Ok(())
}
