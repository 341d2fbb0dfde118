//! A change of a page is logged, which gives the token that the change takes.

ghost use Rattle.std.specs.Prelude.{◌≡◌, ◌≢◌, ◌+◌, ◌%◌, ◌≤◌, ℕ, [], ◌∷◌, ◌++◌, List, Option, Some, true, false, IsTrue, IsSome, IsOk, IfOk, IfErr, OnOk, OnErr};
ghost use Rattle.sd_base.specs.Disk.{IsPort, IsOutcome};
ghost use Rattle.sd_base.specs.Calls.{Keeps, NoNewWriterBut, KeepsForeignBut};
ghost use Rattle.sd_base.specs.Faults.{Caused, IsStopOf};
ghost use Rattle.log_record.specs.Legal.{IsLegal};
ghost use Rattle.log_record.specs.Record.{page_op_of};
ghost use Rattle.log_record.specs.Text.{record_text};
ghost use Rattle.private_log.specs.Content.{HoldsFront};
ghost use Rattle.private_log.specs.Spread.{IsFreeRegion, IsStill, IsCutLog};
ghost use Rattle.private_log.specs.Frames.{IsInReach, NarrowsBeside, KeepsContents};
ghost use Rattle.private_log.specs.Log.{region, next_place, space, written, SameLog, IsLogOn};
ghost use Rattle.state_ids.specs.PageImage.{IsInRange};

use log_record::{LogRecord, encode, page_op};
use private_log::Log;
use sd_base::{DevFault, Disk, NodeId, PageNo, PageOp};
use std::marker::Model;

/// The token of a record in the log of a node that changes a page. It is made by `log_page` alone, and
/// spent by the change.
#[derive(Debug)]
pub struct Logged {
    pub(crate) page: PageNo,
    pub(crate) node: NodeId,
    pub(crate) ident: u64,
    pub(crate) op: PageOp,
    pub(crate) number: u64,
}

impl Model for Logged {
    ghost use Rattle.state_ids.specs.Held.{LoggedChange};
    ghost use Rattle.state_ids.specs.PageImage.{IsInRange};

    ghost Value = { LoggedChange };

    ghost view = { λ l. record { page = l.page; node = l.node; ident = l.ident; op = l.op; number = l.number } };

    // The numbers of a legal record are in their ranges.
    ghost invariant = { λ l. IsInRange l.ident l.op };
}

impl Logged {
    /// The page that the record changes.
    pub fn page(&self) -> PageNo
        ensures { result ≡ self.now.page }
    {
        self.page
    }

    /// The number of the record.
    pub fn number(&self) -> u64
        ensures { result ≡ self.now.number }
    {
        self.number
    }

    /// The change that the record makes.
    pub(crate) fn op(&self) -> &PageOp
        ensures op { result.now ≡ self.now.op }
        ensures range { IsInRange self.now.ident self.now.op }
    {
        &self.op
    }

    /// The number of the record, where its change is made.
    pub(crate) fn spent(self) -> u64
        ensures { result ≡ self.number }
    {
        let Logged {
            page: _page,
            node: _node,
            ident: _ident,
            op: _op,
            number,
        } = self;
        number
    }
}

/// Appends a record that changes a page to a log, and gives the token for the change. The record may be
/// in memory alone until the log is forced.
pub fn log_page<D: Disk>(
    log: &mut Log,
    disk: &mut D,
    port: NodeId,
    rec: &LogRecord,
) -> Result<Logged, DevFault>
    requires legal { IsLegal rec.now }
    requires change { IsSome (page_op_of rec.now) }
    requires space { 1 ≤ space log.old }
    requires port { IsPort port.0 }
    requires live { (D.state disk.old).live port.0 ≡ true }
    requires reach { IsInReach (region log.old) (D.state disk.old).reach }
    requires free { IsTrue D.told → IsFreeRegion (region log.old) port.0 (D.state disk.old).block }
    ensures token { IfOk result (λ l. page_op_of rec.now ≡ Some (l.page, l.ident, l.op)) }
    ensures node { IfOk result (λ l. l.node ≡ log.old.node) }
    ensures number { IfOk result (λ l. l.number ≡ log.old.tail) }
    ensures keeps { Keeps port.0 (D.state disk.old) (D.state disk.new) }
    ensures cause { IfErr result (λ fault. Caused fault (D.state disk.old) (D.state disk.new)) }
    ensures fault { IfErr result (IsStopOf port.0) }
    ensures live { OnOk result ((D.state disk.new).live port.0 ≡ true) }
    ensures stopped { OnErr result ((D.state disk.new).live port.0 ≡ false) }
    ensures outcomes { IsTrue D.told → NarrowsBeside (next_place log.old) (D.state disk.old).block (D.state disk.new).block }
    ensures writers { IsTrue D.told → NoNewWriterBut (next_place log.old) port.0 (D.state disk.old).block (D.state disk.new).block }
    ensures foreign { IsTrue D.told → KeepsForeignBut (next_place log.old) port.0 (D.state disk.old).block (D.state disk.new).block }
    ensures contents { OnOk result (IsTrue D.told → KeepsContents (next_place log.old) (D.state disk.old).block (D.state disk.new).block) }
    ensures memory { (log.old.tail + 1) % 6 ≢ 0 → disk.new ≡ disk.old }
    ensures sure { (log.old.tail + 1) % 6 ≢ 0 → IsOk result }
    ensures same { SameLog log.old log.new }
    ensures tail { OnOk result (log.new.tail ≡ log.old.tail + 1) }
    ensures stable_in_memory { OnOk result ((log.old.tail + 1) % 6 ≢ 0 → log.new.stable ≡ log.old.stable) }
    ensures stable_written { OnOk result ((log.old.tail + 1) % 6 ≡ 0 → log.new.stable ≡ written log.old) }
    ensures free { OnOk result (IsTrue D.told → IsFreeRegion (region log.new) port.0 (D.state disk.new).block) }
    ensures still { OnErr result (IsTrue D.told → IsStill (region log.old) (D.state disk.new).block) }
    ensures log { OnOk result (IsTrue D.told → (xs : List (List ℕ)) → IsLogOn log.old (D.state disk.old).block xs → IsLogOn log.new (D.state disk.new).block (xs ++ record_text rec.now ∷ [])) }
    ensures cut { OnErr result (IsTrue D.told → (xs : List (List ℕ)) → IsLogOn log.old (D.state disk.old).block xs → IsCutLog (region log.old) log.old.start log.old.stable (D.state disk.new).block (xs ++ record_text rec.now ∷ [])) }
    ensures any_outcome { IsTrue D.told → (xs : List (List ℕ)) → IsLogOn log.old (D.state disk.old).block xs → (image : ℕ → Option (List ℕ)) → IsOutcome (D.state disk.new).block image
        → HoldsFront (region log.old) log.old.start log.old.stable (xs ++ record_text rec.now ∷ []) image }
{
    let node = log.node();
    let (page, ident, op) = page_op(rec).unwrap();
    let mut text = [0; 672];
    encode(rec, &mut text);
    let number = log.append(disk, port, &text)?;
    Ok(Logged {
        page,
        node,
        ident,
        op,
        number,
    })
}
