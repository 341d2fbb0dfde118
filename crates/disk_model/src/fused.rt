//! A device that can be armed, over one that can't.
ghost use Rattle.std.specs.Prelude.{◌≡◌, ◌≢◌, ℕ, true, false, None, IsTrue};
ghost use Rattle.sd_base.specs.Disk.{IsFreeFor, IsPort};
ghost use Rattle.sd_base.specs.Calls.{Keeps, Narrows, NarrowsBut, NoNewWriter, NoNewWriterBut, KeepsForeign, KeepsForeignBut, Writes, CutsWrite, Covers, Settles, CountsStay, IsOrdered, Loses};
ghost use Rattle.sd_base.specs.Answers.{ReadCause, WriteCause, Reads, OnWrite};
ghost use Rattle.disk_model.specs.Fuse.{fuse_at, armed_at, fused_state, together, CountsWrite, CountsCall, CountsCut, CountsFault, CountsNothing};
ghost use Rattle.disk_model.specs.Below.{IsRead, IsWrite, IsBarrier, IsStop, IsCutWrite};

use crate::fuse::{Due, Fuse};
use sd_base::{Arm, Block, BlockNo, Disk, NodeId, ReadAnswer, WriteAnswer};

/// A device over another one, with an armed count of writes and one of calls at each port.
///
/// A write that is cut reaches the device below and is answered `Stopped`: that device settles the
/// port's blocks by the picks, so that each holds what was written last or something from before. A
/// call that fails doesn't reach it. Where nothing is armed, each call is that of the device below.
#[derive(Drop)]
pub struct Fused<D> {
    inner: D,
    /// Port `n` at index `n`; there is no port 0.
    fuses: [Fuse; 17],
    orders: u64,
}

impl<D: Disk> Fused<D> {
    /// A device over this one, at which nothing is armed.
    pub fn new(inner: D) -> Fused<D>
        ensures below { result.inner ≡ inner }
        ensures disarmed { (n : ℕ) → armed_at result.fuses n ≡ record { writes = 0; picks = 0; calls = 0 } }
        ensures faults { (n : ℕ) → (⟦<Fused<D> as Disk>⟧.state result).faults n ≡ together ((D.state inner).faults n) 0 }
        ensures cuts { (n : ℕ) → (⟦<Fused<D> as Disk>⟧.state result).cuts n ≡ together ((D.state inner).cuts n) 0 }
        ensures orders { (⟦<Fused<D> as Disk>⟧.state result).orders ≡ together (D.state inner).orders 0 }
    {
        Fused {
            inner,
            fuses: [Fuse::UNUSED; 17],
            orders: 0,
        }
    }

    /// Writes a block, and stops the port: what was written is among what the block may hold.
    #[cold]
    fn cut(&mut self, n: NodeId, at: BlockNo, content: &Block)
        requires port { IsPort n.0 }
        requires live { (D.state self.old.inner).live n.0 ≡ true }
        requires reach { (D.state self.old.inner).reach at.0 ≡ true }
        requires free { IsTrue D.told → IsFreeFor n.0 ((D.state self.old.inner).block at.0) }
        ensures below { IsCutWrite D D.state D.told n.0 at.0 content.now self.old.inner self.new.inner }
        ensures armed { (m : ℕ) → armed_at self.new.fuses m ≡ armed_at self.old.fuses m }
        ensures counts { CountsCut (fuse_at self.old.fuses n.0) (fuse_at self.new.fuses n.0) }
        ensures others { (m : ℕ) → m ≢ n.0 → fuse_at self.new.fuses m ≡ fuse_at self.old.fuses m }
        ensures orders { self.new.orders ≡ self.old.orders }
    {
        let _ = self.inner.write(n, at, content);
        let fuse = &mut self.fuses[n.0 as usize];
        fuse.cuts = fuse.cuts.saturating_add(1);
        self.inner.stop(n, fuse.picks);
    }

    /// Stops the port, which keeps nothing that it had not covered.
    #[cold]
    fn fault(&mut self, n: NodeId)
        requires { IsPort n.0 }
        ensures below { IsStop D.told n.0 (D.state self.old.inner) (D.state self.new.inner) }
        ensures armed { (m : ℕ) → armed_at self.new.fuses m ≡ armed_at self.old.fuses m }
        ensures counts { CountsFault (fuse_at self.old.fuses n.0) (fuse_at self.new.fuses n.0) }
        ensures others { (m : ℕ) → m ≢ n.0 → fuse_at self.new.fuses m ≡ fuse_at self.old.fuses m }
        ensures orders { self.new.orders ≡ self.old.orders }
    {
        let fuse = &mut self.fuses[n.0 as usize];
        fuse.faults = fuse.faults.saturating_add(1);
        self.inner.stop(n, 0);
    }
}

impl<D: Disk> Disk for Fused<D> {
    ghost told = { D.told };

    ghost state = { λ f. fused_state (D.state f.inner) f.fuses f.orders };

    ghost reaches = { λ d k lt. D.reaches d.inner k lt };

    ghost lawful = { λ f k t. D.lawful f.inner k t };

    fn blocks(&self) -> u32 {
        self.inner.blocks()
    }

    fn is_live(&self, n: NodeId) -> bool {
        self.inner.is_live(n)
    }

    fn read(&mut self, n: NodeId, at: BlockNo, out: &mut Block) -> ReadAnswer
        requires port { IsPort n.0 }
        requires live { (D.state self.old.inner).live n.0 ≡ true }
        requires reach { (D.state self.old.inner).reach at.0 ≡ true }
        ensures keeps { Keeps n.0 (⟦<Fused<D> as Disk>⟧.state self.old) (⟦<Fused<D> as Disk>⟧.state self.new) }
        ensures cause { ReadCause result n.0 (⟦<Fused<D> as Disk>⟧.state self.old) (⟦<Fused<D> as Disk>⟧.state self.new) }
        ensures outcomes { IsTrue D.told → Narrows (D.state self.old.inner).block (D.state self.new.inner).block }
        ensures writers { IsTrue D.told → NoNewWriter (D.state self.old.inner).block (D.state self.new.inner).block }
        ensures foreign { IsTrue D.told → KeepsForeign n.0 (D.state self.old.inner).block (D.state self.new.inner).block }
        ensures blocks { IsTrue D.told → Reads result n.0 at.0 out.new (D.state self.old.inner).block (D.state self.new.inner).block }

        // It is counted, and fails where that is due; else it is that of the device below.
        ensures armed { CountsCall n.0 (armed_at self.old.fuses) (armed_at self.new.fuses) }
        ensures due { (armed_at self.old.fuses n.0).calls ≡ 1 → (result ≡ ReadAnswer.Failed) × (out.new ≡ out.old) × IsStop D.told n.0 (D.state self.old.inner) (D.state self.new.inner) × CountsFault (fuse_at self.old.fuses n.0) (fuse_at self.new.fuses n.0) }
        ensures passed { (armed_at self.old.fuses n.0).calls ≢ 1 → IsRead D.told result n.0 at.0 out.new (D.state self.old.inner) (D.state self.new.inner) × CountsNothing (fuse_at self.old.fuses n.0) (fuse_at self.new.fuses n.0) }
    {
        if self.fuses[n.0 as usize].count_call() {
            self.fault(n);
            return ReadAnswer::Failed;
        }
        self.inner.read(n, at, out)
    }

    fn write(&mut self, n: NodeId, at: BlockNo, content: &Block) -> WriteAnswer
        requires port { IsPort n.0 }
        requires live { (D.state self.old.inner).live n.0 ≡ true }
        requires reach { (D.state self.old.inner).reach at.0 ≡ true }
        requires free { IsTrue D.told → IsFreeFor n.0 ((D.state self.old.inner).block at.0) }
        ensures keeps { Keeps n.0 (⟦<Fused<D> as Disk>⟧.state self.old) (⟦<Fused<D> as Disk>⟧.state self.new) }
        ensures cause { WriteCause result n.0 (⟦<Fused<D> as Disk>⟧.state self.old) (⟦<Fused<D> as Disk>⟧.state self.new) }
        ensures outcomes { IsTrue D.told → NarrowsBut at.0 content.now (D.state self.old.inner).block (D.state self.new.inner).block }
        ensures writers { IsTrue D.told → NoNewWriterBut at.0 n.0 (D.state self.old.inner).block (D.state self.new.inner).block }
        ensures foreign { IsTrue D.told → KeepsForeignBut at.0 n.0 (D.state self.old.inner).block (D.state self.new.inner).block }
        ensures blocks { IsTrue D.told → OnWrite result
            (Writes n.0 at.0 content.now (D.state self.old.inner).block (D.state self.new.inner).block)
            (CutsWrite n.0 at.0 (D.state self.old.inner).block (D.state self.new.inner).block) }

        // It is counted at both counts. A cut that is due goes before a failure; where neither is, the
        // write is that of the device below.
        ensures armed { CountsWrite n.0 (armed_at self.old.fuses) (armed_at self.new.fuses) }
        ensures cut { (armed_at self.old.fuses n.0).writes ≡ 1 → (result ≡ WriteAnswer.Stopped) × IsCutWrite D D.state D.told n.0 at.0 content.now self.old.inner self.new.inner × CountsCut (fuse_at self.old.fuses n.0) (fuse_at self.new.fuses n.0) }
        ensures due { (armed_at self.old.fuses n.0).writes ≢ 1 → (armed_at self.old.fuses n.0).calls ≡ 1 → (result ≡ WriteAnswer.Failed) × IsStop D.told n.0 (D.state self.old.inner) (D.state self.new.inner) × CountsFault (fuse_at self.old.fuses n.0) (fuse_at self.new.fuses n.0) }
        ensures passed { (armed_at self.old.fuses n.0).writes ≢ 1 → (armed_at self.old.fuses n.0).calls ≢ 1 → IsWrite D.told result n.0 at.0 content.now (D.state self.old.inner) (D.state self.new.inner) × CountsNothing (fuse_at self.old.fuses n.0) (fuse_at self.new.fuses n.0) }
    {
        match self.fuses[n.0 as usize].count_write() {
            Due::Nothing => self.inner.write(n, at, content),
            Due::Cut => {
                self.cut(n, at, content);
                WriteAnswer::Stopped
            }
            Due::Fault => {
                self.fault(n);
                WriteAnswer::Failed
            }
        }
    }

    fn barrier(&mut self, n: NodeId) -> WriteAnswer
        requires port { IsPort n.0 }
        requires live { (D.state self.old.inner).live n.0 ≡ true }
        ensures keeps { Keeps n.0 (⟦<Fused<D> as Disk>⟧.state self.old) (⟦<Fused<D> as Disk>⟧.state self.new) }
        ensures cause { WriteCause result n.0 (⟦<Fused<D> as Disk>⟧.state self.old) (⟦<Fused<D> as Disk>⟧.state self.new) }
        ensures outcomes { IsTrue D.told → Narrows (D.state self.old.inner).block (D.state self.new.inner).block }
        ensures writers { IsTrue D.told → NoNewWriter (D.state self.old.inner).block (D.state self.new.inner).block }
        ensures foreign { IsTrue D.told → KeepsForeign n.0 (D.state self.old.inner).block (D.state self.new.inner).block }
        ensures blocks { IsTrue D.told → OnWrite result
            (Covers n.0 (D.state self.old.inner).block (D.state self.new.inner).block)
            (Settles n.0 (D.state self.old.inner).block (D.state self.new.inner).block) }

        // It is counted, and fails where that is due; else it is that of the device below.
        ensures armed { CountsCall n.0 (armed_at self.old.fuses) (armed_at self.new.fuses) }
        ensures due { (armed_at self.old.fuses n.0).calls ≡ 1 → (result ≡ WriteAnswer.Failed) × IsStop D.told n.0 (D.state self.old.inner) (D.state self.new.inner) × CountsFault (fuse_at self.old.fuses n.0) (fuse_at self.new.fuses n.0) }
        ensures passed { (armed_at self.old.fuses n.0).calls ≢ 1 → IsBarrier D.told result n.0 (D.state self.old.inner) (D.state self.new.inner) × CountsNothing (fuse_at self.old.fuses n.0) (fuse_at self.new.fuses n.0) }
    {
        if self.fuses[n.0 as usize].count_call() {
            self.fault(n);
            return WriteAnswer::Failed;
        }
        self.inner.barrier(n)
    }

    fn stop(&mut self, n: NodeId, picks: u64)
        requires { IsPort n.0 }
        ensures keeps { Keeps n.0 (⟦<Fused<D> as Disk>⟧.state self.old) (⟦<Fused<D> as Disk>⟧.state self.new) }
        ensures counts { CountsStay n.0 (⟦<Fused<D> as Disk>⟧.state self.old) (⟦<Fused<D> as Disk>⟧.state self.new) }
        ensures live { (D.state self.new.inner).live n.0 ≡ false }
        ensures outcomes { IsTrue D.told → Narrows (D.state self.old.inner).block (D.state self.new.inner).block }
        ensures writers { IsTrue D.told → NoNewWriter (D.state self.old.inner).block (D.state self.new.inner).block }
        ensures foreign { IsTrue D.told → KeepsForeign n.0 (D.state self.old.inner).block (D.state self.new.inner).block }
        ensures blocks { IsTrue D.told → Settles n.0 (D.state self.old.inner).block (D.state self.new.inner).block }

        // What is armed outlasts it.
        ensures armed { self.new.fuses ≡ self.old.fuses }
    {
        self.inner.stop(n, picks);
    }

    fn start(&mut self, n: NodeId)
        requires { IsPort n.0 }
        ensures keeps { Keeps n.0 (⟦<Fused<D> as Disk>⟧.state self.old) (⟦<Fused<D> as Disk>⟧.state self.new) }
        ensures counts { CountsStay n.0 (⟦<Fused<D> as Disk>⟧.state self.old) (⟦<Fused<D> as Disk>⟧.state self.new) }
        ensures live { (D.state self.new.inner).live n.0 ≡ true }
        ensures blocks { IsTrue D.told → (D.state self.new.inner).block ≡ (D.state self.old.inner).block }
        ensures armed { self.new.fuses ≡ self.old.fuses }
    {
        self.inner.start(n);
    }

    fn lose(&mut self, at: BlockNo)
        requires reach { (D.state self.old.inner).reach at.0 ≡ true }
        requires covered { IsTrue D.told → ((D.state self.old.inner).block at.0).writer ≡ None }
        ensures ports { IsOrdered (⟦<Fused<D> as Disk>⟧.state self.old) (⟦<Fused<D> as Disk>⟧.state self.new) }
        ensures blocks { IsTrue D.told → Loses at.0 (D.state self.old.inner).block (D.state self.new.inner).block }
        ensures armed { self.new.fuses ≡ self.old.fuses }
    {
        self.inner.lose(at);
    }
}

impl<D: Disk> Arm for Fused<D> {
    ghost armed = { λ f. armed_at f.fuses };

    fn arm(&mut self, n: NodeId, writes: u32, picks: u64) {
        let fuse = &mut self.fuses[n.0 as usize];
        fuse.writes = writes;
        fuse.picks = picks;
        self.orders = self.orders.saturating_add(1);
    }

    fn fail(&mut self, n: NodeId, calls: u32) {
        self.fuses[n.0 as usize].calls = calls;
        self.orders = self.orders.saturating_add(1);
    }
}
