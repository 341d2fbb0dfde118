//! A part of a device, for code that is to reach nothing else.
ghost use Rattle.std.specs.Prelude.{◌≡◌};
ghost use Rattle.disk_model.specs.Window.{IsInReach, window_state};

use crate::range::Range;
use sd_base::{Block, BlockNo, Disk, NodeId, ReadAnswer, WriteAnswer};

/// Two ranges of a device that is lent: what is given it reaches their blocks and no other.
///
/// Each call is that of the device on the same block. `blocks` answers 0, since it would promise that
/// all blocks below its answer are in reach.
#[derive(Drop)]
pub struct Window<'a, D: Disk> {
    disk: &'a mut D,
    one: Range,
    two: Range,
    ghost in_reach: { IsInReach (D.state disk.now).reach one two },
}

impl<'a, D: Disk> Window<'a, D> {
    /// The two ranges of a device, which may have blocks in common.
    pub fn new(disk: &'a mut D, one: Range, two: Range) -> Window<'a, D>
        requires { IsInReach (D.state disk.old).reach one two }
        ensures state { ⟦<Window<'a, D> as Disk>⟧.state result ≡ window_state disk.entry.ghost_name (D.state disk.old) one two }
        ensures lent { result.disk.ghost_name ≡ disk.entry.ghost_name }
        ensures now { result.disk.now ≡ disk.old }
        ensures one { result.one ≡ one }
        ensures two { result.two ≡ two }
    {
        Window { disk, one, two }
    }
}

impl<'a, D: Disk> Disk for Window<'a, D> {
    ghost use Rattle.std.proofs.Common.{rules};

    ghost told = { D.told };

    ghost state = { λ w. window_state w.disk.ghost_name (D.state w.disk.now) w.one w.two };

    ghost reaches = { λ d k lt. Prim.search rules };

    ghost lawful = { λ w k t. D.lawful w.disk.now k t };

    fn blocks(&self) -> u32 {
        0
    }

    fn is_live(&self, n: NodeId) -> bool {
        self.disk.is_live(n)
    }

    fn read(&mut self, n: NodeId, at: BlockNo, out: &mut Block) -> ReadAnswer {
        self.disk.read(n, at, out)
    }

    fn write(&mut self, n: NodeId, at: BlockNo, content: &Block) -> WriteAnswer {
        self.disk.write(n, at, content)
    }

    fn barrier(&mut self, n: NodeId) -> WriteAnswer {
        self.disk.barrier(n)
    }

    fn stop(&mut self, n: NodeId, picks: u64) {
        self.disk.stop(n, picks);
    }

    fn start(&mut self, n: NodeId) {
        self.disk.start(n);
    }

    fn lose(&mut self, at: BlockNo) {
        self.disk.lose(at);
    }
}
