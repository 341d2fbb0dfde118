//! How a script is run in a trial, and what is expected of it.
ghost use Rattle.std.specs.Prelude.{◌≤◌, ◌^◌};

use crate::CutDisk;
use crate::streams::{Script, Transcript};
use disk_model::{Fused, MemDisk};
use sd_base::{Arm, Disk, NodeId, Source};
use shared_store::{Status, run};
use std::alloc::{AllocError, Global};
use std::process::Abort;
use std::test::Fail;

/// The port that does wrong where it is told to.
const NODE: NodeId = NodeId(1);

/// What a device of a trial does at one of its calls, counted from 1.
#[derive(Clone, Copy)]
pub(crate) enum Wrong {
    Nothing,
    /// The port stops in this call, and its blocks follow these picks.
    Stop(u32, u64),
    /// This call fails.
    Fail(u32),
}

/// A device in memory that can be armed, and can stop in a call of any kind.
pub(crate) type TrialDisk = CutDisk<Fused<MemDisk>>;

/// A device in memory at which nothing is armed.
pub(crate) fn unarmed(alloc: Global, blocks: u32) -> Result<Fused<MemDisk>, AllocError> {
    Ok(Fused::new(MemDisk::new(alloc, blocks)?))
}

/// A device in memory that does this at a call of node 1.
pub(crate) fn trial_disk(
    alloc: Global,
    blocks: u32,
    wrong: Wrong,
) -> Result<TrialDisk, AllocError> {
    let mut disk = unarmed(alloc, blocks)?;
    let (stop_at, picks) = match wrong {
        Wrong::Nothing => (0, 0),
        Wrong::Stop(call, picks) => (call, picks),
        Wrong::Fail(call) => {
            disk.fail(NODE, call);
            (0, 0)
        }
    };
    Ok(CutDisk::new(disk, stop_at, picks))
}

/// The program's name alone.
pub(crate) fn words(alloc: Global) -> Result<Vec<String>, AllocError> {
    let mut words = Vec::new(alloc);
    words.push(String::from_str(alloc, "store_sim")?)?;
    Ok(words)
}

/// Whether a port of a device may be used.
fn has_live_port<D: Disk>(disk: &D) -> bool {
    for n in 1..17 {
        if disk.is_live(NodeId(n)) {
            return true;
        }
    }
    false
}

/// Runs a script, and answers how it ends and its transcript. The store is closed then: no port may be
/// used.
pub(crate) fn try_out<D: Arm, V: Arm>(
    rt: &(impl Abort + AllocGlobal),
    disk: &mut D,
    vault: &mut V,
    mut source: Script<'_>,
    mut sink: Transcript,
) -> Result<(Status, Transcript), Fail>
    requires { (⟦<Script<'static> as Source>⟧.state source).given ≤ 2 ^ 63 }
{
    let words = words(rt.alloc())?;
    let status = run(rt.alloc(), &words, &mut source, &mut sink, disk, vault);
    assert!(rt; !has_live_port(disk) && !has_live_port(vault));
    Ok((status, sink))
}

/// Runs a script to its end, and compares the transcript, all of which is passed on.
pub(crate) fn expect<D: Arm, V: Arm>(
    rt: &(impl Abort + AllocGlobal),
    disk: &mut D,
    vault: &mut V,
    script: &str,
    transcript: &str,
) -> Result<(), Fail> {
    let source = Script::new(script.as_bytes(), 4096, &[]);
    let sink = Transcript::new(rt.alloc(), 4096, &[], &[]);
    let (status, sink) = try_out(rt, disk, vault, source, sink)?;
    assert_eq!(rt; status, Status::Done, "{script}");
    assert_eq!(rt; sink.bytes(), transcript.as_bytes(), "{script}");
    assert_eq!(rt; sink.flushed(), transcript.len(), "{script}");
    Ok(())
}

/// Runs a script over a disk and a vault of 516 blocks that do this, compares the transcript, and answers
/// the disk.
pub(crate) fn expect_over(
    rt: &(impl Abort + AllocGlobal),
    disk: Wrong,
    vault: Wrong,
    script: &str,
    transcript: &str,
) -> Result<TrialDisk, Fail> {
    let mut disk = trial_disk(rt.alloc(), 516, disk)?;
    let mut vault = trial_disk(rt.alloc(), 516, vault)?;
    expect(rt, &mut disk, &mut vault, script, transcript)?;
    Ok(disk)
}
