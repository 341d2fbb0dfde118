//! What stops leave of a log, and what is made of lost and damaged blocks in it.

ghost use Rattle.std.specs.Prelude.{◌≡◌, ◌≤◌, ◌<◌, true, OnOk};
ghost use Rattle.store_trials.specs.LogTrial.{IsReady, IsFreeForOne};

use disk_model::MemDisk;
use private_log::Log;
use sd_base::{Block, BlockNo, DevFault, Disk, NodeId, Shape, cover, write_anchor, write_block};
use std::test::Fail;

const NODE: NodeId = NodeId(1);

const SHAPE: Shape = Shape {
    nodes: 1,
    ring: 4,
    maps: 1,
    keep: 1,
    birth: 0,
};

/// What is done to a log.
#[derive(Clone, Copy)]
enum Step {
    /// Appends so many records.
    Append(u64),
    Force,
    MoveStart(u64),
}

/// What is left of a log.
#[derive(Clone, Copy, Debug, PartialEq, Eq)]
struct Left {
    /// The space before the stop.
    space: u64,
    /// The tail after it.
    tail: u64,
    /// Whether each record that is left is the one that was appended.
    same: bool,
}

fn text(number: u64) -> [u8; 672] {
    [(number % 251) as u8; 672]
}

/// Writes the anchor of a log that starts with block 0.
fn write_start<D: Disk>(disk: &mut D) -> Result<(), DevFault>
    requires live { (D.state disk.old).live 1 ≡ true }
    requires size { 6 ≤ (D.state disk.old).size }
    requires free { IsFreeForOne D.told (D.state disk.old) }
    ensures live { OnOk result ((D.state disk.new).live 1 ≡ true) }
    ensures size { (D.state disk.new).size ≡ (D.state disk.old).size }
    ensures free { IsFreeForOne D.told (D.state disk.new) }
{
    let mut anchor = [0; 4096];
    write_anchor(NODE, false, 0, &mut anchor);
    write_block(disk, NODE, SHAPE.anchor_block(false, NODE), &anchor)?;
    cover(disk, NODE)
}

fn append_some<D: Disk>(log: &mut Log, disk: &mut D, count: u64) -> Result<(), DevFault>
    requires ready { IsReady log.old (D.state disk.old) }
    requires free { IsFreeForOne D.told (D.state disk.old) }
    ensures ready { OnOk result (IsReady log.new (D.state disk.new)) }
    ensures free { IsFreeForOne D.told (D.state disk.new) }
    ensures size { (D.state disk.new).size ≡ (D.state disk.old).size }
{
    for _ in 0..count {
        if log.space() == 0 {
            return Ok(());
        }
        let text = text(log.tail());
        log.append(disk, NODE, &text)?;
    }
    Ok(())
}

fn take_step<D: Disk>(log: &mut Log, disk: &mut D, step: Step) -> Result<(), DevFault>
    requires ready { IsReady log.old (D.state disk.old) }
    requires free { IsFreeForOne D.told (D.state disk.old) }
    ensures ready { OnOk result (IsReady log.new (D.state disk.new)) }
    ensures free { IsFreeForOne D.told (D.state disk.new) }
    ensures size { (D.state disk.new).size ≡ (D.state disk.old).size }
{
    match step {
        Step::Append(count) => append_some(log, disk, count),
        Step::Force => log.force(disk, NODE),
        Step::MoveStart(to) => {
            if to < log.start() || to > log.stable() / 6 {
                return Ok(());
            }
            log.move_start(disk, NODE, to)
        }
    }
}

/// Attaches the log, takes the steps, and answers the space after them.
fn take_steps<D: Disk>(disk: &mut D, steps: &[Step]) -> Result<u64, DevFault>
    requires live { (D.state disk.old).live 1 ≡ true }
    requires size { 6 ≤ (D.state disk.old).size }
    requires free { IsFreeForOne D.told (D.state disk.old) }
    ensures free { IsFreeForOne D.told (D.state disk.new) }
    ensures size { (D.state disk.new).size ≡ (D.state disk.old).size }
{
    let mut log = Log::attach(disk, &SHAPE, NODE, NODE)?;
    for step in steps {
        take_step(&mut log, disk, *step)?;
    }
    Ok(log.space())
}

/// Whether each record of a log is the one that was appended.
fn reads_same<D: Disk>(log: &Log, disk: &mut D) -> Result<bool, DevFault>
    requires ready { IsReady log.now (D.state disk.old) }
{
    let mut record = [0; 672];
    for r in 6 * log.start()..log.tail() {
        log.read(disk, NODE, r, &mut record)?;
        if record != text(r) {
            return Ok(false);
        }
    }
    Ok(true)
}

/// Takes the steps on an empty log, stops the port, and reads what is left.
fn try_out<D: Disk>(disk: &mut D, steps: &[Step], picks: u64) -> Result<Left, DevFault>
    requires size { 6 ≤ (D.state disk.old).size }
    requires free { IsFreeForOne D.told (D.state disk.old) }
{
    disk.start(NODE);
    write_start(disk)?;
    let space = take_steps(disk, steps)?;
    disk.stop(NODE, picks);
    disk.start(NODE);
    let log = Log::attach(disk, &SHAPE, NODE, NODE)?;
    let same = reads_same(&log, disk)?;
    Ok(Left {
        space,
        tail: log.tail(),
        same,
    })
}

#[test]
fn the_records_that_a_stop_leaves(rt: HostRuntime) -> Result<(), Fail> {
    let full = [Step::Append(24), Step::Force];
    let moved = [Step::Append(24), Step::Force, Step::MoveStart(2)];
    let lapped = [
        Step::Append(24),
        Step::Force,
        Step::MoveStart(2),
        Step::Append(12),
    ];
    let forced = [Step::Append(8), Step::Force, Step::Append(4)];
    let rows: [(&[Step], u64, u64, u64); 10] = [
        (&[Step::Append(6)], 0, 18, 0),
        (&[Step::Append(6)], 1, 18, 6),
        (&[Step::Append(7)], 0, 17, 0),
        (&[Step::Append(7)], 1, 17, 6),
        (&forced, 0, 12, 8),
        (&forced, 1, 12, 12),
        (&full, 0, 0, 24),
        (&moved, 0, 12, 24),
        (&lapped, 0, 0, 30),
        (&lapped, 1, 0, 36),
    ];
    for (steps, picks, space, tail) in rows {
        let mut disk = MemDisk::new(rt.alloc(), 6)?;
        let left = Left {
            space,
            tail,
            same: true,
        };
        assert_eq!(rt;
            try_out(&mut disk, steps, picks),
            Ok(left),
            "tail {tail} picks {picks}"
        );
    }
    Ok(())
}

/// Attaches the log where a block of its region has this content.
fn attach_over<D: Disk>(disk: &mut D, at: BlockNo, content: &Block) -> Result<u64, DevFault>
    requires at { at.0 < 6 }
    requires size { 6 ≤ (D.state disk.old).size }
    requires free { IsFreeForOne D.told (D.state disk.old) }
{
    disk.start(NODE);
    write_start(disk)?;
    write_block(disk, NODE, at, content)?;
    let log = Log::attach(disk, &SHAPE, NODE, NODE)?;
    Ok(log.tail())
}

#[test]
fn blocks_that_may_not_stand_in_a_log(rt: HostRuntime) -> Result<(), Fail> {
    let mut of_the_node = [0; 4096];
    write_anchor(NODE, false, 3, &mut of_the_node);
    let mut of_the_vault = [0; 4096];
    write_anchor(NODE, true, 3, &mut of_the_vault);
    let damaged = |at| Err(DevFault::Damaged(BlockNo(at)));
    for (at, content, answer) in [
        (1, of_the_node, Ok(18)),
        (1, of_the_vault, damaged(1)),
        (1, [0; 4096], damaged(1)),
        (2, [0; 4096], Ok(0)),
        (2, [255; 4096], damaged(2)),
        (2, of_the_node, damaged(2)),
        (3, [255; 4096], Ok(0)),
    ] {
        let mut disk = MemDisk::new(rt.alloc(), 6)?;
        assert_eq!(rt;
            attach_over(&mut disk, BlockNo(at), &content),
            answer,
            "block {at}"
        );
    }
    Ok(())
}
