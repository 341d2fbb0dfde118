//! Armed devices and windows: at which call a count comes due, and what it leaves of the blocks.
ghost use Rattle.std.specs.Prelude.{◌≡◌, ◌≤◌, ℕ, true, IsTrue};
ghost use Rattle.sd_base.specs.Disk.{IsFreeFor};

use disk_model::{Fused, MemDisk, Range, Window};
use sd_base::{Arm, Block, BlockNo, Disk, NodeId, ReadAnswer, WriteAnswer};
use std::process::Abort;
use std::test::Fail;

/// The port that is armed.
const ARMED: NodeId = NodeId(1);

/// The port through which a test looks at the blocks.
const READER: NodeId = NodeId(2);

/// What a device of four blocks is told to do, through the armed port but for `Look`.
#[derive(Clone, Copy, Debug)]
enum Step {
    /// To cut the write of this number, by these picks.
    Cut(u32, u64),
    /// To fail at the call of this number.
    Fail(u32),
    /// To fill this block with this byte.
    Write(u32, u8),
    Read(u32),
    Cover,
    Stop,
    /// To read this block through the other port.
    Look(u32),
}

/// What came of it.
#[derive(Clone, Copy, Debug, PartialEq, Eq)]
enum Seen {
    Done,
    /// The block was read, and this is its last byte.
    Byte(u8),
    Lost,
    Stopped,
    Failed,
}

fn seen_of(answer: WriteAnswer) -> Seen {
    match answer {
        WriteAnswer::Done => Seen::Done,
        WriteAnswer::Stopped => Seen::Stopped,
        WriteAnswer::Failed => Seen::Failed,
    }
}

/// Fills a block. The port is started first, as before each call: a start leaves what is armed.
fn fill<D: Disk>(disk: &mut D, at: u32, byte: u8) -> Seen
    requires reach { (D.state disk.old).reach at ≡ true }
    requires free { IsTrue D.told → (k : ℕ) → IsFreeFor 1 ((D.state disk.old).block k) }
    ensures size { (D.state disk.new).size ≡ (D.state disk.old).size }
    ensures reach { (D.state disk.new).reach ≡ (D.state disk.old).reach }
    ensures free { IsTrue D.told → (k : ℕ) → IsFreeFor 1 ((D.state disk.new).block k) }
{
    disk.start(ARMED);
    let content: Block = [byte; 4096];
    seen_of(disk.write(ARMED, BlockNo(at), &content))
}

fn cover<D: Disk>(disk: &mut D) -> Seen
    requires { IsTrue D.told → (k : ℕ) → IsFreeFor 1 ((D.state disk.old).block k) }
    ensures size { (D.state disk.new).size ≡ (D.state disk.old).size }
    ensures reach { (D.state disk.new).reach ≡ (D.state disk.old).reach }
    ensures free { IsTrue D.told → (k : ℕ) → IsFreeFor 1 ((D.state disk.new).block k) }
{
    disk.start(ARMED);
    seen_of(disk.barrier(ARMED))
}

fn look<D: Disk>(disk: &mut D, n: NodeId, at: u32) -> Seen
    requires port { (1 ≤ n.0) × (n.0 ≤ 16) }
    requires reach { (D.state disk.old).reach at ≡ true }
    requires free { IsTrue D.told → (k : ℕ) → IsFreeFor 1 ((D.state disk.old).block k) }
    ensures size { (D.state disk.new).size ≡ (D.state disk.old).size }
    ensures reach { (D.state disk.new).reach ≡ (D.state disk.old).reach }
    ensures free { IsTrue D.told → (k : ℕ) → IsFreeFor 1 ((D.state disk.new).block k) }
{
    disk.start(n);
    let mut content: Block = [255; 4096];
    match disk.read(n, BlockNo(at), &mut content) {
        ReadAnswer::Done => Seen::Byte(content[4095]),
        ReadAnswer::Lost => Seen::Lost,
        ReadAnswer::Stopped => Seen::Stopped,
        ReadAnswer::Failed => Seen::Failed,
    }
}

fn take_step<D: Arm>(disk: &mut D, step: Step) -> Seen
    requires size { 4 ≤ (D.state disk.old).size }
    requires free { IsTrue D.told → (k : ℕ) → IsFreeFor 1 ((D.state disk.old).block k) }
    ensures size { (D.state disk.new).size ≡ (D.state disk.old).size }
    ensures free { IsTrue D.told → (k : ℕ) → IsFreeFor 1 ((D.state disk.new).block k) }
{
    match step {
        Step::Write(at, byte) => return fill(disk, at.min(3), byte),
        Step::Read(at) => return look(disk, ARMED, at.min(3)),
        Step::Look(at) => return look(disk, READER, at.min(3)),
        Step::Cover => return cover(disk),
        Step::Cut(writes, picks) => disk.arm(ARMED, writes, picks),
        Step::Fail(calls) => disk.fail(ARMED, calls),
        Step::Stop => disk.stop(ARMED, 0),
    }
    Seen::Done
}

/// Takes each step, and compares what came of it.
fn take_steps<D: Arm>(rt: &impl Abort, disk: &mut D, steps: &[(Step, Seen)])
    requires size { 4 ≤ (D.state disk.old).size }
    requires free { IsTrue D.told → (k : ℕ) → IsFreeFor 1 ((D.state disk.old).block k) }
{
    for (number, (step, wanted)) in steps.iter().enumerate() {
        let seen = take_step(disk, *step);
        assert_eq!(rt; seen, *wanted, "step {number}, {step:?}");
    }
}

/// Takes the steps on a new device.
fn expect(rt: &(impl Abort + AllocGlobal), steps: &[(Step, Seen)]) -> Result<(), Fail> {
    let mut disk = Fused::new(MemDisk::new(rt.alloc(), 4)?);
    take_steps(rt, &mut disk, steps);
    Ok(())
}

/// The last bytes of blocks 0 to 3.
fn contents<D: Disk>(disk: &mut D) -> [Seen; 4]
    requires size { 4 ≤ (D.state disk.old).size }
    requires free { IsTrue D.told → (k : ℕ) → IsFreeFor 1 ((D.state disk.old).block k) }
{
    let first = look(disk, READER, 0);
    let second = look(disk, READER, 1);
    let third = look(disk, READER, 2);
    [first, second, third, look(disk, READER, 3)]
}

/// Fills blocks 2, 0, 3 and 1 and covers them, where a write is to be cut. How many writes were done,
/// and what the blocks hold.
fn after_cut<D: Arm>(disk: &mut D, writes: u32, picks: u64) -> (u32, [Seen; 4])
    requires size { 4 ≤ (D.state disk.old).size }
    requires free { IsTrue D.told → (k : ℕ) → IsFreeFor 1 ((D.state disk.old).block k) }
{
    disk.arm(ARMED, writes, picks);
    let mut done: u32 = 0;
    for (at, byte) in [(2, 7), (0, 9), (3, 5), (1, 6)] {
        if take_step(disk, Step::Write(at, byte)) != Seen::Done {
            break;
        }
        done = done.saturating_add(1);
    }
    if done == 4 {
        let _ = cover(disk);
    }
    (done, contents(disk))
}

#[test]
fn a_cut_settles_by_its_picks(rt: HostRuntime) -> Result<(), Fail> {
    let table = [
        (1, 0, 0, [0, 0, 0, 0]),
        (1, 1, 0, [0, 0, 7, 0]),
        (1, 2, 0, [0, 0, 0, 0]),
        (1, u64::MAX, 0, [0, 0, 7, 0]),
        (3, 0, 2, [0, 0, 0, 0]),
        (3, 1, 2, [0, 0, 7, 0]),
        (3, 2, 2, [9, 0, 0, 0]),
        (3, 4, 2, [0, 0, 0, 5]),
        (3, u64::MAX, 2, [9, 0, 7, 5]),
        (4, 0, 3, [0, 0, 0, 0]),
        (4, 1, 3, [0, 0, 7, 0]),
        (4, 2, 3, [9, 0, 0, 0]),
        (4, u64::MAX, 3, [9, 6, 7, 5]),
        (5, 0, 4, [9, 6, 7, 5]),
    ];
    for (writes, picks, done, bytes) in table {
        let mut disk = Fused::new(MemDisk::new(rt.alloc(), 4)?);
        let wanted = (done, bytes.map(Seen::Byte));
        assert_eq!(rt;
            after_cut(&mut disk, writes, picks),
            wanted,
            "write {writes}, picks {picks}"
        );
    }
    Ok(())
}

#[test]
fn a_call_fails_and_keeps_nothing(rt: HostRuntime) -> Result<(), Fail> {
    use Seen::{Byte, Done, Failed};
    use Step::{Cover, Fail, Look, Read, Write};
    expect(
        &rt,
        &[
            (Fail(2), Done),
            (Write(0, 7), Done),
            (Write(1, 8), Failed),
            (Look(0), Byte(0)),
            (Look(1), Byte(0)),
            (Write(1, 8), Done),
            (Cover, Done),
            (Look(1), Byte(8)),
        ],
    )?;
    expect(
        &rt,
        &[
            (Fail(2), Done),
            (Write(0, 7), Done),
            (Look(0), Byte(7)),
            (Read(0), Failed),
            (Look(0), Byte(0)),
            (Read(0), Byte(0)),
        ],
    )?;
    expect(
        &rt,
        &[
            (Fail(3), Done),
            (Write(0, 7), Done),
            (Read(0), Byte(7)),
            (Cover, Failed),
            (Look(0), Byte(0)),
            (Cover, Done),
        ],
    )
}

#[test]
fn both_counts_stand_at_one_port(rt: HostRuntime) -> Result<(), Fail> {
    use Seen::{Byte, Done, Failed, Stopped};
    use Step::{Cover, Cut, Fail, Look, Read, Write};
    // Both are due at one write, and both are used up.
    expect(
        &rt,
        &[
            (Cut(2, u64::MAX), Done),
            (Fail(2), Done),
            (Write(0, 7), Done),
            (Write(1, 8), Stopped),
            (Look(0), Byte(7)),
            (Look(1), Byte(8)),
            (Write(2, 9), Done),
            (Read(2), Byte(9)),
            (Cover, Done),
        ],
    )?;
    // A write that fails counts for the cut; a read and a barrier don't.
    expect(
        &rt,
        &[
            (Cut(3, u64::MAX), Done),
            (Fail(1), Done),
            (Write(0, 7), Failed),
            (Read(0), Byte(0)),
            (Write(0, 8), Done),
            (Cover, Done),
            (Write(1, 9), Stopped),
            (Look(1), Byte(9)),
        ],
    )
}

#[test]
fn a_count_outlasts_a_stop_and_gives_way_to_the_next(rt: HostRuntime) -> Result<(), Fail> {
    use Seen::{Byte, Done, Failed, Stopped};
    use Step::{Cut, Fail, Look, Read, Stop, Write};
    expect(
        &rt,
        &[
            (Cut(2, u64::MAX), Done),
            (Fail(3), Done),
            (Write(0, 7), Done),
            (Stop, Done),
            (Look(0), Byte(0)),
            (Write(1, 8), Stopped),
            (Look(1), Byte(8)),
            (Stop, Done),
            (Read(1), Failed),
        ],
    )?;
    expect(
        &rt,
        &[
            (Cut(1, 0), Done),
            (Cut(2, 1), Done),
            (Fail(1), Done),
            (Fail(0), Done),
            (Write(0, 7), Done),
            (Write(1, 8), Stopped),
            (Look(0), Byte(7)),
            (Look(1), Byte(0)),
            (Cut(1, 0), Done),
            (Cut(0, 0), Done),
            (Write(1, 8), Done),
        ],
    )
}

/// Fills two blocks of a window and covers them: what `blocks` answers, and what one of them holds.
fn fill_two<D: Disk>(disk: &mut D) -> (u32, Seen)
    requires first { (D.state disk.old).reach 2 ≡ true }
    requires second { (D.state disk.old).reach 6 ≡ true }
    requires free { IsTrue D.told → (k : ℕ) → IsFreeFor 1 ((D.state disk.old).block k) }
    ensures free { IsTrue D.told → (k : ℕ) → IsFreeFor 1 ((D.state disk.new).block k) }
{
    let _ = fill(disk, 2, 7);
    let _ = fill(disk, 6, 9);
    let _ = cover(disk);
    (disk.blocks(), look(disk, READER, 6))
}

/// What a block of a device holds, whatever was done to it.
fn seen_at<D: Disk>(disk: &mut D, at: u32) -> Seen {
    if at >= disk.blocks() {
        return Seen::Lost;
    }
    disk.start(READER);
    let mut content: Block = [255; 4096];
    match disk.read(READER, BlockNo(at), &mut content) {
        ReadAnswer::Done => Seen::Byte(content[4095]),
        _ => Seen::Lost,
    }
}

/// Does it through a window of blocks 1, 2 and 6, and looks at the device afterwards.
fn in_window<D: Disk>(disk: &mut D) -> (u32, Seen, Seen, Seen)
    requires size { 8 ≤ (D.state disk.old).size }
    requires free { IsTrue D.told → (k : ℕ) → IsFreeFor 1 ((D.state disk.old).block k) }
{
    let one = Range {
        first: BlockNo(1),
        count: 2,
    };
    let two = Range {
        first: BlockNo(6),
        count: 1,
    };
    let mut window = Window::new(disk, one, two);
    let (blocks, inside) = fill_two(&mut window);
    (blocks, inside, seen_at(disk, 2), seen_at(disk, 5))
}

#[test]
fn a_window_is_the_device_on_its_blocks(rt: HostRuntime) -> Result<(), Fail> {
    let mut disk = MemDisk::new(rt.alloc(), 8)?;
    let wanted = (0, Seen::Byte(9), Seen::Byte(7), Seen::Byte(0));
    assert_eq!(rt; in_window(&mut disk), wanted);
    Ok(())
}
