//! Scripts over devices of which one call stops or fails: which calls there are, and what is answered then.
use crate::streams::{Script, Transcript};
use crate::trial::{Wrong, expect, expect_over, trial_disk, try_out, unarmed};
use sd_base::{Block, BlockNo, Disk, NodeId, ReadAnswer};
use shared_store::Status;
use std::alloc::{AllocError, Global};
use std::process::Abort;
use std::test::Fail;

/// The device of which a call stops or fails.
#[derive(Clone, Copy)]
enum Device {
    Disk,
    Vault,
}

// A stop that leaves what was written last, and one that leaves what stood there before, as a failure does.
const LAST: u64 = u64::MAX;

const BEFORE: u64 = 0;

/// A script of which a call stops or fails: the replies before it, and those behind it.
#[derive(Clone, Copy)]
struct Trial {
    device: Device,
    script: &'static str,
    before: &'static str,
    after: &'static str,
}

// Runs a script over devices of which one does wrong, and gives this reply then.
fn expect_reply(
    rt: &(impl Abort + AllocGlobal),
    trial: &Trial,
    wrong: Wrong,
    reply: &str,
) -> Result<(), Fail> {
    let (disk, vault) = match trial.device {
        Device::Disk => (wrong, Wrong::Nothing),
        Device::Vault => (Wrong::Nothing, wrong),
    };
    let transcript = format!(in rt.alloc(); "{}{reply}\n{}", trial.before, trial.after)?;
    let _ = expect_over(rt, disk, vault, trial.script, transcript.as_str())?;
    Ok(())
}

const FORMAT: &str = "format 1 8 1 8 0\nstart 1\nformat 1 8 1 8 0\n";

const COMMANDS: &str =
    "format 1 8 1 8 0\nstart 1\nbegin 1.0\nget 1.0 5\nput 1.0 5 a\ncommit 1.0\nformat 1 8 1 8 0\n";

const FLUSH: &str = "format 1 8 1 8 0\nstart 1\nbegin 1.0\nput 1.0 5 a\nflush 1\nstat 1\nflush 1\n";

const ABORT: &str = "format 1 8 1 8 0\nstart 1\nbegin 1.0\nput 1.0 5 a\nabort 1.0\nstat 1\n";

const ABORT_OF_FLUSHED: &str =
    "format 1 8 1 8 0\nstart 1\nbegin 1.0\nput 1.0 5 a\nflush 1\nabort 1.0\nstat 1\n";

// What `COMMANDS` goes on with where its first line opens no store: its last line opens one, or finds a super.
const CLOSED: &str = "closed\nclosed\nclosed\nclosed\nclosed\nok\n";

const CLOSED_AND_FORMATTED: &str = "closed\nclosed\nclosed\nclosed\nclosed\nformatted\n";

#[test]
fn a_stop_and_a_failure_at_each_kind_of_call(rt: HostRuntime) -> Result<(), Fail> {
    let rows: [(Device, &[u32], &str, &str, &str); 9] = [
        // The vault is written before the disk: the super, the anchor and 253 images, and then a barrier.
        (Device::Vault, &[1, 2, 255, 256], FORMAT, "", "closed\nok\n"),
        // The calls of `format`: a read, 262 writes and a barrier, a write and a barrier. Those of `start`:
        // the anchor and the first block of the ring are read. Then two pages are read, and the log is forced.
        (Device::Disk, &[1, 2, 264], COMMANDS, "", CLOSED),
        (
            Device::Disk,
            &[267, 268],
            COMMANDS,
            "ok\n",
            "notup 1\nnotup 1\nnotup 1\nnotup 1\nformatted\n",
        ),
        (
            Device::Disk,
            &[269],
            COMMANDS,
            "ok\nok\nok\n",
            "notup 1\nnotup 1\nformatted\n",
        ),
        (
            Device::Disk,
            &[270],
            COMMANDS,
            "ok\nok\nok\nabsent\n",
            "notup 1\nformatted\n",
        ),
        (
            Device::Disk,
            &[271, 272],
            COMMANDS,
            "ok\nok\nok\nabsent\nok\n",
            "formatted\n",
        ),
        // A flush behind the two pages that a `put` reads: the block of the log is written and covered, and
        // then the two pages are written, and covered by one barrier.
        (
            Device::Disk,
            &[271, 272, 273, 274, 275],
            FLUSH,
            "ok\nok\nok\nok\n",
            "stat down\nnotup 1\n",
        ),
        // An abort writes and covers one block of the log. Where the map page and the page are unchanged in
        // the cache, it reads their blocks before.
        (
            Device::Disk,
            &[271, 272],
            ABORT,
            "ok\nok\nok\nok\n",
            "stat down\n",
        ),
        (
            Device::Disk,
            &[276, 277, 278, 279],
            ABORT_OF_FLUSHED,
            "ok\nok\nok\nok\nflushed 2\n",
            "stat down\n",
        ),
    ];
    for (device, calls, script, before, after) in rows {
        let trial = Trial {
            device,
            script,
            before,
            after,
        };
        for call in calls {
            expect_reply(&rt, &trial, Wrong::Stop(*call, BEFORE), "stopped 1")?;
            expect_reply(&rt, &trial, Wrong::Stop(*call, LAST), "stopped 1")?;
            expect_reply(&rt, &trial, Wrong::Fail(*call), "fault 1")?;
        }
    }
    Ok(())
}

#[test]
fn a_super_that_is_not_covered(rt: HostRuntime) -> Result<(), Fail> {
    // Call 265 writes it, and call 266 covers it. Only a stop that leaves what was written last leaves it.
    let without = Trial {
        device: Device::Disk,
        script: COMMANDS,
        before: "",
        after: CLOSED,
    };
    let with = Trial {
        after: CLOSED_AND_FORMATTED,
        ..without
    };
    for call in [265, 266] {
        expect_reply(&rt, &without, Wrong::Stop(call, BEFORE), "stopped 1")?;
        expect_reply(&rt, &without, Wrong::Fail(call), "fault 1")?;
        expect_reply(&rt, &with, Wrong::Stop(call, LAST), "stopped 1")?;
    }
    Ok(())
}

#[test]
fn an_abort_makes_no_other_call(rt: HostRuntime) -> Result<(), Fail> {
    for (script, transcript, calls) in [
        (ABORT, "ok\nok\nok\nok\nok\nstat up 5 0 43\n", 272),
        (
            ABORT_OF_FLUSHED,
            "ok\nok\nok\nok\nflushed 2\nok\nstat up 5 0 43\n",
            279,
        ),
    ] {
        let disk = expect_over(&rt, Wrong::Nothing, Wrong::Nothing, script, transcript)?;
        assert_eq!(rt; disk.calls(), calls, "{script}");
    }
    Ok(())
}

/// What the first block of the log holds.
fn log_block<D: Disk>(rt: &impl Abort, disk: &mut D) -> Block {
    let mut content = [0; 4096];
    assert!(rt; disk.blocks() > 2);
    disk.start(NodeId(1));
    let answer = disk.read(NodeId(1), BlockNo(2), &mut content);
    assert_eq!(rt; answer, ReadAnswer::Done);
    content
}

// Five records are in the first block of the log.
const FLUSH_OF_TWO: &str =
    "format 1 8 1 8 0\nstart 1\nbegin 1.0\nput 1.0 5 a\nput 1.0 21 b\nflush 1\n";

const ABORT_OF_TWO: &str =
    "format 1 8 1 8 0\nstart 1\nbegin 1.0\nput 1.0 5 a\nput 1.0 21 b\nflush 1\nabort 1.0\n";

#[test]
fn an_abort_reads_before_it_logs(rt: HostRuntime) -> Result<(), Fail> {
    // The first compensation fills the block. Behind the 268 calls of `format` and `start`, the three pages
    // that the writes read, and the six calls of a flush of three pages, the abort reads the map page and
    // the page of each write; then the block is written, and covered.
    let nothing = Wrong::Nothing;
    let flushed = "ok\nok\nok\nok\nok\nflushed 3\n";
    let mut disk = expect_over(&rt, nothing, nothing, FLUSH_OF_TWO, flushed)?;
    let before = log_block(&rt, &mut disk);
    for call in 278..284 {
        let stopped = "ok\nok\nok\nok\nok\nflushed 3\nstopped 1\n";
        let stop = Wrong::Stop(call, LAST);
        let mut disk = expect_over(&rt, stop, nothing, ABORT_OF_TWO, stopped)?;
        let is_written = log_block(&rt, &mut disk) != before;
        assert_eq!(rt; is_written, call >= 282, "call {call}");
    }
    Ok(())
}

// Lines of the keys of twenty groups.
fn lines(alloc: Global, form: &str) -> Result<String, AllocError> {
    let mut all = String::new(alloc);
    for group in 0..20u32 {
        let line = format!(in alloc; "{form} {} v\n", group.saturating_mul(16))?;
        all.push_str(line.as_str())?;
    }
    Ok(all)
}

// How many bytes of these rows a dump prints where this call of the disk fails. Behind them comes the fault.
fn rows_before_a_fault(
    rt: &(impl Abort + AllocGlobal),
    fail_at: u32,
    script: &str,
    replies: &str,
) -> Result<usize, Fail> {
    let mut disk = trial_disk(rt.alloc(), 271, Wrong::Fail(fail_at))?;
    let mut vault = unarmed(rt.alloc(), 263)?;
    let source = Script::new(script.as_bytes(), 4096, &[]);
    let sink = Transcript::new(rt.alloc(), 4096, &[], &[]);
    let (status, sink) = try_out(rt, &mut disk, &mut vault, source, sink)?;
    assert_eq!(rt; status, Status::Done, "call {fail_at}");
    let front = sink.bytes().strip_suffix(b"fault 1\nstat down\nnotup 1\n");
    let front = front.expect(rt, "a fault at the end");
    assert!(rt; replies.as_bytes().starts_with(front), "call {fail_at}");
    assert!(rt; front.ends_with(b"\n"), "call {fail_at}");
    Ok(front.len())
}

#[test]
fn a_dump_that_a_fault_ends(rt: HostRuntime) -> Result<(), Fail> {
    // Twenty groups have records, and a cache has sixteen pages, so a dump reads some. Whichever of its calls
    // fails, the rows before it stand, in their order, and no `end` comes behind.
    let puts = lines(rt.alloc(), "put 1.0")?;
    let rows = lines(rt.alloc(), "record")?;
    let before = format!(in rt.alloc();
        "format 1 16 1 8 0\nstart 1\nbegin 1.0\n{puts}commit 1.0\nflush 1\n"
    )?;
    let done =
        "ok\nok\nok\nok\nok\nok\nok\nok\nok\nok\nok\nok\nok\nok\nok\nok\nok\nok\nok\nok\nok\nok\nok\nok\nflushed 16\n";
    let none = Wrong::Nothing;
    let first = expect_over(&rt, none, none, before.as_str(), done)?.calls();
    let script = format!(in rt.alloc(); "{before}dump 1\n")?;
    let replies = format!(in rt.alloc(); "{done}{rows}end 20\n")?;
    let end = expect_over(&rt, none, none, script.as_str(), replies.as_str())?.calls();
    let script = format!(in rt.alloc(); "{script}stat 1\ndump 1\n")?;
    let mut last = done.len();
    for call in first..end {
        let call = call.saturating_add(1);
        let front = rows_before_a_fault(&rt, call, script.as_str(), replies.as_str())?;
        // A later call comes behind no fewer rows.
        assert!(rt; last <= front, "call {call}");
        last = front;
    }
    // The last call comes behind all rows but one.
    let front = replies.as_bytes().strip_suffix(b"record 304 v\nend 20\n");
    assert!(rt; matches!(front, Some(front) if front.len() == last));
    Ok(())
}

#[test]
fn a_dump_looks_first_where_it_was(rt: HostRuntime) -> Result<(), Fail> {
    // Of seventeen map pages a cache has sixteen at most, so each walk over them calls the disk. The second
    // record of a group costs none: it is found where the first one was.
    let mut calls = [0; 2];
    for (i, (puts, rows)) in [
        ("put 1.0 5 a\nput 1.0 5 b\n", "record 5 b\nend 1\n"),
        (
            "put 1.0 5 a\nput 1.0 15 b\n",
            "record 5 a\nrecord 15 b\nend 2\n",
        ),
    ]
    .into_iter()
    .enumerate()
    {
        let script = format!(in rt.alloc();
            "format 1 8 17 8 0\nstart 1\nbegin 1.0\n{puts}commit 1.0\ndump 1\n"
        )?;
        let transcript = format!(in rt.alloc(); "ok\nok\nok\nok\nok\nok\n{rows}")?;
        let mut disk = trial_disk(rt.alloc(), 4311, Wrong::Nothing)?;
        let mut vault = unarmed(rt.alloc(), 4311)?;
        let (script, transcript) = (script.as_str(), transcript.as_str());
        expect(&rt, &mut disk, &mut vault, script, transcript)?;
        calls[i] = disk.calls();
    }
    assert_eq!(rt; calls[0], calls[1]);
    Ok(())
}
