//! Scripts over sources and sinks that fail, or take and give pieces that end anywhere; the words of the program.
ghost use Rattle.std.specs.Prelude.{◌≤◌, ◌^◌};

use crate::streams::{Script, Transcript};
use crate::trial::{try_out, unarmed, words};
use sd_base::Source;
use shared_store::{Status, run};
use std::process::Abort;
use std::test::Fail;

// Runs a script over streams, and compares how it ends and what the sink took.
fn expect_end(
    rt: &(impl Abort + AllocGlobal),
    source: Script<'_>,
    sink: Transcript,
    status: Status,
    transcript: &str,
) -> Result<(), Fail>
    requires { (⟦<Script<'static> as Source>⟧.state source).given ≤ 2 ^ 63 }
{
    let mut disk = unarmed(rt.alloc(), 263)?;
    let mut vault = unarmed(rt.alloc(), 263)?;
    let (ended, sink) = try_out(rt, &mut disk, &mut vault, source, sink)?;
    assert_eq!(rt; ended, status, "{transcript}");
    assert_eq!(rt; sink.bytes(), transcript.as_bytes());
    Ok(())
}

#[test]
fn streams_that_fail(rt: HostRuntime) -> Result<(), Fail> {
    let script = b"format 1 8 1 8 0\nstart 1\nbegin 1.0\n";
    for (reads, taken, writes, flushes, status, transcript) in [
        (&[2], 4096, &[0], &[0], Status::ReadFault, "ok\n"),
        (&[0], 0, &[0], &[0], Status::WriteFault, ""),
        (&[0], 4096, &[1], &[0], Status::WriteFault, ""),
        (&[0], 4096, &[3], &[0], Status::WriteFault, "ok\nok\n"),
        (&[0], 4096, &[0], &[1], Status::WriteFault, "ok\n"),
        (&[0], 4096, &[0], &[0], Status::Done, "ok\nok\nok\n"),
    ] {
        let source = Script::new(script, 17, reads);
        let sink = Transcript::new(rt.alloc(), taken, writes, flushes);
        expect_end(&rt, source, sink, status, transcript)?;
    }
    Ok(())
}

#[test]
fn a_sink_that_fails_in_a_dump(rt: HostRuntime) -> Result<(), Fail> {
    // Each row is written and flushed by itself: the first one is the seventh reply.
    let script =
        b"format 1 8 1 8 0\nstart 1\nbegin 1.0\nput 1.0 5 a\nput 1.0 21 b\ncommit 1.0\ndump 1\nstat 1\n";
    for (writes, flushes, rows) in [
        (&[7], &[0], ""),
        (&[0], &[7], "record 5 a\n"),
        (&[8], &[0], "record 5 a\n"),
        (&[0], &[8], "record 5 a\nrecord 21 b\n"),
        (&[9], &[0], "record 5 a\nrecord 21 b\n"),
        (&[0], &[9], "record 5 a\nrecord 21 b\nend 2\n"),
    ] {
        let source = Script::new(script, 4096, &[]);
        let sink = Transcript::new(rt.alloc(), 4096, writes, flushes);
        let transcript = format!(in rt.alloc(); "ok\nok\nok\nok\nok\nok\n{rows}")?;
        expect_end(&rt, source, sink, Status::WriteFault, transcript.as_str())?;
    }
    Ok(())
}

#[test]
fn pieces_that_end_anywhere(rt: HostRuntime) -> Result<(), Fail> {
    let script =
        b"# note\nformat 1 8 1 8 0\nstart 1\nbegin 1.0\nput 1.0 5 a \\x00b\n\nget 1.0 5\nget 1.0 6";
    let transcript = "ok\nok\nok\nok\nvalue a \\x00b\nabsent\n";
    for (given, taken) in [(1, 1), (1, 4096), (2, 2), (4096, 1), (7, 3), (31, 5)] {
        let source = Script::new(script, given, &[]);
        let sink = Transcript::new(rt.alloc(), taken, &[], &[]);
        expect_end(&rt, source, sink, Status::Done, transcript)?;
    }
    Ok(())
}

#[test]
fn words_that_are_not_allowed(rt: HostRuntime) -> Result<(), Fail> {
    let alloc = rt.alloc();
    let mut two = words(alloc)?;
    two.push(String::from_str(alloc, "sweep")?)?;
    for words in [Vec::new(alloc), two] {
        let mut disk = unarmed(alloc, 263)?;
        let mut vault = unarmed(alloc, 263)?;
        let mut source = Script::new(b"get 1.0 5\n", 4096, &[]);
        let mut sink = Transcript::new(alloc, 4096, &[], &[]);
        let status = run(alloc, &words, &mut source, &mut sink, &mut disk, &mut vault);
        assert_eq!(rt; status, Status::Usage);
        assert_eq!(rt; sink.bytes().len(), 0);
    }
    Ok(())
}
