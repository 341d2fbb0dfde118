//! Lines that spell a command and lines that spell none, and the line of each reply.
use script_text::Command::{
    Abort, Append, Bad, Begin, Commit, Del, Dump, Flush, Format, Get, Put, Start, Stat,
};
use script_text::{Command, Reply, ReplyText, read_line, write_reply};
use sd_base::{BlockNo, Key, NodeId, PageNo, Shape, TxnId, Value};
use std::process;
use std::test::Fail;

const FIRST: TxnId = TxnId {
    node: NodeId(1),
    seat: 0,
};

const LAST: TxnId = TxnId {
    node: NodeId(16),
    seat: 7,
};

const SMALLEST: Shape = Shape {
    nodes: 1,
    ring: 4,
    maps: 1,
    keep: 1,
    birth: 0,
};

const SMALL: Shape = Shape {
    nodes: 1,
    ring: 8,
    maps: 1,
    keep: 8,
    birth: 7,
};

const LARGEST: Shape = Shape {
    nodes: 8,
    ring: 4096,
    maps: 256,
    keep: 65536,
    birth: 1 << 63,
};

// Each form without a value, with the least and the greatest numbers.
const COMMANDS: [(&str, Command); 21] = [
    ("format 1 4 1 1 0", Format(SMALLEST)),
    (
        "format 8 4096 256 65536 9223372036854775808",
        Format(LARGEST),
    ),
    ("format 1 8 1 8 7", Format(SMALL)),
    ("start 1", Start(NodeId(1))),
    ("start 16", Start(NodeId(16))),
    ("begin 1.0", Begin(FIRST)),
    ("begin 16.7", Begin(LAST)),
    ("get 1.0 0", Get(FIRST, Key(0))),
    ("get 16.7 4294967295", Get(LAST, Key(4294967295))),
    ("del 1.0 0", Del(FIRST, Key(0))),
    ("del 16.7 4294967295", Del(LAST, Key(4294967295))),
    ("commit 1.0", Commit(FIRST)),
    ("commit 16.7", Commit(LAST)),
    ("abort 1.0", Abort(FIRST)),
    ("abort 16.7", Abort(LAST)),
    ("flush 1", Flush(NodeId(1))),
    ("flush 16", Flush(NodeId(16))),
    ("dump 1", Dump(NodeId(1))),
    ("dump 16", Dump(NodeId(16))),
    ("stat 1", Stat(NodeId(1))),
    ("stat 16", Stat(NodeId(16))),
];

// Lines that spell no command.
const BAD: &[&str] = &[
    "",
    " ",
    "hello",
    // One past each range.
    "format 0 4 1 1 0",
    "format 9 8 1 8 0",
    "format 1 3 1 1 0",
    "format 1 4097 1 1 0",
    "format 1 4 0 1 0",
    "format 1 4 257 1 0",
    "format 1 4 1 0 0",
    "format 1 4 1 65537 0",
    "format 1 4 1 1 9223372036854775809",
    "format 1 4294967300 1 1 0",
    "start 0",
    "start 17",
    "begin 0.0",
    "begin 17.0",
    "begin 1.8",
    "begin 1.256",
    "get 1.0 4294967296",
    "get 1.0 18446744073709551621",
    // Leading zeros, signs, and what is no digit.
    "start 01",
    "start +1",
    "start 0x1",
    "begin 1.00",
    "get 1.0 -5",
    "get 1.0 1_0",
    // Points.
    "begin 1",
    "begin 1.",
    "begin .0",
    "begin 1.0.0",
    "begin 1,0",
    "start 1.0",
    // Spaces and tabs.
    " start 1",
    "start  1",
    "start 1 ",
    "start\t1",
    "start 1\r",
    "put 1.0  5 a",
    "put 1.0 5 \t",
    // Upper case.
    "START 1",
    // Words that are missing, and words too many.
    "format 1 4 1 1",
    "format 1 4 1 1 0 0",
    "start",
    "get 1.0",
    "get 1.0 5 6",
    "put 1.0 5",
    // Names that go on, and names that end early.
    "starts 1",
    "star 1",
    // Other spellings of values.
    "put 1.0 5 \\",
    "put 1.0 5 \\x5",
    "put 1.0 5 \\x5C",
    "put 1.0 5 \\x41",
    "put 1.0 5 \\X00",
    "put 1.0 5 \\x0g",
    "put 1.0 5 \\\\",
    "put 1.0 5 \u{7f}",
    "put 1.0 5 \u{e9}",
    "append 1.0 5 \\x7e",
    // Forms that no store executes yet, and comments.
    "open",
    "recover 1",
    "# note",
];

#[test]
fn lines_and_commands(rt: HostRuntime) {
    for (line, command) in COMMANDS {
        assert_eq!(rt; read_line(line.as_bytes()), command, "{line:?}");
    }
    for line in BAD {
        assert_eq!(rt; read_line(line.as_bytes()), Bad, "{line:?}");
    }
}

// The line of a reply.
fn check_reply(rt: &impl process::Abort, reply: &Reply, line: &str) {
    let mut text = ReplyText::new();
    if !matches!(reply, Reply::NoMore) {
        write_reply(reply, &mut text);
    }
    assert_eq!(rt; text.as_slice(), line.as_bytes(), "{line:?}");
}

// A value, a line that puts it, and the reply that shows it.
const VALUES: &[(&[u8], &str, &str)] = &[
    (b"", "put 1.0 5 ", "value \n"),
    (b"hello", "put 1.0 5 hello", "value hello\n"),
    (b" a  b ", "put 1.0 5  a  b ", "value  a  b \n"),
    (
        b"\\x41\0\n\xff",
        "put 1.0 5 \\x5cx41\\x00\\x0a\\xff",
        "value \\x5cx41\\x00\\x0a\\xff\n",
    ),
    // Around the bytes that stand for themselves.
    (
        b"\x1f !09@AZ[]_`az{~\x7f\x80",
        "put 1.0 5 \\x1f !09@AZ[]_`az{~\\x7f\\x80",
        "value \\x1f !09@AZ[]_`az{~\\x7f\\x80\n",
    ),
];

#[test]
fn lines_and_values(rt: HostRuntime) -> Result<(), Fail> {
    for (bytes, line, reply) in VALUES {
        let value = Value::from_slice(bytes).ok_or("too long")?;
        assert_eq!(rt;
            read_line(line.as_bytes()),
            Put(FIRST, Key(5), value),
            "{line:?}"
        );
        check_reply(&rt, &Reply::Found(value), reply);
    }
    let value = Value::from_slice(b" x ").ok_or("too long")?;
    let key = Key(4294967295);
    assert_eq!(rt;
        read_line(b"put 16.7 4294967295  x "),
        Put(LAST, key, value)
    );
    assert_eq!(rt;
        read_line(b"append 16.7 4294967295  x "),
        Append(LAST, key, value)
    );
    check_reply(&rt, &Reply::Row(key, value), "record 4294967295  x \n");
    check_reply(&rt, &Reply::Row(Key(0), Value::empty()), "record 0 \n");
    Ok(())
}

// Each reply without a value.
const REPLIES: [(Reply, &str); 39] = [
    (Reply::Fine, "ok\n"),
    (Reply::Absent, "absent\n"),
    (Reply::Flushed(0), "flushed 0\n"),
    (Reply::Flushed(4294967295), "flushed 4294967295\n"),
    (Reply::EndDump(0), "end 0\n"),
    (
        Reply::EndDump(18446744073709551615),
        "end 18446744073709551615\n",
    ),
    (Reply::StatUp(12, 11, 1), "stat up 12 11 1\n"),
    (
        Reply::StatUp(18446744073709551615, 0, 18446744073709551615),
        "stat up 18446744073709551615 0 18446744073709551615\n",
    ),
    (Reply::StatIdle, "stat idle\n"),
    (Reply::StatDown, "stat down\n"),
    (Reply::Bad, "bad\n"),
    (Reply::Closed, "closed\n"),
    (Reply::Formatted, "formatted\n"),
    (Reply::SmallDisk(33030, 8192), "small disk 33030 8192\n"),
    (
        Reply::SmallDisk(18446744073709551615, 4294967295),
        "small disk 18446744073709551615 4294967295\n",
    ),
    (Reply::SmallVault(262, 0), "small vault 262 0\n"),
    (
        Reply::SmallVault(18446744073709551615, 4294967295),
        "small vault 18446744073709551615 4294967295\n",
    ),
    (Reply::NoMem, "nomem\n"),
    (Reply::NoNode(NodeId(16)), "nonode 16\n"),
    (Reply::NotUp(NodeId(1)), "notup 1\n"),
    (Reply::NotIdle(NodeId(16)), "notidle 16\n"),
    (Reply::Busy(LAST), "busy 16.7\n"),
    (Reply::Reopening(NodeId(16)), "reopening 16\n"),
    (Reply::NotTxn(LAST), "notxn 16.7\n"),
    (Reply::Locked(FIRST), "locked 1.0\n"),
    (Reply::LocksFull, "locksfull\n"),
    (Reply::Held(PageNo(0), NodeId(1)), "held 0 1\n"),
    (
        Reply::Held(PageNo(4294967295), NodeId(16)),
        "held 4294967295 16\n",
    ),
    (Reply::LostPage(PageNo(1)), "lost 1\n"),
    (Reply::LostPage(PageNo(4294967295)), "lost 4294967295\n"),
    (Reply::Limit(PageNo(4294967295)), "limit 4294967295\n"),
    (Reply::NoSpace(PageNo(4294967295)), "nospace 4294967295\n"),
    (Reply::TooLong(249), "toolong 249\n"),
    (Reply::TooLong(4294967295), "toolong 4294967295\n"),
    (Reply::LogFull(2, 1), "logfull 2 1\n"),
    (
        Reply::LogFull(18446744073709551615, 0),
        "logfull 18446744073709551615 0\n",
    ),
    (Reply::Stopped(NodeId(16)), "stopped 16\n"),
    (Reply::Fault(NodeId(1)), "fault 1\n"),
    (
        Reply::DamagedDisk(BlockNo(4294967295)),
        "damaged disk 4294967295\n",
    ),
];

#[test]
fn replies_and_lines(rt: HostRuntime) {
    for (reply, line) in REPLIES {
        check_reply(&rt, &reply, line);
    }
}
