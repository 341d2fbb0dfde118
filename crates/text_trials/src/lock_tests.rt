//! Locks that are taken and given up.
use record_locks::LockAnswer::{Conflict, Free, Mine};
use record_locks::Mode::{Read, Write};
use record_locks::{LockAnswer, Locks, Mode};
use sd_base::{GroupNo, Key, NodeId, TxnId};
use std::test::Fail;

const A: TxnId = TxnId {
    node: NodeId(1),
    seat: 7,
};

const B: TxnId = TxnId {
    node: NodeId(2),
    seat: 0,
};

const C: TxnId = TxnId {
    node: NodeId(2),
    seat: 1,
};

// Takes the lock where it may be taken, and gives the answer.
fn ask(locks: &mut Locks, key: u32, t: TxnId, mode: Mode) -> LockAnswer {
    let answer = locks.can(Key(key), t, mode);
    match answer {
        LockAnswer::Free | LockAnswer::Mine => locks.take(Key(key), t, mode),
        LockAnswer::Conflict(_) | LockAnswer::Full => {}
    }
    answer
}

// What is asked for, and what is answered.
type Row = (u32, TxnId, Mode, LockAnswer);

const ROWS: &[Row] = &[
    // Two readers, of which one would write, and a third who would.
    (5, C, Read, Free),
    (5, B, Read, Free),
    (5, A, Write, Conflict(B)),
    (5, B, Write, Conflict(C)),
    (5, C, Read, Mine),
    // A reader alone that writes.
    (16, C, Read, Free),
    (16, C, Write, Free),
    (16, C, Read, Mine),
    (16, A, Read, Conflict(C)),
];

#[test]
fn locks_are_taken_and_given_up(rt: HostRuntime) -> Result<(), Fail> {
    let mut locks = Locks::new(rt.alloc())?;
    for (key, t, mode, answer) in ROWS {
        assert_eq!(rt;
            ask(&mut locks, *key, *t, *mode),
            *answer,
            "{key} for {t:?} to {mode:?}"
        );
    }
    assert_eq!(rt; locks.least_in_group(GroupNo(0)), Some(B));
    locks.release_txn(B);
    assert_eq!(rt; locks.least(), Some(C));
    // The lock to read goes, and that to write stays.
    locks.retain_node(NodeId(2));
    assert_eq!(rt; locks.least_in_group(GroupNo(0)), None);
    assert_eq!(rt; locks.least_in_group(GroupNo(1)), Some(C));
    locks.release_node(NodeId(2));
    assert_eq!(rt; locks.least(), None);
    assert_eq!(rt; ask(&mut locks, 5, A, Write), Free);
    locks.drop_all();
    assert_eq!(rt; locks.least(), None);
    Ok(())
}
