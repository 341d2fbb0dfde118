//! The replies that a line can get.

use sd_base::{BlockNo, Key, NodeId, PageNo, TxnId, Value};

/// What a line is answered. `dump` is answered with several of these.
#[derive(Clone, Copy, Debug, PartialEq, Eq)]
pub enum Reply {
    /// It was done.
    Fine,
    /// The record's value.
    Found(Value),
    /// There is no such record.
    Absent,
    /// So many pages were written.
    Flushed(u32),
    /// A record, with its key and value.
    Row(Key, Value),
    /// There is no further record. This isn't printed.
    NoMore,
    /// All records were printed: so many.
    EndDump(u64),
    /// The node is up. Its log has so many records, its transactions are owed so many, and there is
    /// room for so many more.
    StatUp(u64, u64, u64),
    /// The node is idle.
    StatIdle,
    /// The node is down.
    StatDown,
    /// The line is no command.
    Bad,
    /// No store is open.
    Closed,
    /// A store is open, or stands on the disk already.
    Formatted,
    /// The disk has fewer blocks than the store needs: these two numbers.
    SmallDisk(u64, u32),
    /// The vault has fewer blocks than the store needs: these two numbers.
    SmallVault(u64, u32),
    /// There is no memory for the store.
    NoMem,
    /// The store has no such node.
    NoNode(NodeId),
    /// The node isn't up.
    NotUp(NodeId),
    /// The node isn't idle.
    NotIdle(NodeId),
    /// The transaction is open.
    Busy(TxnId),
    /// The tables of locks and pages were lost, and this is the first node that isn't recovered yet.
    Reopening(NodeId),
    /// The transaction isn't open.
    NotTxn(TxnId),
    /// The transaction has a lock that is in the way.
    Locked(TxnId),
    /// The table of locks is full.
    LocksFull,
    /// The page is held by this node, which is down.
    Held(PageNo, NodeId),
    /// The page is lost.
    LostPage(PageNo),
    /// The page's identifier is at its limit.
    Limit(PageNo),
    /// All data pages of the map page are used.
    NoSpace(PageNo),
    /// The value would be so long.
    TooLong(u32),
    /// The command needs room for so many records in the log, which has room for so many.
    LogFull(u64, u64),
    /// The node was stopped.
    Stopped(NodeId),
    /// A device call of the node failed.
    Fault(NodeId),
    /// The block of the disk isn't what belongs there.
    DamagedDisk(BlockNo),
}
