//! The commands that a line can spell.

use sd_base::{Key, NodeId, Shape, TxnId, Value};

/// What a line asks for.
#[derive(Clone, Copy, Debug, PartialEq, Eq)]
pub enum Command {
    /// The line is no command.
    Bad,
    /// `format N L M V B`
    Format(Shape),
    /// `start n`
    Start(NodeId),
    /// `begin n.s`
    Begin(TxnId),
    /// `get n.s k`
    Get(TxnId, Key),
    /// `put n.s k value`
    Put(TxnId, Key, Value),
    /// `append n.s k value`
    Append(TxnId, Key, Value),
    /// `del n.s k`
    Del(TxnId, Key),
    /// `commit n.s`
    Commit(TxnId),
    /// `abort n.s`
    Abort(TxnId),
    /// `flush n`
    Flush(NodeId),
    /// `dump n`
    Dump(NodeId),
    /// `stat n`
    Stat(NodeId),
}
