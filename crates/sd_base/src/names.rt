//! What pages, keys, groups and transactions are named by.

ghost use Rattle.std.specs.Prelude.{◌≡◌, ◌≤◌};
ghost use Rattle.sd_base.specs.Places.{first_key, group_of, slot_of_key};

use crate::device::NodeId;

/// The number of a page.
#[derive(Clone, Copy, Debug, PartialEq, Eq, PartialOrd, Ord)]
pub struct PageNo(pub u32);

/// The key of a record.
#[derive(Clone, Copy, Debug, PartialEq, Eq, PartialOrd, Ord)]
pub struct Key(pub u32);

/// How many keys in a row are a group: as many as a data page has slots.
pub const KEYS_PER_GROUP: u32 = 16;

/// The highest number of a group: that of the highest key.
pub const MAX_GROUP: u32 = u32::MAX / KEYS_PER_GROUP;

impl Key {
    /// The group of the key.
    pub fn group(&self) -> GroupNo
        ensures group { result ≡ group_of self.now.0 }
        ensures high { result.0 ≤ 268435455 }
    {
        GroupNo(self.0 / KEYS_PER_GROUP)
    }

    /// The slot of the key in the page of its group.
    pub fn slot(&self) -> u8
        ensures slot { result ≡ slot_of_key self.now.0 }
        ensures high { result ≤ 15 }
    {
        (self.0 % KEYS_PER_GROUP) as u8
    }
}

/// The number of a group of records: those of sixteen keys in a row. A key's is at most 268,435,455.
#[derive(Clone, Copy, Debug, PartialEq, Eq, PartialOrd, Ord)]
pub struct GroupNo(pub u32);

impl GroupNo {
    /// The number of the group's first key. Behind the last group it's 2^32, which is no key's.
    pub fn first_key(&self) -> u64
        ensures { result ≡ first_key self.now.0 }
    {
        u64::from(KEYS_PER_GROUP) * u64::from(self.0)
    }
}

/// A transaction of an open store: the node that it runs on, and its seat there. Transactions are
/// ordered by node, then seat.
#[derive(Clone, Copy, Debug, PartialEq, Eq, PartialOrd, Ord)]
pub struct TxnId {
    /// The node that the transaction runs on.
    pub node: NodeId,
    /// The seat at that node, from 0 to 7.
    pub seat: u8,
}
