//! The ground that every crate of the store stands on: the words for devices of blocks, for input
//! and output, for the shape of a store and the values of its records, the one arithmetic of its pages
//! and groups, the texts of supers and anchors, and the header that all pages share.
//!
//! It promises the one meaning of a device that all other contracts speak of (`Disk`), of a source
//! and a sink of bytes (`Source`, `Sink`), and that a super and an anchor are read exactly where they
//! were written (`write_super`, `parse_super`, `write_anchor`, `parse_anchor`). It stands on
//! `byteorder` for numbers in bytes and on nothing else of the store.
#![tactic(auto)]

mod anchors;
mod arm;
mod calls;
mod device;
mod fault;
mod laws;
mod names;
mod page_header;
mod page_op;
mod shape;
mod stream;
mod supers;
mod text;
mod value;

pub use anchors::{MAX_ANCHOR, parse_anchor, write_anchor};
pub use arm::Arm;
pub use calls::{cover, read_block, write_block};
pub use device::{Block, BlockNo, Disk, NodeId, ReadAnswer, WriteAnswer};
pub use fault::DevFault;
pub use laws::{
    law_of_covered_devices, law_of_foreign_blocks, law_of_free_blocks, law_of_outcomes,
    law_of_two_calls,
};
pub use names::{GroupNo, KEYS_PER_GROUP, Key, MAX_GROUP, PageNo, TxnId};
pub use page_header::{
    DATA_PAGE, MAP_PAGE, MAX_IDENT, page_ident, page_number, put_page_ident, write_page_header,
};
pub use page_op::PageOp;
pub use shape::Shape;
pub use stream::{Put, Sink, Source, Took};
pub use supers::{parse_super, write_super};
pub use text::{put_bytes, put_u32, put_u64, u32_at, u64_at};
pub use value::Value;
