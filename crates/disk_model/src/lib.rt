//! A device of blocks in memory, a device that can be armed, and a part of a device.
//!
//! It promises all that `sd_base::Disk` says of a device that tells its content, and more: no call is
//! stopped or fails, and a stop follows its `picks` (`MemDisk`). Its memory is reserved when it is
//! made, and no later call takes any. Over any device, one of its calls can be ordered to be cut or to
//! fail (`Fused`), and two ranges of it can be lent as a device of their own (`Window`). It stands on
//! `sd_base` alone.
#![tactic(auto)]

mod cell;
mod fuse;
mod fused;
mod laws;
mod lazy;
mod memory;
mod port;
mod range;
mod settle;
mod window;

pub use fused::Fused;
pub use laws::law_of_unarmed_memory;
pub use memory::MemDisk;
pub use range::Range;
pub use window::Window;
