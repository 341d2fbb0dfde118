//! A pool of frames of memory, each as large as a block.
//!
//! It promises upward that all its memory is taken when it is made, that a frame is out at most once,
//! and that what is written through one frame changes no other. A frame must be given back: it can
//! be neither copied nor let go. It stands on `sd_base`, for the size of a block.
#![tactic(auto)]

mod frame;
mod laws;
mod pool;

pub use frame::Frame;
pub use laws::law_of_other_frames;
pub use pool::Pool;
