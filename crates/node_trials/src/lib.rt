//! One node's cache and transactions tried out over devices in memory.
//!
//! What no contract says shows in its tests: that the calls succeed, in which order pages leave, which
//! records the transactions log, and what the device holds at each stop. Its `Bench` is a caller of the
//! cache that carries one word from call to call (`IsReady`), and its `SeatBench` a caller of the seats
//! (`IsSeated`). Both go over the `WatchedDisk` of the trials below. Nothing stands on this crate.
#![tactic(auto)]

#[cfg(test)]
mod again_tests;
#[cfg(test)]
mod bench;
#[cfg(test)]
mod commit_tests;
#[cfg(test)]
mod dirty_tests;
#[cfg(test)]
mod evicted_tests;
#[cfg(test)]
mod full_log_tests;
#[cfg(test)]
mod order_tests;
#[cfg(test)]
mod page_tests;
#[cfg(test)]
mod partly_tests;
#[cfg(test)]
mod reading;
#[cfg(test)]
mod records;
#[cfg(test)]
mod room_tests;
#[cfg(test)]
mod seat_bench;
#[cfg(test)]
mod shared_page_tests;
#[cfg(test)]
mod steps;
#[cfg(test)]
mod stop_tests;
#[cfg(test)]
mod store;
#[cfg(test)]
mod surrender_tests;
