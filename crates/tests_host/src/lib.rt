//! [`MemoryHost`]: a host over memory for tests, exact in each call.
#![tactic(auto)]

mod memory;
mod names;
mod opens;

pub use memory::MemoryHost;
