//! Lists that share allocations: many short lists take less memory so, as an allocation for each
//! of them, and its place in a map, would take more than what the lists have.
//!
//! - `sharing`: which of many numbered lists share an allocation.
//! - `shared_lists`: the lists that share one.
#![tactic(auto)]

mod shared_lists;
mod sharing;

pub use shared_lists::SharedLists;
pub use sharing::Sharing;
