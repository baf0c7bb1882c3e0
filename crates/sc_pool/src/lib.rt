//! A pool of clients and workers in threads, over one book that they share behind a lock.
//!
//! What one hold of the lock does is a method of a value without a thread in it, and is proved as such; the threads are
//! a thin layer over it. All that is promised of a run is kept by that value, by client, so it holds in whatever order
//! the lock is given.
#![tactic(auto)]

mod book;
mod client;
mod jobs;
mod locked;
mod set_up;

pub use jobs::run_jobs;
