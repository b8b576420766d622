//! Tests of stores, by their public calls: rows, bases, restored sites, stores over a database in memory, and a desk with a store in
//! memory that fails at a commit. This crate has no code of its own. Its bytes were worked out by hand, by docs/store.md and
//! docs/frames.md.
#![tactic(auto)]

#[cfg(test)]
mod bases;
#[cfg(test)]
mod copies;
#[cfg(test)]
mod databases;
#[cfg(test)]
mod desk_trials;
#[cfg(test)]
mod desks;
#[cfg(test)]
mod launches;
#[cfg(test)]
mod listings;
#[cfg(test)]
mod memory_store;
#[cfg(test)]
mod shared;
#[cfg(test)]
mod stores;
