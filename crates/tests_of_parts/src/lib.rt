//! Tests of arenas, sets of members, values and launches, of replicas, frames and the reference model, and of what two sites say over a
//! link, by their public calls: limits at full size, which frames from elsewhere a replica takes, and what operations show in many orders.
//! This crate has no code of its own.
#![tactic(auto)]

#[cfg(test)]
mod arenas;
#[cfg(test)]
mod asks;
#[cfg(test)]
mod contexts;
#[cfg(test)]
mod deltas;
#[cfg(test)]
mod devectors;
#[cfg(test)]
mod frames;
#[cfg(test)]
mod histories;
#[cfg(test)]
mod launch_faults;
#[cfg(test)]
mod links;
#[cfg(test)]
mod member_sets;
#[cfg(test)]
mod model_lines;
#[cfg(test)]
mod parse;
#[cfg(test)]
mod parse_operations;
#[cfg(test)]
mod replicas;
#[cfg(test)]
mod shared;
#[cfg(test)]
mod steps;
#[cfg(test)]
mod totals;
#[cfg(test)]
mod values;
