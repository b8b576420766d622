//! Tests of feeds and devices, lists of queues, sessions that are served, desks for sessions, worlds of sites, scripts, logs of events,
//! sites that are served over TCP, and their links; of links within a process, pumps, audits, and whole sites as threads. All go by public
//! calls. This crate has no code of its own.
#![tactic(auto)]

#[cfg(test)]
mod clients;
#[cfg(test)]
mod desks;
#[cfg(test)]
mod feeds;
#[cfg(test)]
mod lists;
#[cfg(test)]
mod logs;
#[cfg(test)]
mod peers;
#[cfg(test)]
mod replies;
#[cfg(test)]
mod script_runs;
#[cfg(test)]
mod served;
#[cfg(test)]
mod shared;
#[cfg(test)]
mod sites_served;
#[cfg(test)]
mod std_devices;
#[cfg(test)]
mod workers;
#[cfg(test)]
mod worlds;
