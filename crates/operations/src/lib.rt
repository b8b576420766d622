//! The operations that sites make, and what a knowledge of them shows: visible dots, the fields and rows of members, totals of
//! calls, and the condition of each dot (RR-8083's observed-remove set, RR-7506's registers and counters). All theorems rest on
//! these definitions; the laws state their properties.
#![tactic(auto)]

pub mod laws;
mod row;

pub use row::Row;
