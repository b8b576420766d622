//! Definitions and lemmas on lists, orders and maps of any elements: joins and orders, sorted lists, lists that are walked
//! together, the items of a set one by one. The crate has no functions: definitions and proofs of other crates cite it.
#![tactic(auto)]
