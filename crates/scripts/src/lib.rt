//! Scripts: their lines, run over all sites in one process (this project's own).
//!
//! [`run_script`] reads a script, runs its lines in order over new sites, and writes the output of each.
#![tactic(auto)]

mod answers;
mod devices;
pub mod laws;
mod run;
mod script;
mod script_fault;

pub use run::run_script;
pub use script_fault::ScriptFault;
pub use script_lines::SiteCount;
