//! Links, pumps, desks that two threads call, faults of journals, audits of stores, and whole sites as threads. What a journal and a desk
//! answer and refuse is shown by the cases of `cases/journals` and `cases/desks`.
mod brief_senders;
mod broadcasts;
mod desks;
mod gates;
mod journals;
mod links;
mod runs;
mod store_audits;
