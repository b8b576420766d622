//! A port that keeps the site's journal within its limits.
ghost use Rattle.std.specs.Prelude.{◌≡◌, None};

use crate::Upkeep;
use dots::SharedBytes;
use site_journal::{DeskFault, Port, Receipt};

/// A port of a site's desk. Before each call the journal's steps are dropped if they keep more than 64 MiB. A call that finds the journal
/// full is made again once its steps are dropped (this project's own).
///
/// Errors of a call, in order: those of the port but `JournalFull`; after a full journal `Unsaved` or `Memory`, as of
/// `Upkeep::drop_steps`; then those of the second call.
#[derive(Drop)]
pub struct KeepingPort<'a, P, U> {
    port: P,
    upkeep: &'a U,
    // The fault of the last call, if it had one.
    fault: Option<DeskFault>,
}

impl<'a, P, U> KeepingPort<'a, P, U> {
    ghost use Rattle.stored_pass_desk.specs.KeepingPorts.{inner_port, kept_fault};

    /// The port that calls this one.
    pub fn new(port: P, upkeep: &'a U) -> KeepingPort<'a, P, U>
        ensures port { inner_port result ≡ port }
        ensures fault { kept_fault result ≡ None }
    {
        KeepingPort {
            port,
            upkeep,
            fault: None,
        }
    }

    /// Gives up the port for the one that it calls.
    pub fn into_inner(self) -> P
        ensures { result ≡ inner_port self.entry }
    {
        let KeepingPort { port, .. } = self;
        port
    }
}

impl<'a, P: Port<R>, U: Upkeep<R>, R> Port<R> for KeepingPort<'a, P, U> {
    ghost use Rattle.stored_pass_desk.specs.KeepingPorts.{MakesAtLast, RefusesAtLast};
    ghost use Rattle.stored_pass_desk.specs.KeepingPorts.{inner_port, kept_fault};

    ghost makes = { λ old receipt new.
        MakesAtLast P.makes P.refuses (inner_port old) receipt (inner_port new) };

    ghost refuses = { λ old cause new.
        RefusesAtLast P.refuses (inner_port old) cause (inner_port new) };

    ghost ordinal = { λ port. P.ordinal (inner_port port) };

    ghost share = { λ port. P.share (inner_port port) };

    ghost fault = { kept_fault };

    /// A cut of the port, made again after a full journal, as the type's page says.
    fn cut(&mut self, rt: &R) -> Result<Receipt, DeskFault> {
        self.upkeep.limit_steps(rt);
        match self.port.cut(rt) {
            Ok(receipt) => {
                self.fault = None;
                return Ok(receipt);
            }
            Err(DeskFault::JournalFull) => {}
            Err(fault) => {
                self.fault = Some(fault);
                return Err(fault);
            }
        }
        if let Err(fault) = self.upkeep.drop_steps(rt) {
            self.fault = Some(fault);
            return Err(fault);
        }
        match self.port.cut(rt) {
            Ok(receipt) => {
                self.fault = None;
                Ok(receipt)
            }
            Err(fault) => {
                self.fault = Some(fault);
                Err(fault)
            }
        }
    }

    /// A whole of the port, made again after a full journal, as the type's page says.
    fn whole(&mut self, rt: &R) -> Result<Receipt, DeskFault> {
        self.upkeep.limit_steps(rt);
        match self.port.whole(rt) {
            Ok(receipt) => {
                self.fault = None;
                return Ok(receipt);
            }
            Err(DeskFault::JournalFull) => {}
            Err(fault) => {
                self.fault = Some(fault);
                return Err(fault);
            }
        }
        if let Err(fault) = self.upkeep.drop_steps(rt) {
            self.fault = Some(fault);
            return Err(fault);
        }
        match self.port.whole(rt) {
            Ok(receipt) => {
                self.fault = None;
                Ok(receipt)
            }
            Err(fault) => {
                self.fault = Some(fault);
                Err(fault)
            }
        }
    }

    /// A take of the port, made again after a full journal, as the type's page says. Each error returns the bytes.
    fn take(&mut self, rt: &R, bytes: SharedBytes) -> Result<Receipt, (DeskFault, SharedBytes)> {
        self.upkeep.limit_steps(rt);
        let bytes = match self.port.take(rt, bytes) {
            Ok(receipt) => {
                self.fault = None;
                return Ok(receipt);
            }
            Err((DeskFault::JournalFull, bytes)) => bytes,
            Err((fault, bytes)) => {
                self.fault = Some(fault);
                return Err((fault, bytes));
            }
        };
        if let Err(fault) = self.upkeep.drop_steps(rt) {
            self.fault = Some(fault);
            return Err((fault, bytes));
        }
        match self.port.take(rt, bytes) {
            Ok(receipt) => {
                self.fault = None;
                Ok(receipt)
            }
            Err((fault, bytes)) => {
                self.fault = Some(fault);
                Err((fault, bytes))
            }
        }
    }
}
