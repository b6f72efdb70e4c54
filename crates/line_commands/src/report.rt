//! Where a command reports the fault with which it ends early.

use enip_common::Fault;

/// Receives the fault with which a command ends early.
pub trait Report {
    /// Called once, and only if the command ends early.
    fn report(&mut self, fault: Fault);
}

/// Keeps a fault, so that `main` can print its reason before its line.
#[derive(Drop)]
pub(crate) struct Reported {
    fault: Option<Fault>,
}

impl Reported {
    pub(crate) fn new() -> Reported {
        Reported { fault: None }
    }

    /// The fault that was reported, if any.
    pub(crate) fn fault(&self) -> Option<Fault> {
        self.fault
    }
}

impl Report for Reported {
    fn report(&mut self, fault: Fault) {
        self.fault = Some(fault);
    }
}
