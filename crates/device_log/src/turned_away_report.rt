//! Without a log: how many clients were turned away.

use device_sockets::{NoOwnerLog, Observer, TcpWire, TurnedAway};
use mio::net::TcpStream;
use std::alloc::Global;
use std::net::SocketAddr;

/// A minute in microseconds.
const MINUTE: u64 = 60_000_000;

/// Without a log: reports on standard error how many clients were turned away, at most once a minute.
#[derive(Drop)]
pub struct TurnedAwayReport<'a, R> {
    rt: &'a R,
    alloc: Global,
    /// How many clients were turned away since the last report.
    counts: TurnedAwayCounts,
    /// The first time at which another report may be made.
    next: u64,
}

/// How many clients were turned away, by the reason.
#[derive(Clone, Copy)]
struct TurnedAwayCounts {
    no_slot: u64,
    share: u64,
    not_listed: u64,
}

impl TurnedAwayCounts {
    /// No client was turned away.
    const NONE: TurnedAwayCounts = TurnedAwayCounts {
        no_slot: 0,
        share: 0,
        not_listed: 0,
    };

    /// Counts a client.
    fn add(&mut self, why: TurnedAway) {
        let count = match why {
            TurnedAway::NoSlot => &mut self.no_slot,
            TurnedAway::Share => &mut self.share,
            TurnedAway::NotListed => &mut self.not_listed,
        };
        *count = count.saturating_add(1);
    }

    /// Whether a client was turned away.
    fn is_some(&self) -> bool {
        self.no_slot > 0 || self.share > 0 || self.not_listed > 0
    }
}

impl<'a, R: Eprint> TurnedAwayReport<'a, R> {
    /// No client was turned away.
    pub fn new(rt: &'a R, alloc: Global) -> TurnedAwayReport<'a, R> {
        TurnedAwayReport {
            rt,
            alloc,
            counts: TurnedAwayCounts::NONE,
            next: 0,
        }
    }

    /// Prints a line for so many clients, if there are any.
    fn print(&self, count: u64, why: &str) {
        if count == 0 {
            return;
        }
        let clients = if count == 1 { "client" } else { "clients" };
        if let Ok(line) = format!(in self.alloc; "enip: {count} {clients} {why}\n") {
            let _ = self.rt.eprint(line.as_str());
        }
    }
}

impl<R: Eprint> Observer for TurnedAwayReport<'_, R> {
    type Wire = TcpWire;

    type OwnerLog = NoOwnerLog;

    fn owner_log(&self) -> NoOwnerLog {
        NoOwnerLog
    }

    fn wire(&self, stream: TcpStream, address: SocketAddr) -> Option<TcpWire> {
        Some(TcpWire::new(stream, address))
    }

    fn turned_away(&mut self, now: u64, _address: SocketAddr, why: TurnedAway) {
        self.counts.add(why);
        self.report(now);
    }

    fn next_report(&self) -> Option<u64> {
        if self.counts.is_some() {
            Some(self.next)
        } else {
            None
        }
    }

    fn report(&mut self, now: u64) {
        if !self.counts.is_some() || now < self.next {
            return;
        }
        let TurnedAwayCounts {
            no_slot,
            share,
            not_listed,
        } = self.counts;
        self.print(no_slot, "turned away: all peer slots are taken");
        self.print(share, "turned away: their address holds all its peer slots");
        self.print(not_listed, "refused: in neither list of [access]");
        self.counts = TurnedAwayCounts::NONE;
        self.next = now.saturating_add(MINUTE);
    }

    fn answered(&self, _sender: SocketAddr, _datagram: &[u8], _answer: &[u8]) {}
}
