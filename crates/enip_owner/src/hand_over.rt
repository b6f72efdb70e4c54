//! Which of the waiting commands an owner is handed next.

ghost use Rattle.std.specs.Prelude.{◌≡◌, ◌-◌, max};
ghost use Rattle.enip_owner.specs.HandOvers.{next_in, after_next, with_new_session, first_above, in_hand, next_ticket};

/// A command that is handed over.
#[derive(Clone, Copy, Debug, PartialEq, Eq)]
pub struct HandedOver {
    /// Its ticket.
    pub ticket: u32,
    /// Whether it was handed over before: to an earlier owner, or maybe before the device restarted.
    pub again: bool,
}

/// Which commands were handed over. Tickets count from 1 and rise, and commands are handed over in their order, as long as
/// the owner has fewer than `ahead` of them in hand: handed over in this session, and not done.
///
/// ```
/// let mut hand_over = HandOver::new(2);
/// hand_over.next(&[7, 8, 9]); // ticket 7
/// hand_over.next(&[7, 8, 9]); // ticket 8
/// hand_over.next(&[7, 8, 9]); // None: two are in hand
/// hand_over.next(&[7, 9]); // ticket 8 was done: ticket 9
/// hand_over.begin_session();
/// hand_over.next(&[7, 9]); // ticket 7, again
/// ```
#[derive(Clone, Copy, Debug, PartialEq, Eq)]
pub struct HandOver {
    /// How many commands the owner may have in hand at once.
    pub(crate) ahead: u16,
    /// The greatest ticket that was handed over before this session, or 0.
    pub(crate) earlier: u32,
    /// The greatest ticket that was handed over in this session, or 0.
    pub(crate) handed: u32,
}

impl HandOver {
    /// No command was handed over yet. With an `ahead` of 0 none ever is.
    pub fn new(ahead: u16) -> HandOver
        ensures { result ≡ record { ahead = ahead; earlier = 0; handed = 0 } }
    {
        HandOver {
            ahead,
            earlier: 0,
            handed: 0,
        }
    }

    /// After a start of the device, when `earlier` is the greatest ticket that may have been handed over before, or 0.
    pub fn restarted(ahead: u16, earlier: u32) -> HandOver
        ensures { result ≡ record { ahead = ahead; earlier = earlier; handed = 0 } }
    {
        HandOver {
            ahead,
            earlier,
            handed: 0,
        }
    }

    /// Begins a session with another owner, or with the same one that has returned.
    pub fn begin_session(&mut self)
        ensures { self.new ≡ with_new_session self.old }
    {
        self.earlier = self.earlier.max(self.handed);
        self.handed = 0;
    }

    /// Takes the next command that the owner is handed: the first one that waits and that was not handed over in this
    /// session. `None` if there is none, or if the owner has as many in hand as it may. `waiting` has the tickets of the
    /// commands that wait, in order.
    pub fn next(&mut self, waiting: &[u32]) -> Option<HandedOver>
        ensures next { result ≡ next_in self.old waiting.now }
        ensures after { self.new ≡ after_next self.old waiting.now }
    {
        let ticket = self.next_ticket(waiting)?;
        self.handed = ticket;
        Some(HandedOver {
            ticket,
            again: ticket <= self.earlier,
        })
    }

    /// The ticket of the next command.
    fn next_ticket(&self, waiting: &[u32]) -> Option<u32>
        ensures { result ≡ next_ticket self.now waiting.now }
    {
        if self.in_hand(waiting) >= usize::from(self.ahead) {
            return None;
        }
        first_above(self.handed, waiting)
    }

    /// How many commands the owner has in hand.
    fn in_hand(&self, waiting: &[u32]) -> usize
        ensures { result ≡ in_hand self.now waiting.now }
    {
        waiting
            .iter()
            .filter(|ticket| **ticket <= self.handed)
            .count()
    }
}

/// The first ticket that is greater than this one.
fn first_above(ticket: u32, waiting: &[u32]) -> Option<u32>
    ensures { result ≡ first_above ticket waiting.now }
{
    waiting.iter().copied().find(|other| *other > ticket)
}
