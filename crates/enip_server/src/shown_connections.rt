//! How many connections are open, as the Message Router of a device shows it.
//! Text: docs/PROTOCOL.md, "Objects".

ghost use Rattle.std.specs.Prelude.{◌≡◌};
ghost use Rattle.enip_server.specs.Rounds.{state_of, written_all};
ghost use Rattle.enip_server.specs.ShownConnections.{shown_connections};

use crate::peers::Peers;
use crate::wire::Wire;
use cip_bytes::protocol::MESSAGE_ROUTER;

impl<W: Wire + Drop> Peers<W> {
    /// Shows how many connections are open: writes the number to attribute 3 of the Message Router, on behalf of the
    /// device itself, if the device has this object and it shows another number. Call it before each round. A peer that
    /// has got the answer to its Forward_Open then reads the new number.
    ///
    /// ```
    /// peers.show_connections();
    /// let end = peers.round(now);
    /// ```
    #[tactic(auto, unfolding(crate::specs::ShownConnections::shown_connections))]
    pub fn show_connections(&mut self)
        ensures { state_of self.new ≡ written_all (shown_connections (state_of self.old)) (state_of self.old) }
    {
        let open = self.adapter().connections() as u16;
        if let Some(shown) = self.adapter().objects().open_connections() {
            if shown != open {
                self.write_attribute(MESSAGE_ROUTER, 1, 3, 0, &open.to_le_bytes());
            }
        }
    }
}
