//! Making an adapter.
//! Text: docs/PROTOCOL.md, "A peer".

ghost use Rattle.std.specs.Prelude.{◌≡◌, ◌≤◌, IfOk, Some, None};
ghost use Rattle.cip_ledger.specs.Device.{device_of, queued_device};

use super::{Adapter, Limits, Shares};
use crate::peer_slots::PeerSlots;
use crate::reply::AnswerFrame;
use crate::shared::{Listen, Shared};
use cip_ledger::{Ledger, LedgerRouter};
use cip_manager::Manager;
use cip_objects::{Objects, ReplyBuf};
use cip_owner::{OwnedObjects, Queue, Resetting};
use std::alloc::{AllocError, Global};

impl Adapter {
    ghost use Rattle.enip_adapter.specs.Adapter.{new_adapter, shared_adapter};
    ghost use Rattle.enip_adapter.specs.Device.{with_resetting};

    /// Makes an adapter with no peer and no connection, and without a command ledger. It allocates all of its memory
    /// here.
    ///
    /// # Errors
    ///
    /// `AllocError` if memory is refused.
    pub fn new(
        alloc: Global,
        objects: Objects,
        listen: Listen,
        limits: Limits,
    ) -> Result<Adapter, AllocError>
        requires peers_from { 1 ≤ limits.peers }
        requires peers_to { limits.peers ≤ 16 }
        requires connections_from { 1 ≤ limits.connections }
        requires connections_to { limits.connections ≤ 64 }
        requires handle { 1 ≤ limits.first_handle }
        requires id { 1 ≤ limits.first_id }
        ensures { IfOk result (λ a. a ≡ new_adapter (device_of None objects) listen limits) }
    {
        let device = LedgerRouter {
            ledger: None,
            router: OwnedObjects::new(objects),
        };
        Adapter::of_device(alloc, device, listen, limits, Shares::NONE)
    }

    /// Makes an adapter as `new` does, with a command ledger before its objects: a command that is sent again is
    /// executed once, even over another connection.
    ///
    /// # Errors
    ///
    /// `AllocError` if memory is refused.
    pub fn with_ledger(
        alloc: Global,
        objects: Objects,
        ledger: Ledger,
        listen: Listen,
        limits: Limits,
    ) -> Result<Adapter, AllocError>
        requires peers_from { 1 ≤ limits.peers }
        requires peers_to { limits.peers ≤ 16 }
        requires connections_from { 1 ≤ limits.connections }
        requires connections_to { limits.connections ≤ 64 }
        requires handle { 1 ≤ limits.first_handle }
        requires id { 1 ≤ limits.first_id }
        ensures { IfOk result (λ a. a ≡ new_adapter (device_of (Some ledger) objects) listen limits) }
    {
        let device = LedgerRouter {
            ledger: Some(ledger),
            router: OwnedObjects::new(objects),
        };
        Adapter::of_device(alloc, device, listen, limits, Shares::NONE)
    }

    /// Makes an adapter as `new` and `with_ledger` do, in which one group of peers may hold no more than its share. See
    /// `begin_as` for what a group is.
    ///
    /// ```
    /// let shares = Shares { peers: 4, connections: 8 };
    /// let mut adapter = Adapter::shared(alloc, objects, None, listen, limits, shares)?;
    /// ```
    ///
    /// # Errors
    ///
    /// `AllocError` if memory is refused.
    pub fn shared(
        alloc: Global,
        objects: Objects,
        ledger: Option<Ledger>,
        listen: Listen,
        limits: Limits,
        shares: Shares,
    ) -> Result<Adapter, AllocError>
        requires peers_from { 1 ≤ limits.peers }
        requires peers_to { limits.peers ≤ 16 }
        requires connections_from { 1 ≤ limits.connections }
        requires connections_to { limits.connections ≤ 64 }
        requires handle { 1 ≤ limits.first_handle }
        requires id { 1 ≤ limits.first_id }
        requires share_from { 1 ≤ shares.peers }
        requires share_to { shares.peers ≤ 16 }
        requires connection_share_from { 1 ≤ shares.connections }
        requires connection_share_to { shares.connections ≤ 64 }
        ensures { IfOk result (λ a. a ≡ shared_adapter (device_of ledger objects) listen limits shares) }
    {
        Adapter::queued(alloc, objects, ledger, None, listen, limits, shares)
    }

    /// Makes an adapter as `shared` does, with a queue for the commands of queued services. A request for one is answered
    /// at once: by its ticket, or by the state byte 1 if a numbered command embeds it. The program that owns the device
    /// reads the commands that wait (`queue`), and finishes each by its ticket (`finish`).
    ///
    /// ```
    /// let queue = Queue::new(alloc, 16)?;
    /// let mut adapter =
    ///     Adapter::queued(alloc, objects, Some(ledger), Some(queue), listen, limits, Shares::NONE)?;
    /// ```
    ///
    /// # Errors
    ///
    /// `AllocError` if memory is refused.
    pub fn queued(
        alloc: Global,
        objects: Objects,
        ledger: Option<Ledger>,
        queue: Option<Queue>,
        listen: Listen,
        limits: Limits,
        shares: Shares,
    ) -> Result<Adapter, AllocError>
        requires peers_from { 1 ≤ limits.peers }
        requires peers_to { limits.peers ≤ 16 }
        requires connections_from { 1 ≤ limits.connections }
        requires connections_to { limits.connections ≤ 64 }
        requires handle { 1 ≤ limits.first_handle }
        requires id { 1 ≤ limits.first_id }
        requires share_from { 1 ≤ shares.peers }
        requires share_to { shares.peers ≤ 16 }
        requires connection_share_from { 1 ≤ shares.connections }
        requires connection_share_to { shares.connections ≤ 64 }
        ensures { IfOk result (λ a. a ≡ shared_adapter (queued_device ledger objects queue) listen limits shares) }
    {
        let device = LedgerRouter {
            ledger,
            router: OwnedObjects::with_queue(objects, queue),
        };
        Adapter::of_device(alloc, device, listen, limits, shares)
    }

    /// Lets peers reset the device: Reset of the Identity object is executed from now on, and was refused before. Call it
    /// before the first peer begins. `resets` says how many were executed.
    ///
    /// ```
    /// let mut adapter = Adapter::new(alloc, Objects::new(alloc, &config)?, listen, limits)?;
    /// adapter.allow_reset(Resetting::new(alloc, &config)?);
    /// ```
    pub fn allow_reset(&mut self, resetting: Resetting)
        ensures { self.new ≡ with_resetting self.old (Some resetting) }
    {
        self.shared.objects.router.reset = Some(resetting);
    }

    /// Makes an adapter of the objects, with the ledger before them if there is one.
    fn of_device(
        alloc: Global,
        device: LedgerRouter<OwnedObjects>,
        listen: Listen,
        limits: Limits,
        shares: Shares,
    ) -> Result<Adapter, AllocError>
        requires peers_from { 1 ≤ limits.peers }
        requires peers_to { limits.peers ≤ 16 }
        requires connections_from { 1 ≤ limits.connections }
        requires connections_to { limits.connections ≤ 64 }
        requires handle { 1 ≤ limits.first_handle }
        requires id { 1 ≤ limits.first_id }
        ensures { IfOk result (λ a. a ≡ shared_adapter device listen limits shares) }
    {
        let places = PeerSlots::new(alloc, limits.peers)?;
        let key = device.router.objects.device();
        let manager = Manager::with_share(
            alloc,
            limits.connections,
            shares.connections,
            limits.first_id,
            key,
        )?;
        Ok(Adapter {
            next_handle: u64::from(limits.first_handle),
            shared: Shared {
                listen,
                share: shares.peers,
                moment: 0,
                manager,
                objects: device,
            },
            places,
            reply: ReplyBuf::new(),
            answer: AnswerFrame::new(),
        })
    }
}
