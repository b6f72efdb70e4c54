//! The device's own writes, apart from the frames of its peers.
//! Text: docs/PROTOCOL.md, "The device's own side".

ghost use Rattle.std.specs.Prelude.{◌≡◌, is_some, unwrap_or};
ghost use Rattle.std.specs.Option.{option_map};
ghost use Rattle.cip_ledger.specs.Device.{finished_in};
ghost use Rattle.cip_ledger.specs.Doubt.{settled};
ghost use Rattle.cip_objects.specs.DeviceWrites.{device_write, with_device_status, with_device_state};
ghost use Rattle.enip_adapter.specs.Device.{with_device, with_objects, with_prepared, with_ledger};
ghost use Rattle.enip_adapter.specs.OwnWrites.{OwnWrite, attribute_write, can_settle_in};
ghost use Rattle.enip_adapter.specs.QueueLaws.{is_waiting};

use super::Adapter;
use cip_bytes::protocol::ASSEMBLY;
use cip_owner::OwnerReply;

impl Adapter {
    ghost use Rattle.enip_adapter.specs.Calls.{Call, after_call};

    /// Writes bytes into the data of an assembly, from `offset` on, on behalf of the device itself. Whether peers may
    /// set the assembly does not matter.
    ///
    /// Returns `false`, and changes nothing, if there is no such assembly or the bytes go past the end of its data. The
    /// write is not counted in `changes`, and nothing else of the adapter changes.
    pub fn write_data(&mut self, instance: u32, offset: usize, bytes: &[u8]) -> bool
        ensures written { self.new ≡ with_objects self.old (unwrap_or
            (device_write self.old.state.shared.objects.router.objects instance offset bytes.now)
            self.old.state.shared.objects.router.objects) }
        ensures told { result
            ≡ is_some (device_write self.old.state.shared.objects.router.objects instance offset bytes.now) }
        ensures call { self.new ≡ after_call self.old (Call.Writes (OwnWrite.WritesData instance offset bytes.now)) }
    {
        self.shared
            .objects
            .router
            .objects
            .write_data(instance, offset, bytes)
    }

    /// Writes bytes into an attribute, from `offset` on, on behalf of the device itself: the data of an assembly (class
    /// 0x04, attribute 3) or an attribute of an application object. Whether peers may set it does not matter.
    ///
    /// Returns `false`, and changes nothing, if it is neither or its value cannot hold the bytes: they must end within
    /// it, and a SHORT_STRING is written as a whole. The write is not counted in `attribute_changes`, and nothing else
    /// of the adapter changes.
    ///
    /// ```
    /// adapter.write_attribute(0x64, 1, 3, 0, &[0x10, 0x27]); // the INT at attribute 3 is 10,000 now
    /// ```
    pub fn write_attribute(
        &mut self,
        class: u16,
        instance: u32,
        attribute: u16,
        offset: usize,
        bytes: &[u8],
    ) -> bool
        ensures written { self.new ≡ with_objects self.old (unwrap_or
            (attribute_write self.old.state.shared.objects.router.objects class instance attribute offset bytes.now)
            self.old.state.shared.objects.router.objects) }
        ensures told { result ≡ is_some
            (attribute_write self.old.state.shared.objects.router.objects class instance attribute offset bytes.now) }
        ensures call { self.new ≡ after_call self.old
            (Call.Writes (OwnWrite.WritesAttribute class instance attribute offset bytes.now)) }
    {
        let objects = &mut self.shared.objects.router.objects;
        if class == ASSEMBLY && attribute == 3 {
            return objects.write_data(instance, offset, bytes);
        }
        objects.write_attribute(class, instance, attribute, offset, bytes)
    }

    /// Sets the device's status, a WORD: attribute 5 of the Identity object, which ListIdentity shows too. Nothing else
    /// changes.
    pub fn set_device_status(&mut self, status: u16)
        ensures written { self.new
            ≡ with_objects self.old (with_device_status self.old.state.shared.objects.router.objects status) }
        ensures call { self.new ≡ after_call self.old (Call.Writes (OwnWrite.SetsStatus status)) }
    {
        self.shared.objects.router.objects.set_device_status(status);
    }

    /// Sets the device's state, a USINT: attribute 8 of the Identity object, which ListIdentity shows too. Nothing else
    /// changes.
    pub fn set_device_state(&mut self, state: u8)
        ensures written { self.new
            ≡ with_objects self.old (with_device_state self.old.state.shared.objects.router.objects state) }
        ensures call { self.new ≡ after_call self.old (Call.Writes (OwnWrite.SetsState state)) }
    {
        self.shared.objects.router.objects.set_device_state(state);
    }

    /// Sets the reply that the next request to the owner takes, or `None`. Nothing else changes.
    ///
    /// A program that serves peers calls `feed_prepared` instead, which withdraws a reply that is not taken.
    pub fn prepare(&mut self, reply: Option<OwnerReply>)
        ensures written { self.new ≡ with_prepared self.old reply }
        ensures call { self.new ≡ after_call self.old (Call.Writes (OwnWrite.Prepares reply)) }
    {
        self.shared.objects.router.prepared = reply;
    }

    /// Settles a command in doubt of the command ledger: a repeat of it gets this reply from now on. `reply` is the whole
    /// reply that its embedded request should have had. The ledger lists the commands in doubt (`Ledger::in_doubt`).
    ///
    /// Returns `false`, and changes nothing, if the adapter has no ledger, if this command of this originator is not in
    /// doubt, or if the reply does not have 4 to 480 bytes. Nothing else of the adapter changes.
    ///
    /// ```
    /// adapter.settle(originator, number, &[0xb2, 0, 0, 0]); // the machine did move
    /// ```
    pub fn settle(&mut self, originator: u64, number: u32, reply: &[u8]) -> bool
        ensures written { self.new ≡ with_ledger self.old (option_map
            (λ ledger. settled ledger originator number reply.now) self.old.state.shared.objects.ledger) }
        ensures told { result
            ≡ can_settle_in self.old.state.shared.objects.ledger originator number reply.now }
        ensures call { self.new ≡ after_call self.old (Call.Writes (OwnWrite.Settles originator number reply.now)) }
    {
        match &mut self.shared.objects.ledger {
            Some(ledger) => ledger.settle(originator, number, reply),
            None => false,
        }
    }

    /// Finishes a queued command, by its ticket, with the owner's reply: it waits no longer, and its result is kept. If a
    /// numbered command embeds it, a repeat of that one gets this reply from now on.
    ///
    /// Returns `false`, and changes nothing, if no command with this ticket waits, if the reply is longer than its service
    /// allows, or if its status says that it is too large (0x11). Nothing else of the adapter changes.
    ///
    /// ```
    /// if let Some(command) = adapter.queue().and_then(|queue| queue.waiting(0)) {
    ///     let ticket = command.ticket;
    ///     // execute it, and then
    ///     adapter.finish(ticket, &reply);
    /// }
    /// ```
    #[tactic(auto, using(crate::proofs::SettleLemmas::finished_written))]
    pub fn finish(&mut self, ticket: u32, reply: &OwnerReply) -> bool
        ensures written { self.new ≡ with_device self.old (unwrap_or
            (finished_in ticket reply.now self.old.state.shared.objects) self.old.state.shared.objects) }
        ensures told { result ≡ is_some (finished_in ticket reply.now self.old.state.shared.objects) }
        ensures call { self.new ≡ after_call self.old (Call.Writes (OwnWrite.Finishes ticket reply.now)) }
    {
        self.shared.objects.finish(ticket, reply)
    }

    /// Marks the queued command with this ticket, and each that waits before it, as handed over to the owner. Call it
    /// before the owner hears of the command.
    ///
    /// Returns `false`, and changes nothing, if no command with this ticket waits. Nothing else of the adapter changes.
    ///
    /// ```
    /// if adapter.mark(ticket) {
    ///     // keep the state of the device, and then send the command to its owner
    /// }
    /// ```
    pub fn mark(&mut self, ticket: u32) -> bool
        ensures told { result ≡ is_waiting ticket self.old.state.shared.objects.router.queue }
        ensures call { self.new ≡ after_call self.old (Call.Writes (OwnWrite.Marks ticket)) }
    {
        match &mut self.shared.objects.router.queue {
            Some(queue) => queue.mark(ticket),
            None => false,
        }
    }
}
