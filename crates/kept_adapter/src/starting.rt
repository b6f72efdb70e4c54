//! The start of an adapter, and what is kept of it.
ghost use Rattle.std.specs.Prelude.{◌≡◌, true, false, if◌then◌else◌, IfOk, IfErr, refl};
ghost use Rattle.cip_objects.specs.Configuration.{contents_of_config};
ghost use Rattle.enip_keep.specs.Kept.{pairs_of};
ghost use Rattle.kept_server.specs.Changes.{rise};
ghost use Rattle.kept_adapter.specs.SameKeys.{keys_stay};
ghost use Rattle.kept_adapter.specs.Saved.{adapter_keys, saved_adapter};
ghost use Rattle.kept_adapter.specs.Started.{all_unused_keys, new_ledger, new_queue, put_back_in, started, Refuses, IsStartFault};
ghost use Rattle.kept_adapter.specs.Started.{is_trusted, queue_back_in, reset_from, started_from, trusted_ledger, trusted_queue, waiting_keys};

use crate::adapter_start::AdapterStart;
use crate::comparing::{are_of_queue, behind_ledger, behind_objects};
use crate::fault::StartFault;
use crate::keys::is_value_key;
use crate::progress::Progress;
use crate::queue_progress::QueueProgress;
use crate::saving::{do_keys_rise, save_ledger_if_any, save_objects, save_queue_if_any};
use crate::tickets::has_given_all;
use cip_ledger::Ledger;
use cip_objects::Objects;
use cip_owner::{Queue, Resetting};
use device_state::needs_version_2;
use enip_adapter::Adapter;
use enip_keep::{Entry, KeepError};
use kept_server::KeptDevice;
use std::alloc::{AllocError, Global};

impl AdapterStart {
    /// The keys of the entries from which `start` takes nothing: they are of no value of this device, or the value has
    /// another size. They stay kept, the latter until the value changes. If an entry of the ledger is among them, the
    /// ledger starts empty. So do the ledger and the queue if the device has a queue and one of its entries is among them.
    ///
    /// # Errors
    ///
    /// `Memory` if memory is refused.
    ///
    /// ```
    /// for key in &start.unused(alloc, &entries)? {
    ///     report(key);
    /// }
    /// ```
    pub fn unused(&self, alloc: Global, entries: &[Entry]) -> Result<Vec<u64>, KeepError>
        ensures { IfOk result (λ keys. keys.items ≡ all_unused_keys self.now (pairs_of entries.now)) }
    {
        let objects = self.new_objects(alloc)?;
        let ledger = self.new_ledger(alloc)?;
        let mut keys = Progress::new(objects, ledger).unused_keys(alloc, entries)?;
        QueueProgress::new(self.new_queue(alloc)?).unused_keys(entries, &mut keys)?;
        Ok(keys)
    }

    /// Makes the adapter that starts from entries: those of `save`, in its order.
    ///
    /// # Errors
    ///
    /// `Memory` if memory is refused, `OtherDevice` if the entries are of another device, `Order` if the assemblies or
    /// the application objects are not configured in rising order.
    ///
    /// ```
    /// let adapter = start.start_from(alloc, &entries)?;
    /// ```
    pub fn start_from(&self, alloc: Global, entries: &[Entry]) -> Result<Adapter, StartFault>
        ensures started { IfOk result (λ a. a ≡ started self.now (pairs_of entries.now)) }
        ensures rising { IfOk result (λ a. rise (adapter_keys a) ≡ true) }
        ensures own { IfOk result (λ a. (put_back_in self.now (pairs_of entries.now)).is_other_device ≡ false) }
        ensures cause { IfErr result (IsStartFault self.now (pairs_of entries.now)) }
    {
        let progress = self.put_back(alloc, entries)?;
        if progress.is_other_device {
            return Err(StartFault::OtherDevice);
        }
        let queue = self.put_queue_back(alloc, entries)?;
        let adapter = self.adapter(alloc, progress, queue)?;
        let mut saved = Vec::new(alloc);
        Self::save(alloc, &adapter, &mut saved)?;
        if !do_keys_rise(&saved) {
            return Err(StartFault::Order);
        }
        Ok(adapter)
    }

    /// The objects as they are configured.
    pub(crate) fn new_objects(&self, alloc: Global) -> Result<Objects, AllocError>
        ensures { IfOk result (λ objects. objects ≡ contents_of_config self.now.objects) }
    {
        match Objects::new(alloc, &self.objects) {
            Ok(objects) => Ok(objects),
            // The configuration has no other fault.
            Err(_) => Err(AllocError),
        }
    }

    /// The ledger as it is configured, with all slots free.
    fn new_ledger(&self, alloc: Global) -> Result<Option<Ledger>, AllocError>
        ensures { IfOk result (λ ledger. ledger ≡ new_ledger self.now.ledger) }
    {
        match self.ledger {
            None => Ok(None),
            Some(ledger) => Ok(Some(Ledger::new(alloc, ledger.originators, ledger.life)?)),
        }
    }

    /// The queue as it is configured, with all places free.
    fn new_queue(&self, alloc: Global) -> Result<Option<Queue>, AllocError>
        ensures { IfOk result (λ queue. queue ≡ new_queue self.now.queue) }
    {
        match self.queue {
            None => Ok(None),
            Some(limit) => Ok(Some(Queue::new(alloc, limit)?)),
        }
    }

    /// The queue once all its entries are put back that can be.
    fn put_queue_back(&self, alloc: Global, entries: &[Entry]) -> Result<QueueProgress, AllocError>
        ensures { IfOk result (λ p. p ≡ queue_back_in self.now (pairs_of entries.now)) }
    {
        let mut queue = QueueProgress::new(self.new_queue(alloc)?);
        queue.put_all_back(entries);
        Ok(queue)
    }

    /// The device once all entries are put back that can be.
    pub(crate) fn put_back(&self, alloc: Global, entries: &[Entry]) -> Result<Progress, AllocError>
        ensures { IfOk result (λ p. p ≡ put_back_in self.now (pairs_of entries.now)) }
    {
        let objects = self.new_objects(alloc)?;
        let ledger = self.new_ledger(alloc)?;
        let mut progress = Progress::new(objects, ledger);
        progress.put_all_back(entries);
        Ok(progress)
    }

    /// Whether the ledger goes on.
    fn is_trusted(&self, progress: &Progress, queue: &QueueProgress) -> bool
        ensures { result ≡ is_trusted self.now progress.now queue.now }
    {
        progress.has_life
            && !progress.has_lost
            && !queue.has_lost
            && has_given_all(progress.ledger.as_ref(), queue.queue.as_ref())
            && !self.begins_life
    }

    /// The ledger of a device that entries were put back into, or a new one.
    fn trusted_ledger(
        &self,
        alloc: Global,
        is_trusted: bool,
        ledger: Option<Ledger>,
    ) -> Result<Option<Ledger>, AllocError>
        ensures { IfOk result (λ l. l ≡ (if is_trusted then ledger else new_ledger self.now.ledger)) }
    {
        if is_trusted {
            Ok(ledger)
        } else {
            self.new_ledger(alloc)
        }
    }

    /// The queue that entries were put back into, or a new one if one of them was lost, or if a new life is wanted.
    fn trusted_queue(
        &self,
        alloc: Global,
        progress: QueueProgress,
    ) -> Result<Option<Queue>, AllocError>
        ensures { IfOk result (λ q. q ≡ trusted_queue self.now progress) }
    {
        if progress.has_lost || self.begins_life {
            return self.new_queue(alloc);
        }
        let QueueProgress { queue, .. } = progress;
        Ok(queue)
    }

    /// The adapter of a device that entries were put back into.
    fn adapter(
        &self,
        alloc: Global,
        progress: Progress,
        queue: QueueProgress,
    ) -> Result<Adapter, AllocError>
        ensures { IfOk result (λ a. a ≡ started_from self.now progress queue) }
    {
        let is_trusted = self.is_trusted(&progress, &queue);
        let Progress {
            objects,
            ledger,
            ..
        } = progress;
        let ledger = self.trusted_ledger(alloc, is_trusted, ledger)?;
        let queue = self.trusted_queue(alloc, queue)?;
        let mut adapter = Adapter::queued(
            alloc,
            objects,
            ledger,
            queue,
            self.listen,
            self.limits,
            self.shares,
        )?;
        let Some(resetting) = self.resetting(alloc)? else {
            return Ok(adapter);
        };
        adapter.allow_reset(resetting);
        Ok(adapter)
    }

    /// What the device needs to be reset, if its configuration lets peers do so.
    fn resetting(&self, alloc: Global) -> Result<Option<Resetting>, AllocError>
        ensures { IfOk result (λ resetting. resetting ≡ reset_from self.now) }
    {
        if !self.reset {
            return Ok(None);
        }
        match Resetting::new(alloc, &self.objects) {
            Ok(resetting) => Ok(Some(resetting)),
            // The configuration has no other fault.
            Err(_) => Err(AllocError),
        }
    }
}

impl KeptDevice for AdapterStart {
    ghost saved = { saved_adapter };

    ghost keys = { adapter_keys };

    ghost started = { started };

    ghost waiting = { waiting_keys };

    ghost refuses = { Refuses };

    fn idle_timeout(&self) -> u64 {
        self.idle_timeout
    }

    fn start(&self, alloc: Global, entries: &[Entry]) -> Result<Adapter, KeepError> {
        match self.start_from(alloc, entries) {
            Ok(adapter) => Ok(adapter),
            Err(StartFault::Memory) => Err(KeepError::Memory),
            Err(StartFault::OtherDevice | StartFault::Order) => Err(KeepError::Refused),
        }
    }

    fn first(&self, alloc: Global) -> Result<Adapter, AllocError> {
        let progress = self.put_back(alloc, &[])?;
        let queue = self.put_queue_back(alloc, &[])?;
        self.adapter(alloc, progress, queue)
    }

    fn waiting(&self, alloc: Global, entries: &[Entry]) -> Result<Vec<u64>, AllocError> {
        let objects = self.new_objects(alloc)?;
        let ledger = self.new_ledger(alloc)?;
        let mut keys = Progress::new(objects, ledger).unused_keys(alloc, entries)?;
        keys.retain(|key| is_value_key(*key));
        Ok(keys)
    }

    fn is_saved(adapter: &Adapter, entries: &[Entry]) -> bool {
        let objects = adapter.objects();
        let queue = adapter.queue();
        let ledger = adapter.ledger();
        let is_version_2 = needs_version_2(queue, ledger);
        let Some(behind) = behind_objects(objects, is_version_2, entries) else {
            return false;
        };
        match behind_ledger(objects, ledger, behind) {
            Some(rest) => are_of_queue(queue, rest),
            None => false,
        }
    }

    fn save(alloc: Global, adapter: &Adapter, into: &mut Vec<Entry>) -> Result<(), AllocError> {
        let objects = adapter.objects();
        let queue = adapter.queue();
        let ledger = adapter.ledger();
        let is_version_2 = needs_version_2(queue, ledger);
        let values = save_objects(alloc, objects, is_version_2, into)?;
        let behind = save_ledger_if_any(alloc, objects, ledger, values, into)?;
        let count = save_queue_if_any(alloc, queue, behind, into)?;
        into.truncate(count);
        Ok(())
    }

    ghost under_keys = { λ a. refl };

    ghost same_keys = { keys_stay };
}
