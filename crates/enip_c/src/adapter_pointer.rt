//! The pointer to an adapter that C keeps.

ghost use Rattle.std.specs.Prelude.{◌≡◌, Some, None, Option};
ghost use Rattle.std.specs.Coded.{coded_option};
ghost use Rattle.enip_adapter.specs.Calls.{AdapterState};
ghost use Rattle.enip_adapter.specs.Stored.{adapter_code};
ghost use Rattle.enip_c.specs.Kept.{IsLive};

use crate::loose::Loose;
use enip_adapter::Adapter;
use std::alloc::Global;
use std::marker::Model;

/// What C keeps of an adapter: a pointer to it, NULL if there is none. C passes it to each call, and neither reads nor
/// writes it.
#[repr(C)]
#[derive(Drop)]
pub struct KeptAdapter {
    at: *mut u8,
    /// The adapter at the pointer, if any.
    pub ghost value: { Option AdapterState } by { coded_option adapter_code },
}

impl Model for KeptAdapter {
    ghost use Rattle.enip_c.specs.Kept.{kept_owns};
    ghost use Rattle.enip_adapter.specs.contracts.adapter.Adapter.{the_row};

    ghost also_owns = { λ k. kept_owns the_row k.at k.value };
}

impl KeptAdapter {
    /// Without an adapter.
    fn empty() -> KeptAdapter
        ensures { result.value ≡ None }
    {
        KeptAdapter {
            at: std::ptr::null_mut(),
        }
    }

    fn of_loose(adapter: Loose<Adapter, Global>) -> KeptAdapter
        ensures { result.value ≡ Some adapter.value }
    {
        let Loose { at, alloc: _ } = adapter;
        KeptAdapter { at: at as *mut u8 }
    }

    fn into_loose(self, alloc: Global) -> Loose<Adapter, Global>
        requires { IsLive self.value }
        ensures { Some result.value ≡ self.value }
    {
        let KeptAdapter { at } = self;
        Loose {
            at: at as *mut Adapter,
            alloc,
        }
    }

    /// With this adapter.
    pub(crate) fn of(adapter: Box<Adapter, Global>) -> KeptAdapter
        ensures { result.value ≡ Some adapter.value }
    {
        KeptAdapter::of_loose(Loose::of(adapter))
    }

    /// Takes the adapter out.
    pub(crate) fn take(&mut self, alloc: Global) -> Box<Adapter, Global>
        requires { IsLive self.old.value }
        ensures taken { Some result.value ≡ self.old.value }
        ensures empty { self.new.value ≡ None }
    {
        let empty = KeptAdapter::empty();
        let kept = std::mem::replace(self, empty);
        kept.into_loose(alloc).into_box()
    }
}
