//! The pointer to endings that C keeps.

ghost use Rattle.std.specs.Prelude.{◌≡◌, Some, None, Option};
ghost use Rattle.std.specs.Coded.{coded_option};
ghost use Rattle.enip_adapter.specs.Endings.{EndingsState};
ghost use Rattle.enip_adapter.specs.contracts.endings.Endings.{the_row};
ghost use Rattle.enip_c.specs.Kept.{IsLive};

use crate::loose::Loose;
use enip_adapter::Endings;
use std::alloc::Global;
use std::marker::Model;

/// What C keeps of endings: a pointer to them, NULL if there are none. C passes it to each call, and neither reads nor
/// writes it.
#[repr(C)]
#[derive(Drop)]
pub struct KeptEndings {
    at: *mut u8,
    /// The endings at the pointer, if any.
    pub ghost value: { Option EndingsState } by { coded_option (the_row.coded) },
}

impl Model for KeptEndings {
    ghost use Rattle.enip_c.specs.Kept.{kept_owns};
    ghost use Rattle.enip_adapter.specs.contracts.endings.Endings.{the_row};

    ghost also_owns = { λ k. kept_owns the_row k.at k.value };
}

impl KeptEndings {
    /// Without endings.
    fn empty() -> KeptEndings
        ensures { result.value ≡ None }
    {
        KeptEndings {
            at: std::ptr::null_mut(),
        }
    }

    fn of_loose(endings: Loose<Endings, Global>) -> KeptEndings
        ensures { result.value ≡ Some endings.value }
    {
        let Loose { at, alloc: _ } = endings;
        KeptEndings { at: at as *mut u8 }
    }

    fn into_loose(self, alloc: Global) -> Loose<Endings, Global>
        requires { IsLive self.value }
        ensures { Some result.value ≡ self.value }
    {
        let KeptEndings { at } = self;
        Loose {
            at: at as *mut Endings,
            alloc,
        }
    }

    /// With these endings.
    pub(crate) fn of(endings: Box<Endings, Global>) -> KeptEndings
        ensures { result.value ≡ Some endings.value }
    {
        KeptEndings::of_loose(Loose::of(endings))
    }

    /// Takes the endings out.
    pub(crate) fn take(&mut self, alloc: Global) -> Box<Endings, Global>
        requires { IsLive self.old.value }
        ensures taken { Some result.value ≡ self.old.value }
        ensures empty { self.new.value ≡ None }
    {
        let empty = KeptEndings::empty();
        let kept = std::mem::replace(self, empty);
        kept.into_loose(alloc).into_box()
    }
}
