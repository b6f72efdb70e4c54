//! The pointer to a commander that C keeps.

ghost use Rattle.std.specs.Prelude.{◌≡◌, Some, None, Option};
ghost use Rattle.std.specs.Coded.{coded_option};
ghost use Rattle.cip_commander.specs.CommanderRule.{CommanderState};
ghost use Rattle.cip_commander.specs.contracts.commander.Commander.{the_row};
ghost use Rattle.enip_c.specs.Kept.{IsLive};

use crate::loose::Loose;
use cip_commander::Commander;
use std::alloc::Global;
use std::marker::Model;

/// What C keeps of a commander: a pointer to it, NULL if there is none. C passes it to each call, and neither reads nor
/// writes it.
#[repr(C)]
#[derive(Drop)]
pub struct KeptCommander {
    at: *mut u8,
    /// The commander at the pointer, if any.
    pub ghost value: { Option CommanderState } by { coded_option (the_row.coded) },
}

impl Model for KeptCommander {
    ghost use Rattle.enip_c.specs.Kept.{kept_owns};
    ghost use Rattle.cip_commander.specs.contracts.commander.Commander.{the_row};

    ghost also_owns = { λ k. kept_owns the_row k.at k.value };
}

impl KeptCommander {
    /// Without a commander.
    fn empty() -> KeptCommander
        ensures { result.value ≡ None }
    {
        KeptCommander {
            at: std::ptr::null_mut(),
        }
    }

    fn of_loose(commander: Loose<Commander, Global>) -> KeptCommander
        ensures { result.value ≡ Some commander.value }
    {
        let Loose { at, alloc: _ } = commander;
        KeptCommander { at: at as *mut u8 }
    }

    fn into_loose(self, alloc: Global) -> Loose<Commander, Global>
        requires { IsLive self.value }
        ensures { Some result.value ≡ self.value }
    {
        let KeptCommander { at } = self;
        Loose {
            at: at as *mut Commander,
            alloc,
        }
    }

    /// With this commander.
    pub(crate) fn of(commander: Box<Commander, Global>) -> KeptCommander
        ensures { result.value ≡ Some commander.value }
    {
        KeptCommander::of_loose(Loose::of(commander))
    }

    /// Takes the commander out.
    pub(crate) fn take(&mut self, alloc: Global) -> Box<Commander, Global>
        requires { IsLive self.old.value }
        ensures taken { Some result.value ≡ self.old.value }
        ensures empty { self.new.value ≡ None }
    {
        let empty = KeptCommander::empty();
        let kept = std::mem::replace(self, empty);
        kept.into_loose(alloc).into_box()
    }
}
