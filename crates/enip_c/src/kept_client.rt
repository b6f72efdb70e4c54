//! The pointer to a client that C keeps.

ghost use Rattle.std.specs.Prelude.{◌≡◌, Some, None, Option};
ghost use Rattle.std.specs.Coded.{coded_option};
ghost use Rattle.enip_client.specs.Client.{ClientState};
ghost use Rattle.enip_client.specs.contracts.client.Client.{the_row};
ghost use Rattle.enip_c.specs.Kept.{IsLive};

use crate::loose::Loose;
use enip_client::Client;
use std::alloc::Global;
use std::marker::Model;

/// What C keeps of a client: a pointer to it, NULL if there is none. C passes it to each call, and neither reads nor
/// writes it.
#[repr(C)]
#[derive(Drop)]
pub struct KeptClient {
    at: *mut u8,
    /// The client at the pointer, if any.
    pub ghost value: { Option ClientState } by { coded_option (the_row.coded) },
}

impl Model for KeptClient {
    ghost use Rattle.enip_c.specs.Kept.{kept_owns};
    ghost use Rattle.enip_client.specs.contracts.client.Client.{the_row};

    ghost also_owns = { λ k. kept_owns the_row k.at k.value };
}

impl KeptClient {
    /// Without a client.
    fn empty() -> KeptClient
        ensures { result.value ≡ None }
    {
        KeptClient {
            at: std::ptr::null_mut(),
        }
    }

    fn of_loose(client: Loose<Client, Global>) -> KeptClient
        ensures { result.value ≡ Some client.value }
    {
        let Loose { at, alloc: _ } = client;
        KeptClient { at: at as *mut u8 }
    }

    fn into_loose(self, alloc: Global) -> Loose<Client, Global>
        requires { IsLive self.value }
        ensures { Some result.value ≡ self.value }
    {
        let KeptClient { at } = self;
        Loose {
            at: at as *mut Client,
            alloc,
        }
    }

    /// With this client.
    pub(crate) fn of(client: Box<Client, Global>) -> KeptClient
        ensures { result.value ≡ Some client.value }
    {
        KeptClient::of_loose(Loose::of(client))
    }

    /// Takes the client out.
    pub(crate) fn take(&mut self, alloc: Global) -> Box<Client, Global>
        requires { IsLive self.old.value }
        ensures taken { Some result.value ≡ self.old.value }
        ensures empty { self.new.value ≡ None }
    {
        let empty = KeptClient::empty();
        let kept = std::mem::replace(self, empty);
        kept.into_loose(alloc).into_box()
    }
}
