//! The slots of the open connections. They are all allocated at once.
//!
//! `Slots` has no call that grows: after `new` it uses only slots that `new` allocated.
ghost use Rattle.std.specs.Prelude.{◌≡◌, ◌≤◌, ◌+◌, [], Some, None, length, IfOk, IfSome};
ghost use Rattle.std.specs.Option.{option_map};
ghost use Rattle.std.specs.Borrow.{sem};
ghost use Rattle.std.specs.Io.BufRead.{Rests};
ghost use Rattle.slab.specs.Slab.{get, ContainsKey, HasRoomFor, Updates, slab_len, with_value};
ghost use Rattle.cip_manager.specs.Items.{view as reply_in, turn_until, answer_of};
ghost use Rattle.cip_manager.specs.declared.connection.Connection.{Connection as OpenConnection};

use crate::connection::Connection;
use crate::manager::KeptAnswer;
use cip_bytes::protocol::{LARGEST_CONNECTION_SIZE, SEQUENCE_COUNT_SIZE};
use cip_message::Router;
use slab::Slab;
use std::alloc::{AllocError, Global};
use std::marker::Model;

/// The open connections, each under a key. A key is used again after its connection ended.
#[derive(Drop)]
pub struct Slots {
    kept: Slab<Connection>,
}

impl Model for Slots {
    ghost use Rattle.slab.specs.Slab.{Slab as Kept};
    ghost use Rattle.cip_manager.specs.declared.connection.Connection.{Connection as KeptConnection};

    ghost Value = { Kept KeptConnection };

    ghost view = { λ s. s.kept };
}

impl Slots {
    ghost use Rattle.cip_manager.specs.contracts.slots.Slots.{the_row};

    /// Allocates this many slots. None is taken.
    pub fn new(alloc: Global, places: u16) -> Result<Slots, AllocError>
        ensures empty { IfOk result (λ slots. slots.slots ≡ []) }
        ensures room { IfOk result (λ slots. places ≤ slots.capacity) }
    {
        Ok(Slots {
            kept: Slab::with_capacity(alloc, usize::from(places))?,
        })
    }

    /// Stores a connection, and returns its key.
    pub fn insert(&mut self, connection: Connection) -> usize
        requires { HasRoomFor self.old 1 }
        ensures was_vacant { get self.old result ≡ None }
        ensures updates { Updates self.old self.new result (Some connection) }
        ensures len { slab_len self.new ≡ slab_len self.old + 1 }
        ensures capacity { self.new.capacity ≡ self.old.capacity }
    {
        self.kept.insert_reserved(connection)
    }

    /// Ends the connection with this key.
    pub fn remove(&mut self, key: usize)
        requires { ContainsKey self.old key }
        ensures updates { Updates self.old self.new key None }
        ensures len { slab_len self.new + 1 ≡ slab_len self.old }
        ensures capacity { self.new.capacity ≡ self.old.capacity }
    {
        self.kept.remove(key);
    }

    /// The connection with this key.
    #[inline(always)]
    pub fn at(&self, key: usize) -> &Connection
        requires { ContainsKey self.now key }
        ensures { get self.now key ≡ Some result.now }
    {
        &self.kept[key]
    }

    /// Passes an item to the connection with this key, and lends the answer from there. An item that is not dropped
    /// moves the deadline to this one.
    #[inline(always)]
    pub fn serve<R: Router>(
        &mut self,
        key: usize,
        deadline: u64,
        item: &[u8],
        router: &mut R,
    ) -> Option<KeptAnswer<'_>>
        requires { ContainsKey self.old key }
        ensures* state { sem 𝓛 (Rests the_row self.entry (λ last. (c : OpenConnection) → get self.old key ≡ Some c →
            last ≡ with_value self.old key (turn_until R.after R.answer c deadline item.now router.old).connection)) }
        ensures answer { (c : OpenConnection) → get self.old key ≡ Some c →
            option_map reply_in result ≡ answer_of (turn_until R.after R.answer c deadline item.now router.old) }
        ensures router { (c : OpenConnection) → get self.old key ≡ Some c →
            router.new ≡ (turn_until R.after R.answer c deadline item.now router.old).router }
        ensures fits { IfSome result (λ answer. length answer.reply.now + SEQUENCE_COUNT_SIZE ≤ LARGEST_CONNECTION_SIZE) }
    {
        self.kept[key].serve(deadline, item, router)
    }
}
