//! The laws of a class 3 connection, of the Connection Manager and of the bench hold for the objects of a device, with
//! and without their owner. Also a target with a router that keeps only the law of the trait.

ghost use Rattle.std.specs.Prelude.{ℕ, List, ◌≡◌, [], ◌∷◌, slice_index};

use crate::same::check_same;
use cip_class3::{Received, Target};
use cip_objects::{Objects, ReplyBuf, Router};
use cip_owner::OwnedObjects;
use std::process::Abort;

#[test]
fn the_laws_of_a_connection() {
    cip_class3::laws::each_request_once::<Objects>();
    cip_class3::laws::counts_in_order();
    cip_class3::laws::counts_differ();
    cip_class3::laws::fewer_than_counts();
    cip_class3::laws::one_reply_each();
}

#[test]
fn the_laws_of_the_manager() {
    cip_manager::laws::sessions_apart::<Objects>();
    cip_manager::laws::connections_apart::<Objects>();
    cip_manager::laws::ids_rise::<Objects>();
    cip_manager::laws::connections_differ::<Objects>();
}

#[test]
fn the_laws_of_the_objects() {
    cip_objects::laws::replies_are_well_formed();
}

#[test]
fn the_laws_of_the_bench() {
    enip_bench::laws::worlds_agree::<Objects>();
    enip_bench::laws::executed_once();
    enip_bench::laws::written_once();
    enip_bench::laws::executed_on_arrival();
    enip_bench::laws::accepted_once::<Objects>();
    enip_bench::laws::answered_alike::<Objects>();
    enip_bench::laws::fewer_than_counts();
    enip_bench::laws::refused_at_the_bound::<Objects>();
    enip_bench::laws::bound_cannot_be_raised::<Objects>();
    enip_bench::laws::log_is_a_run();
    enip_bench::laws::frames_agree();
    enip_bench::laws::frames_accepted_once();
    enip_bench::laws::frames_answered_alike();
    enip_bench::laws::frames_executed_once();
    enip_bench::laws::frames_asked_once();
    enip_bench::laws::frames_bound_cannot_be_raised();
    enip_bench::laws::ends_just_opened();
}

/// The objects with their owner are a router as well.
#[test]
fn the_laws_with_an_owner() {
    cip_class3::laws::each_request_once::<OwnedObjects>();
    cip_class3::laws::execution_foreseen::<OwnedObjects>();
    cip_manager::laws::execution_foreseen::<OwnedObjects>();
    cip_ledger::laws::each_command_once::<OwnedObjects>();
    enip_bench::laws::worlds_agree::<OwnedObjects>();
}

/// A router whose reply is one byte: the first byte of the previous request.
#[derive(Drop)]
struct Last {
    byte: u8,
}

impl Router for Last {
    ghost after = { λ s max_size request. record { byte = slice_index request 0 } };

    ghost answer = { λ s max_size request. s.byte ∷ [] };

    fn execute(&mut self, request: &[u8], max_size: usize, reply: &mut ReplyBuf) {
        reply.clear();
        reply.push(self.byte);
        self.byte = request[0];
    }

    ghost too_large = { λ s max_size request h e. absurd (cc) };
}

/// Asserts the one byte of the reply that a target keeps.
fn check_kept<A: Abort>(rt: &A, target: &Target, reply: u8) {
    let kept = target.kept().map(|kept| kept.reply);
    check_same(rt, kept, Some([reply].as_slice()));
}

/// Items; what the target does with each; then the byte of its kept reply, and the router's byte.
const ITEMS: &[(&[u8], Received, u8, u8)] = &[
    (&[1, 0, 5, 0], Received::Executed, 9, 5),
    (&[1, 0, 7, 0], Received::Repeated, 9, 5),
    (&[2, 0, 7, 0], Received::Executed, 5, 7),
    (&[3, 0, 8], Received::Dropped, 5, 7),
];

fn check_items<A: Abort>(rt: &A, target: &mut Target, router: &mut Last) {
    for (item, received, reply, left) in ITEMS {
        check_same(rt, target.receive(router, item), *received);
        check_kept(rt, target, *reply);
        check_same(rt, router.byte, *left);
    }
}

/// What a target with such a router executes, repeats and drops, and which reply it keeps.
#[test]
fn a_target_over_a_router_without_form(rt: HostRuntime) {
    let mut router = Last { byte: 9 };
    let mut target = Target::new(100, 100);
    check_items(&rt, &mut target, &mut router);
}
