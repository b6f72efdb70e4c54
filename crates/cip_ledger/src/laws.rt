//! What follows from the ledger's rules over every list of requests, over any router and from every state.
//!
//! The functions do nothing: each one's clause is the law. A run's requests come in any order and from any sessions and
//! connections, with any repeats, mixed with requests to other objects.

ghost use Rattle.cip_ledger.specs.Laws.{router_law, passing_law, rising_law, once_law, never_again_law, same_bytes_law};
ghost use Rattle.cip_ledger.specs.Laws.{of_execution_law, others_law, frees_law, executes_law, form_law, life_law};
ghost use Rattle.cip_ledger.specs.Laws.{lives_law, standing_law, of_final_execution_law};
ghost use Rattle.cip_ledger.specs.DoubtLaws.{kept_law, doubt_law, settled_law, settled_once_law, settled_numbers_law};
ghost use Rattle.cip_ledger.specs.Executing.{doubtable_law};
ghost use Rattle.cip_ledger.specs.Kept.{restored_law};
ghost use Rattle.cip_ledger.specs.PendingLaws.{completed_once_law, completed_numbers_law, done_law, result_law};
ghost use Rattle.cip_ledger.specs.PendingLaws.{pending_law, completed_law, never_back_law};
ghost use Rattle.cip_ledger.specs.OnePending.{one_pending_law, not_taken_law, keeps_slot_law};
ghost use Rattle.cip_ledger.specs.WithdrawLaws.{withdraw_answer_law, withdrawn_law, withdrawn_once_law};

use crate::target::Target;

/// The router is as if it alone had executed what reached it: each request that is not to the ledger, and the embedded
/// request of each command once.
pub fn router_executes_what_reaches_it<R: Target>()
    ensures { router_law R.after R.answer R.standing }
{}

/// Without a ledger a request is the router's alone, and so is a request to another class.
pub fn others_pass<R: Target>()
    ensures { passing_law R.after R.answer R.standing }
{}

/// The numbers of an originator's executed commands rise, unless its slot is freed in between.
pub fn numbers_rise<R: Target>()
    ensures { rising_law R.after R.answer R.standing }
{}

/// No number of an originator is executed twice, unless its slot is freed in between.
pub fn each_command_once<R: Target>()
    ensures { once_law R.after R.answer R.standing }
{}

/// Once a number was answered with success, or with 0x0c as a greater one was executed, only greater numbers of its
/// originator are executed, until its slot is freed.
pub fn never_again<R: Target>()
    ensures { never_again_law R.after R.answer R.standing }
{}

/// Every two success answers to a number have the same bytes, even if the requests have other bytes.
pub fn same_bytes<R: Target>()
    ensures { same_bytes_law R.after R.answer R.standing }
{}

/// From an empty ledger on, every success answer has the reply of the execution of its number, or says that the command
/// is pending, which was executed too. If the router queues no command, it has the reply.
pub fn reply_of_execution<R: Target>()
    ensures any { of_execution_law R.after R.answer R.standing }
    ensures unqueued { of_final_execution_law R.after R.answer R.standing }
{}

/// The requests of others leave an originator's slot as it is.
pub fn others_leave_the_slot<R: Target>()
    ensures { others_law R.after R.answer R.standing }
{}

/// A slot is freed only by Forget with the number that it has, and is free then.
pub fn freed_by_its_number<R: Target>()
    ensures { frees_law R.after R.answer R.standing }
{}

/// A new command is executed, if a slot is its originator's or free, the longest reply fits the reply limit, and the
/// router takes it.
pub fn new_is_executed<R: Target>()
    ensures { executes_law R.after R.answer R.standing }
{}

/// What becomes of a new command is what the router makes of its embedded request: it is executed and kept with its
/// reply, executed and kept with the ticket under which the router queues it, or refused, and then nothing changes.
pub fn new_is_as_the_router_says<R: Target>()
    ensures { standing_law R.after R.answer R.standing }
{}

/// Replies are well-formed if those of the router are.
pub fn replies_are_well_formed<R: Target>()
    ensures { form_law R.after R.answer R.standing }
{}

/// Only commands of the ledger's life are executed.
pub fn only_in_its_life<R: Target>()
    ensures { life_law R.after R.answer R.standing }
{}

/// Over any lives of a device with numbers of their own, each command is executed at most once altogether, unless its
/// originator's slot is freed in between.
pub fn once_over_all_lives<R: Target>()
    ensures { lives_law R.after R.answer R.standing }
{}

/// A number that an originator's slot has, whether its command is done, pending or in doubt, is never executed again:
/// until the slot is freed, only greater numbers of that originator are.
pub fn kept_numbers_are_not_executed<R: Target>()
    ensures { kept_law R.after R.answer R.standing }
{}

/// A command in doubt is answered by its state, and is not executed: nothing changes.
pub fn a_doubtful_command_is_not_executed<R: Target>()
    ensures { doubt_law R.after R.answer R.standing }
{}

/// A command that was settled is answered by the reply that the owner gave, and is not executed: nothing changes.
pub fn settled_is_answered<R: Target>()
    ensures { settled_law R.after R.answer R.standing }
{}

/// A command is settled once: no other reply is taken for it.
pub fn settled_once()
    ensures { settled_once_law }
{}

/// The numbers in all slots stay as they are if a command is settled, so what is never executed stays so.
pub fn settling_keeps_numbers()
    ensures { settled_numbers_law }
{}

/// A ledger with as many slots that starts from what is kept of a ledger, its life and its slots, is that ledger.
pub fn restored_is_kept()
    ensures { restored_law }
{}

/// A command that a request would execute can be put in doubt, and is in doubt then.
pub fn executed_can_be_in_doubt<R: Target>()
    ensures { doubtable_law R.standing }
{}

/// A pending command is answered by its state, and is not executed again: nothing changes.
pub fn a_pending_command_is_not_executed<R: Target>()
    ensures { pending_law R.after R.answer R.standing }
{}

/// Once a reply is given to the ticket of a pending command, the command is answered by this reply, and is not
/// executed: nothing changes.
pub fn completed_is_answered<R: Target>()
    ensures { completed_law R.after R.answer R.standing }
{}

/// Withdraw that withdraws a command answers that it is withdrawn, and Forget that does so frees the slot.
pub fn withdraw_says_so()
    ensures { withdraw_answer_law }
{}

/// A command that was withdrawn is answered by its state, and is not executed: nothing changes.
pub fn a_withdrawn_command_is_not_executed<R: Target>()
    ensures { withdrawn_law R.after R.answer R.standing }
{}

/// A command is withdrawn once.
pub fn withdrawn_once()
    ensures { withdrawn_once_law }
{}

/// An originator has one pending command at most. While its last one is pending, one with a greater number is refused
/// with 0xd0 and not executed, and no Forget frees the slot, until a reply is given to its ticket.
pub fn one_pending_command<R: Target>()
    ensures executed { one_pending_law R.after R.answer R.standing }
    ensures refused { not_taken_law R.after R.answer R.standing }
    ensures kept { keeps_slot_law R.after R.answer R.standing }
{}

/// A ticket has one reply: no other one is taken for it.
pub fn completed_once()
    ensures { completed_once_law }
{}

/// The numbers in all slots stay as they are if a command is completed, so what is never executed stays so.
pub fn completing_keeps_numbers()
    ensures { completed_numbers_law }
{}

/// Every two success answers to a number have the same bytes, or the first says that the command is pending and the
/// other one has the one result of the command, over every list of requests and of replies to tickets.
pub fn answers_never_go_back<R: Target>()
    ensures answers { never_back_law R.after R.answer R.standing }
    ensures done { done_law R }
    ensures pending { result_law R }
{}
