//! What holds of every execution of a request by the objects and their owner, and of the queue over any number of
//! steps. The functions do nothing: their clauses are the laws.

ghost use Rattle.cip_message.specs.Router.{RepliesWellFormed};
ghost use Rattle.cip_owner.specs.Owned.{OwnedState, exec_owned};
ghost use Rattle.cip_owner.specs.OwnerLaws.{given_law, unasked_law, unprepared_law, asked_alike_law};
ghost use Rattle.cip_owner.specs.QueueLaws.{tickets_law, numbers_law, waiting_law, results_law, once_law, finished_law};
ghost use Rattle.cip_owner.specs.QueueLaws.{queue_law, handed_law};
ghost use Rattle.cip_owner.specs.ResetLaws.{unopted_law, unowned_law, answered_law, left_law, uncounted_law};

/// Each reply has the head of a reply, its service answers the request's, and it has at most `max_size` bytes.
pub fn replies_are_well_formed()
    ensures { RepliesWellFormed (λ (w : OwnedState) max_size text. (exec_owned w max_size text).answer) }
{}

/// If a request asks the owner, the reply that is prepared is the reply to it, and is then taken.
pub fn prepared_reply_is_given()
    ensures { given_law }
{}

/// A request that does not ask the owner leaves what is prepared. So a reply never goes to another request than the one
/// that was asked.
pub fn others_leave_what_is_prepared()
    ensures { unasked_law }
{}

/// If no reply is prepared, a request that asks the owner changes nothing.
pub fn unprepared_changes_nothing()
    ensures { unprepared_law }
{}

/// Whatever is prepared, the owner is asked the same.
pub fn asked_alike()
    ensures { asked_alike_law }
{}

/// A request changes the queue only by putting its own command into it.
pub fn queue_takes_requests_alone()
    ensures { queue_law }
{}

/// In every queue that began empty the tickets of the waiting commands rise, and no result has a ticket of another, of
/// a waiting command, or that was not given.
pub fn tickets_rise()
    ensures { tickets_law }
{}

/// What was handed over stays so, and a command that is put into the queue was not.
pub fn handed_over_stays()
    ensures { handed_law }
{}

/// Tickets are numbers in a row: no ticket is given twice.
pub fn tickets_are_in_a_row()
    ensures { numbers_law }
{}

/// The commands that wait are those that were put into the queue and not finished, in the order of their tickets. None
/// is lost, and none is made up.
pub fn waiting_commands_are_those_not_finished()
    ensures { waiting_law }
{}

/// The results that are kept are the last 256 of the commands that were finished.
pub fn last_results_are_kept()
    ensures { results_law }
{}

/// Each command is finished at most once, and each result is that of a command that was put into the queue.
pub fn each_command_is_finished_once()
    ensures { once_law }
{}

/// Get_Result of its object answers a command that was finished with the owner's reply.
pub fn finished_command_is_answered()
    ensures { finished_law }
{}

/// A device that cannot be reset treats a Reset like any other request.
pub fn no_device_is_reset_unasked()
    ensures { unopted_law }
{}

/// No Reset is a request to the owner.
pub fn owner_is_not_asked_about_a_reset()
    ensures { unowned_law }
{}

/// A Reset of type 0 or 1 is executed, counted and answered with success. With any other data it is refused with "invalid
/// parameter" (0x20), and changes nothing.
pub fn reset_is_answered()
    ensures { answered_law }
{}

/// A Reset leaves what is prepared, the queue, the tables and the counts of changes.
pub fn reset_leaves_the_owner()
    ensures { left_law }
{}

/// Only a Reset counts as one.
pub fn other_requests_reset_nothing()
    ensures { uncounted_law }
{}
