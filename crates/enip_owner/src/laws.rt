//! What follows from the definitions of this crate. The functions do nothing: their clauses are the laws.

ghost use Rattle.std.specs.Prelude.{◌≡◌, ℕ, List, [], ◌∷◌, false, Result};
ghost use Rattle.std.specs.List.{flat_map};
ghost use Rattle.json.specs.Json.{Json};
ghost use Rattle.json.specs.Print.{print};
ghost use Rattle.json.specs.Tree.{json_tokens};
ghost use Rattle.enip_lines.specs.InputLines.{has_newline};
ghost use Rattle.enip_owner.specs.declared.owner_fault.OwnerFault.{OwnerFault};
ghost use Rattle.enip_owner.specs.Events.{IsLineOf};
ghost use Rattle.enip_owner.specs.HandOvers.{order_law, session_law, ahead_law, soon_law, marked_first_law, none_skipped_law, again_law, done_law};
ghost use Rattle.enip_owner.specs.Requests.{Request, Says};
ghost use Rattle.enip_owner.specs.Streams.{Line, no_line, lines_of, lines_of_pieces};

/// However a stream is cut, the same lines come out of it.
pub fn cuts_do_not_matter()
    ensures { (pieces : List (List ℕ)) → lines_of_pieces no_line pieces ≡ lines_of (flat_map (λ (piece : List ℕ). piece) pieces) }
{}

/// A line that has not ended is not a line: bytes without a newline have none.
pub fn unended_line_is_none()
    ensures { (bytes : List ℕ) → has_newline bytes ≡ false → lines_of bytes ≡ [] }
{}

/// A line that the device writes is one line of its stream, and has the text that was written.
pub fn written_line_is_one()
    ensures { (j : Json) → (line : List ℕ) → IsLineOf j line → lines_of line ≡ Line (print (json_tokens j)) ∷ [] }
{}

/// A line of an owner says one thing: one request, or one reason why it is refused.
pub fn line_says_one_thing()
    ensures { (line : List ℕ) → (one other : Result Request OwnerFault) → Says line one → Says line other → one ≡ other }
{}

/// In a session, commands are handed over in the order of their tickets, each once.
pub fn commands_are_handed_over_in_order()
    ensures { order_law }
{}

/// A new session is handed the first commands that wait, in order: as many as the owner may have in hand.
pub fn sessions_get_the_first_that_wait()
    ensures { session_law }
{}

/// In a session the owner has at most `ahead` commands in hand: handed over, and not done.
pub fn at_most_ahead_are_in_hand()
    ensures { ahead_law }
{}

/// In a session the first command that waits and was not handed over is the next one, as soon as fewer than `ahead` are in
/// hand.
pub fn next_is_handed_over_as_soon_as_it_may()
    ensures { soon_law }
{}

/// In a session, commands that were handed over before, maybe before a restart, come before those that are new.
pub fn marked_commands_come_first()
    ensures { marked_first_law }
{}

/// In a session no command that waits is skipped.
pub fn none_is_skipped()
    ensures { none_skipped_law }
{}

/// A command that is handed over waits, and is marked exactly if it was handed over before.
pub fn marked_if_handed_over_before()
    ensures { again_law }
{}

/// A command that is done is not handed over after that.
pub fn none_after_done()
    ensures { done_law }
{}
