//! What follows from the definitions of this crate. The functions do nothing: their clauses are the laws.

ghost use Rattle.std.specs.Prelude.{◌≡◌, List, ℕ};
ghost use Rattle.enip_owner.specs.declared.attribute_ref.AttributeRef.{AttributeRef};
ghost use Rattle.enip_server.specs.Rounds.{ServerState};
ghost use Rattle.owner_port.specs.declared.attribute_table.TypedAttribute.{TypedAttribute};
ghost use Rattle.owner_port.specs.declared.execution.Answer.TheVariants as answers;
ghost use Rattle.owner_port.specs.declared.fault.LineFault.{LineFault};
ghost use Rattle.owner_port.specs.Execution.{IsAnswered};
ghost use Rattle.owner_port.specs.declared.questions.Question.{Question};
ghost use Rattle.owner_port.specs.Handing.{waits_law};
ghost use Rattle.owner_port.specs.Questions.{given_once_law, given_to_asked_law};
ghost use Rattle.owner_port.specs.Sets.{reports_law, own_write_law};

use enip_server::Wire;

/// As many sets of an attribute are reported as peers have made: each of them, and no other.
pub fn each_set_is_reported()
    ensures { reports_law }
{}

/// What the device itself writes, for its owner too, is not reported as a set.
pub fn own_writes_are_no_sets()
    ensures { own_write_law }
{}

/// A line of the owner that is refused changes nothing, and neither does one that wants a value.
pub fn refused_lines_change_nothing<W: Wire>()
    ensures refused { (types : List TypedAttribute) (line : List ℕ) (waiting left : List Question)
        (before after : ServerState W) (fault : LineFault) →
        IsAnswered types line waiting before (answers.Refused fault) left after → (left ≡ waiting) × (after ≡ before) }
    ensures read { (types : List TypedAttribute) (line : List ℕ) (waiting left : List Question)
        (before after : ServerState W) (a : AttributeRef) →
        IsAnswered types line waiting before (answers.Value a) left after → (left ≡ waiting) × (after ≡ before) }
{}

/// A reply of the owner is given once, and only to a request that asks the same as the one that the owner was asked.
pub fn replies_are_given_once()
    ensures once { given_once_law }
    ensures asked { given_to_asked_law }
{}

/// Each command that is handed over waits, so that its line is queued, and is marked as handed over.
pub fn handed_commands_wait()
    ensures { waits_law }
{}
