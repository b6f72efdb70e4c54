//! What holds of every set, and of the object list. The functions do nothing: their clauses are the laws.

ghost use Rattle.cip_application.specs.Laws.{get_after_set_law, set_leaves_others_law, values_allowed_law};
ghost use Rattle.cip_application.specs.MessageRouter.{object_list_law};

/// After a set that is executed, the attribute has the value that was set.
pub fn get_after_set()
    ensures { get_after_set_law }
{}

/// A set changes the value of no other attribute, of this object or of another.
pub fn set_leaves_others()
    ensures { set_leaves_others_law }
{}

/// No list of sets brings a value out of its range, its size or its room.
pub fn values_allowed()
    ensures { values_allowed_law }
{}

/// The object list of the Message Router rises. It has the classes that the device has itself, those of its application
/// objects, and no others.
pub fn object_list()
    ensures { object_list_law }
{}
