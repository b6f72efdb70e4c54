//! What holds of an adapter that starts from the state of another run. The functions do nothing: their clauses are the
//! laws.

ghost use Rattle.saved_adapter.specs.Laws.{same_law, start_law, doubt_law};

/// Two lists of entries are found the same if and only if they are the same.
pub fn same_entries()
    ensures { same_law }
{}

/// The bytes of a saved state are read as that state, and its entries are what is kept of the adapter with its command in
/// doubt. By the clauses of `start`, the adapter that starts from them is the one that starts from these entries.
pub fn saved_is_started()
    ensures { start_law }
{}

/// The state that is saved while a command is about to be executed has it in doubt.
pub fn executed_is_saved_in_doubt()
    ensures { doubt_law }
{}
