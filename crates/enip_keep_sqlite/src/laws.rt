//! What follows from one run to the next. The function does nothing: its clauses are the laws.

ghost use Rattle.enip_keep_sqlite.specs.NextStart.{last_commit_law, next_start_law};

use sqlite_disk::Disk;

/// Where the files hold what a crash, or the end of a run, could leave of a store, a start finds entries that a keeper
/// over that store may leave: if it was open, exactly those of its last commit.
pub fn next_start_finds_the_last_commit<D: Disk>()
    ensures left { next_start_law D.Disk }
    ensures commit { last_commit_law D.Disk }
{}
