//! What a stop of the machine comes to.
ghost use Rattle.bookfiles.specs.Restarts as spec;
ghost use Rattle.bookfiles.specs.Unopened as failed;

use sqlite_disk::Disk;

/// If the files hold what a crash could leave of a book, and a book is taken from them, that is a crash
/// of the law over lists of events (`runs`). What is found is one of the contents that the book allowed
/// for. If it is then opened under a policy, that is an opening of the law, and if it is refused one that
/// was refused or gave up. An opening that reads a database and doesn't take it up goes unnoticed. Of files
/// in which no table was ever made it is a book of the law with nothing in it.
pub fn stops_are_crashes<D: Disk>()
    ensures stops { spec.StopsAreCrashes D.Disk }
    ensures restarts { spec.RestartsAreEvents D.Disk }
    ensures fresh { spec.NewFilesAreBooks }
    ensures refusals { failed.RefusalsAreEvents D.Disk }
    ensures failures { failed.FailuresGoUnnoticed D.Disk }
{}
