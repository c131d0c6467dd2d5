//! What a crash leaves of a takeover.
ghost use Rattle.takeover.specs.Files as spec;

use sqlite_disk::Disk;

/// A registry in files is taken over into other files, in which nothing was made. Whatever the machine does, an
/// opening of the first finds what was found in them. An opening of the others finds nothing, or the whole
/// registry: the whole one, once the takeover answered so, and nothing, if it was refused.
pub fn takeovers_are_whole<D: Disk, E: Disk>()
    ensures from { spec.OldFilesStay D.Disk }
    ensures into { spec.NewFilesHoldAllOrNothing E.Disk }
{}
