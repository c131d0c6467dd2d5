//! What a registrar learns over whole runs.
ghost use Rattle.isolation.specs.Laws as spec;

/// Two runs in which others gave their objects different secrets or data, or paid different sums, answer
/// a registrar alike, as long as it presents no right secret of such an object, and show it the same in
/// each look-up. That holds for a step, and for any number of them from one registry on. Afterwards too
/// everybody may look up the same in both.
pub fn alike_lists_tell_the_same()
    ensures calls { spec.CallsAreStepsOfTwo }
    ensures lists { spec.AlikeListsTellTheSame }
    ensures public { spec.AlikeListsShowTheSame }
{}
