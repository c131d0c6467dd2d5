//! What the definition of answers comes to.
ghost use Rattle.rdap.specs.Answering.{AnswersAgree};

/// Two answers to one head, by the same policy and the same faces, are the same bytes. So nothing
/// that a face doesn't show can be in one: no contact's mail, and no secret.
pub fn answers_agree()
    ensures { AnswersAgree }
{}
