//! The law of the bytes of answers.
ghost use Rattle.cs_calls_answers.specs.Laws.{AnswerBytes};

/// Has no effect. Its contract says that the bytes of an answer are read as this answer, so that no two answers have
/// the same bytes.
#[tactic(auto, using(crate::proofs::Answers::answer_bytes_again))]
pub fn answer_bytes_law()
    ensures { AnswerBytes }
{}
