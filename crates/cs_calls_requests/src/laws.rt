//! The law of the bytes of calls.
ghost use Rattle.cs_calls_requests.specs.Laws.{CallBytes};

/// Has no effect. Its contract says that the bytes of a call are read as this call, so that no two calls have the same
/// bytes.
#[tactic(auto, using(crate::proofs::Calls::call_bytes_again))]
pub fn call_bytes_law()
    ensures { CallBytes }
{}
