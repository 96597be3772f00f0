//! The responses to page request groups (Page Request Group Response: PCI Express Base 5.0, section 10.4.2).

ghost use Rattle.std.specs.Prelude.{◌≡◌, true, option_map};
ghost use Rattle.sva_model.specs.Outcomes.{code_answer};
ghost use Rattle.sva_model.specs.Replies.{code_of_verdict};
ghost use Rattle.sva_labels.specs.Replying.{response_by};
ghost use Rattle.sva_parts_by_labels.specs.Bindings.{stage_or_quiet};
ghost use Rattle.sva_parts_by_labels.specs.Flights.{code_seen};

use sva_msg::Code;
use sva_pasid::Stage;
use sva_step::{Answer, Verdict};

/// The response that a job gets, and the binding under which it was filed.
#[derive(Clone, Copy)]
pub struct Response {
    /// The number of the binding's space.
    pub space: u64,
    /// Its PASID: 1 to 32.
    pub pasid: u32,
    /// The response code.
    pub code: Code,
}

/// The code by which a verdict is answered.
fn code_of(verdict: Verdict) -> Code
    ensures { code_seen result ≡ code_of_verdict verdict }
{
    match verdict {
        Verdict::Success => Code::Success,
        Verdict::Invalid => Code::InvalidRequest,
        Verdict::Failure => Code::ResponseFailure,
    }
}

/// The code by which a job is answered whose binding is at this stage, at an open unit: what a worker decides counts while the
/// binding is in use. None where the binding is cut off or quiet.
pub fn code_by(stage: &Option<Stage>, verdict: Verdict) -> Option<Code>
    ensures { option_map code_seen result ≡ response_by true (stage_or_quiet stage.now) verdict }
{
    match stage {
        Some(Stage::Live(_)) => Some(code_of(verdict)),
        Some(Stage::Stopping(_)) => Some(Code::InvalidRequest),
        Some(Stage::Draining(_)) => Some(Code::InvalidRequest),
        Some(Stage::Invalidating(_)) => None,
        Some(Stage::Quiet(_)) => None,
        Some(Stage::Lost(_)) => None,
        None => None,
    }
}

/// What a host answers to whom it turns a job down by this code.
pub fn answer_of(code: Code) -> Answer
    ensures { result ≡ code_answer 0 (code_seen code) }
{
    match code {
        Code::Success => Answer::Success { pages: 0 },
        Code::InvalidRequest => Answer::Invalid,
        Code::ResponseFailure => Answer::Failure,
    }
}
