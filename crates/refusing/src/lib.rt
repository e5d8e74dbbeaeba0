// One test as an answer: refused for a reason, at no place, where it applies. `?` and `Result::and` put tests in order.
#![tactic(auto)]

ghost use Rattle.std.specs.Prelude.{◌≡◌};
ghost use Rattle.verdict.specs.Answer.{answer_of, reason_number, test};

use verdict::{Place, Reason, Refusal, Verdict};

pub fn test(reason: Reason, applies: bool) -> Verdict
    ensures { answer_of result ≡ test (reason_number reason) applies }
{
    if applies {
        return Err(Refusal {
            reason,
            place: Place::Nowhere,
        });
    }
    Ok(())
}
