// The numbers of what `drift` and `held` answer.
#![tactic(auto)]

ghost use Rattle.std.specs.Prelude.{◌≡◌};
ghost use Rattle.answers.specs.Answer.{numbers};
ghost use Rattle.drift_answers.specs.DriftAnswer.{drift_numbers, held_numbers};

use answers::Numbers;
use drift::report::Drifted;
use wire::refusal::Refusal;

// Two arms, as each answer's numbers: `answers::Numbers` says why.
pub fn drift_numbers(d: Result<Drifted, Refusal>) -> Numbers
    ensures { result ≡ numbers (drift_numbers d) }
{
    match d {
        Ok(drift) => Numbers {
            refusal: 0,
            a: u64::from(drift.count),
            b: float::bits::to_bits(drift.tracking_error_pct),
        },
        Err(refusal) => refusal.into(),
    }
}

// Two arms, as each answer's numbers: `answers::Numbers` says why.
pub fn held_numbers(h: Result<i64, Refusal>) -> Numbers
    ensures { result ≡ numbers (held_numbers h) }
{
    match h {
        Ok(v) => Numbers {
            refusal: 0,
            a: v.cast_unsigned(),
            b: 0,
        },
        Err(refusal) => refusal.into(),
    }
}
