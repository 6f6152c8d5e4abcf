// The numbers of what `join` and `rounds` answer.
#![tactic(auto)]

ghost use Rattle.std.specs.Prelude.{◌≡◌};
ghost use Rattle.answers.specs.Answer.{numbers, number_alone};
ghost use Rattle.round_answers.specs.RoundAnswer.{joining_numbers, rounded_numbers};

use answers::Numbers;
use wire::refusal::Refusal;

// Two arms, as each answer's numbers: `answers::Numbers` says why.
pub fn joining_numbers(j: Result<usize, Refusal>) -> Numbers
    ensures { result ≡ numbers (number_alone (joining_numbers j)) }
{
    match j {
        Ok(n) => Numbers {
            refusal: 0,
            a: n as u64,
            b: 0,
        },
        Err(refusal) => refusal.into(),
    }
}

// Two arms, as each answer's numbers: `answers::Numbers` says why.
pub fn rounded_numbers(r: Result<usize, Refusal>) -> Numbers
    ensures { result ≡ numbers (number_alone (rounded_numbers r)) }
{
    match r {
        Ok(n) => Numbers {
            refusal: 0,
            a: n as u64,
            b: 0,
        },
        Err(refusal) => refusal.into(),
    }
}
