// The answers about a log: the numbers of what `audit`, `sequence` and `reply` answer.
#![tactic(auto)]

ghost use Rattle.std.specs.Prelude.{◌≡◌};
ghost use Rattle.audit.specs.Verdict.{verdict_numbers};
ghost use Rattle.sequence.specs.Sequence.{highest_numbers, window_numbers};
ghost use Rattle.reply.specs.Reply.{replied_numbers};
ghost use Rattle.answers.specs.Answer.{numbers, number_alone};

use answers::Numbers;
use audit::validate::Fault;
use wire::refusal::Refusal;

pub fn verdict_numbers(v: Result<(), Fault>) -> Numbers
    ensures { result ≡ numbers (verdict_numbers v) }
{
    let n = audit::validate::verdict_numbers(v);
    Numbers {
        refusal: n.0,
        a: u64::from(n.1),
        b: u64::from(n.2),
    }
}

// Two arms, as each answer's numbers: `answers::Numbers` says why.
pub fn highest_numbers(h: Result<u64, Refusal>) -> Numbers
    ensures { result ≡ numbers (number_alone (highest_numbers h)) }
{
    match h {
        Ok(n) => Numbers {
            refusal: 0,
            a: n,
            b: 0,
        },
        Err(refusal) => refusal.into(),
    }
}

// Two arms, as each answer's numbers: `answers::Numbers` says why.
pub fn window_numbers(w: Result<Option<u64>, Refusal>) -> Numbers
    ensures { result ≡ numbers (window_numbers w) }
{
    match w {
        Ok(Some(n)) => Numbers {
            refusal: 0,
            a: 1,
            b: n,
        },
        Ok(None) => Numbers {
            refusal: 0,
            a: 0,
            b: 0,
        },
        Err(refusal) => refusal.into(),
    }
}

// Two arms, as each answer's numbers: `answers::Numbers` says why.
pub fn reply_numbers(r: Result<usize, Refusal>) -> Numbers
    ensures { result ≡ numbers (number_alone (replied_numbers r)) }
{
    match r {
        Ok(n) => Numbers {
            refusal: 0,
            a: n as u64,
            b: 0,
        },
        Err(refusal) => refusal.into(),
    }
}
