// The refusals that the library's functions share, with their numbers; and how the tests of two inputs make one.
ghost use Rattle.std.specs.Prelude.{◌≡◌};
ghost use Rattle.wire.specs.Layout.{refusal_number, both_of, sound_if};

// Why a call gives no answer. A test of lent bytes gives `Oversize` or `Broken`, or `Ok(())` where they are sound.
#[derive(Clone, Copy, PartialEq, Eq)]
pub enum Refusal {
    // More bytes, events, rows or records than the table of limits allows.
    Oversize,
    // A layout that is broken.
    Broken,
    // An output that cannot take all of the answer.
    NoRoom,
    // No sequence number is left below the largest u64.
    NoNumbers,
    // An f64 that is not finite.
    NotFinite,
    // An f64 that is outside i64 after it was scaled and rounded.
    OutOfRange,
    // A target weight that is not finite or beyond ±1,000.
    BadWeight,
    // A product or a difference outside i64.
    Overflow,
    // More events than the log holds.
    TooMany,
}

impl From<Refusal> for u32 {
    ghost from_gives = { λ r n. n ≡ refusal_number r };

    fn from(r: Refusal) -> u32 {
        match r {
            Refusal::Oversize => 1,
            Refusal::Broken => 2,
            Refusal::NoRoom => 3,
            Refusal::NoNumbers => 8,
            Refusal::NotFinite => 9,
            Refusal::OutOfRange => 10,
            Refusal::BadWeight => 11,
            Refusal::Overflow => 12,
            Refusal::TooMany => 13,
        }
    }
}

// The answer for two inputs together: `Oversize` is tested on all inputs before `Broken` on any. A `?` would hand on the first refusal, which need not be the
// answer.
pub fn both(a: Result<(), Refusal>, b: Result<(), Refusal>) -> Result<(), Refusal>
    ensures { result ≡ both_of a b }
{
    match a {
        Ok(()) => b,
        Err(Refusal::Oversize) => Err(Refusal::Oversize),
        Err(refusal) => match b {
            Err(Refusal::Oversize) => Err(Refusal::Oversize),
            _ => Err(refusal),
        },
    }
}

// Sound where a test passed, else `Broken`.
pub fn sound_if(passed: bool) -> Result<(), Refusal>
    ensures { result ≡ sound_if passed }
{
    if passed { Ok(()) } else { Err(Refusal::Broken) }
}
