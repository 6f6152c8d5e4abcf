// The entries of the crates `drift` and `held`. Each returns the refusal's number, 0 where there is none. An answer is two u64 in the first sixteen bytes of
// `answer`, little-endian; all other bytes are zero.
ghost use Rattle.std.specs.Prelude.{◌≡◌, length};
ghost use Rattle.drift.specs.Report.{drift_of, drift_bytes};
ghost use Rattle.held.specs.Value.{held_of};
ghost use Rattle.answers.specs.Answer.{unless_short, answer_number, answer_bytes};
ghost use Rattle.drift_answers.specs.DriftAnswer.{drift_numbers, held_numbers};

// Entry. The drift of what is held against targets and prices, at an equity in cents, as entries of 64 bytes in `entries`: how many, then the bits of
// the tracking error.
#[unsafe(no_mangle)]
pub extern "C" fn desk_reconcile(
    positions: &[u8],
    targets: &[u8],
    prices: &[u8],
    equity: i64,
    entries: &mut [u8],
    answer: &mut [u8],
) -> u32
    ensures value { result ≡ answer_number (drift_numbers (drift_of positions.now targets.now prices.now equity (length entries.old))).0 (length answer.old) }
    ensures entries_after { entries.new ≡ unless_short 16 (length answer.old) (length entries.old) (drift_bytes positions.now targets.now prices.now equity (length entries.old)) }
    ensures answer_after { answer.new ≡ answer_bytes (drift_numbers (drift_of positions.now targets.now prices.now equity (length entries.old))).1 (drift_numbers (drift_of positions.now targets.now prices.now equity (length entries.old))).2 (length answer.old) }
{
    let n = drift_answers::drift_numbers(drift::report::reconcile(
        positions, targets, prices, equity, entries,
    ));
    answers::give_beside(n, entries, answer)
}

// Entry. The value of what is held at the prices, an i64 as 64 bits, then 0.
#[unsafe(no_mangle)]
pub extern "C" fn desk_held_value(positions: &[u8], prices: &[u8], answer: &mut [u8]) -> u32
    ensures value { result ≡ answer_number (held_numbers (held_of positions.now prices.now)).0 (length answer.old) }
    ensures answer_after { answer.new ≡ answer_bytes (held_numbers (held_of positions.now prices.now)).1 (held_numbers (held_of positions.now prices.now)).2 (length answer.old) }
{
    let n = drift_answers::held_numbers(held::held_value(positions, prices));
    answers::give(n, answer)
}
