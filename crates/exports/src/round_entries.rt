// The entries of the crates `join`, `intents` and `rounds`. Each returns the refusal's number, 0 where there is none. Marks go in a record of 176 bytes (crate
// `marks_record`); a record that is none is refused by 2, after 1 of the sheet.
ghost use Rattle.std.specs.Prelude.{◌≡◌, length};
ghost use Rattle.join.specs.Join.{joining, join_out};
ghost use Rattle.intents.specs.Intents.{reconciling_number};
ghost use Rattle.rounds.specs.Rounds.{round_with, round_of, round_orders_out, round_positions_out, round_addendum_out, round_log_out};
ghost use Rattle.answers.specs.Answer.{room_number, unless_short, answer_number, answer_bytes};
ghost use Rattle.marks_answers.specs.IntentsAnswer.{reconciling_bytes, lent_reconciling, lent_addendum_out};
ghost use Rattle.round_answers.specs.RoundAnswer.{joining_numbers, rounded_numbers};

use marks_answers::intents_answer;

// Entry. The first `k` events of book `b` joined to book `a`, as a book in `out`: its length, then 0.
#[unsafe(no_mangle)]
pub extern "C" fn desk_join(a: &[u8], b: &[u8], k: u64, out: &mut [u8], answer: &mut [u8]) -> u32
    ensures value { result ≡ answer_number (joining_numbers (joining a.now b.now k (length out.old))).0 (length answer.old) }
    ensures out_after { out.new ≡ unless_short 16 (length answer.old) (length out.old) (join_out a.now b.now k (length out.old)) }
    ensures answer_after { answer.new ≡ answer_bytes (joining_numbers (joining a.now b.now k (length out.old))).1 0 (length answer.old) }
{
    let n = round_answers::joining_numbers(join::join(a, b, k, out));
    answers::give_beside(n, out, answer)
}

// Entry. The addendum book of the open intents that the queries reached, in `addendum`; in `answer` as u64 its entries, the intents not reached, and
// its length in bytes.
#[unsafe(no_mangle)]
pub extern "C" fn desk_reconcile_incomplete_intents(
    marks: &[u8],
    orders: &[u8],
    sheet: &[u8],
    queries: &[u8],
    time: i64,
    addendum: &mut [u8],
    answer: &mut [u8],
) -> u32
    ensures value { result ≡ room_number 24 (reconciling_number (lent_reconciling marks.now orders.now sheet.now queries.now time (length addendum.old))) (length answer.old) }
    ensures addendum_after { addendum.new ≡ unless_short 24 (length answer.old) (length addendum.old) (lent_addendum_out marks.now orders.now sheet.now queries.now time (length addendum.old)) }
    ensures answer_after { answer.new ≡ unless_short 24 (length answer.old) (length answer.old) (reconciling_bytes (lent_reconciling marks.now orders.now sheet.now queries.now time (length addendum.old)) (length answer.old)) }
{
    let r = intents_answer::lent_reconciling(marks, orders, sheet, queries, time, addendum);
    let room = answer.len();
    answers::clear_if_short(addendum, 24, room);
    intents_answer::give_reconciling(r, answer)
}

// Entry. A round on a log: recovery at the time `at`, reconciling with entries of the time `time`, and the join of the first `k` entries. In `orders`
// and `positions` what recovery gave, in `addendum` the addendum, in `joined` the next log: its length, then 0.
#[unsafe(no_mangle)]
pub extern "C" fn desk_round(
    log: &[u8],
    sheet: &[u8],
    queries: &[u8],
    at: i64,
    time: i64,
    k: u64,
    orders: &mut [u8],
    positions: &mut [u8],
    addendum: &mut [u8],
    joined: &mut [u8],
    answer: &mut [u8],
) -> u32
    ensures value { result ≡ answer_number (rounded_numbers (round_of (round_with sheet.now queries.now at time k (length orders.old) (length positions.old) (length addendum.old) (length joined.old)) log.now).answer).0 (length answer.old) }
    ensures orders_after { orders.new ≡ unless_short 16 (length answer.old) (length orders.old) (round_orders_out (round_with sheet.now queries.now at time k (length orders.old) (length positions.old) (length addendum.old) (length joined.old)) log.now) }
    ensures positions_after { positions.new ≡ unless_short 16 (length answer.old) (length positions.old) (round_positions_out (round_with sheet.now queries.now at time k (length orders.old) (length positions.old) (length addendum.old) (length joined.old)) log.now) }
    ensures addendum_after { addendum.new ≡ unless_short 16 (length answer.old) (length addendum.old) (round_addendum_out (round_with sheet.now queries.now at time k (length orders.old) (length positions.old) (length addendum.old) (length joined.old)) log.now) }
    ensures joined_after { joined.new ≡ unless_short 16 (length answer.old) (length joined.old) (round_log_out (round_with sheet.now queries.now at time k (length orders.old) (length positions.old) (length addendum.old) (length joined.old)) log.now) }
    ensures answer_after { answer.new ≡ answer_bytes (rounded_numbers (round_of (round_with sheet.now queries.now at time k (length orders.old) (length positions.old) (length addendum.old) (length joined.old)) log.now).answer).1 0 (length answer.old) }
{
    let r = rounds::round(
        log, sheet, queries, at, time, k, orders, positions, addendum, joined,
    );
    let n = round_answers::rounded_numbers(r);
    let room = answer.len();
    answers::clear_both_if_short(orders, positions, 16, room);
    answers::clear_if_short(addendum, 16, room);
    answers::give_beside(n, joined, answer)
}
