// The entries of the crates `recovery`, `marks` (the action) and `reader`. Each returns the refusal's number, 0 where there is none. Marks go in a record of 176 bytes
// (crate `marks_record`); a record that is none is refused by 2.
ghost use Rattle.std.specs.Prelude.{◌≡◌, length};
ghost use Rattle.recovery.specs.Recover.{recovery, recovery_number, orders_out, positions_out};
ghost use Rattle.answers.specs.Answer.{room_number, unless_short, answer_number, answer_bytes};
ghost use Rattle.recovery_answers.specs.RecoveryAnswer.{recovery_bytes, lent_action_numbers, lent_step_numbers, record_after};

// Entry. Recovery of a book: the records in `orders` and `positions`; in `answer` the marks in 176 bytes, then as u64 how many orders, how many
// positions, and the action (0 Restart, 1 Resume, 2 ManualReview).
#[unsafe(no_mangle)]
pub extern "C" fn desk_reconstruct_state(
    book: &[u8],
    time: i64,
    orders: &mut [u8],
    positions: &mut [u8],
    answer: &mut [u8],
) -> u32
    ensures value { result ≡ room_number 200 (recovery_number (recovery book.now time (length orders.old) (length positions.old))) (length answer.old) }
    ensures orders_after { orders.new ≡ unless_short 200 (length answer.old) (length orders.old) (orders_out book.now time (length orders.old) (length positions.old)) }
    ensures positions_after { positions.new ≡ unless_short 200 (length answer.old) (length positions.old) (positions_out book.now time (length orders.old) (length positions.old)) }
    ensures answer_after { answer.new ≡ unless_short 200 (length answer.old) (length answer.old) (recovery_bytes (recovery book.now time (length orders.old) (length positions.old)) (length answer.old)) }
{
    let r = recovery::recover::reconstruct_state(book, time, orders, positions);
    let room = answer.len();
    answers::clear_both_if_short(orders, positions, 200, room);
    recovery_answers::give_recovery(r, answer)
}

// Entry. The action by lent marks and orders (0 Restart, 1 Resume, 2 ManualReview), then 0.
#[unsafe(no_mangle)]
pub extern "C" fn desk_recovery_action(marks: &[u8], orders: &[u8], answer: &mut [u8]) -> u32
    ensures value { result ≡ answer_number (lent_action_numbers marks.now orders.now).0 (length answer.old) }
    ensures answer_after { answer.new ≡ answer_bytes (lent_action_numbers marks.now orders.now).1 (lent_action_numbers marks.now orders.now).2 (length answer.old) }
{
    let n = recovery_answers::lent_action(marks, orders);
    answers::give(n, answer)
}

// Entry. One step: the record `marks` is altered by the book's event with the number `next`, counted from 0. In `answer` 1, or 0 where no event
// has that number, then 0. A refused step leaves `marks` as they were.
#[unsafe(no_mangle)]
pub extern "C" fn desk_step(book: &[u8], next: u32, marks: &mut [u8], answer: &mut [u8]) -> u32
    ensures value { result ≡ answer_number (lent_step_numbers book.now next marks.old).0 (length answer.old) }
    ensures marks_after { marks.new ≡ record_after book.now next (length answer.old) marks.old }
    ensures answer_after { answer.new ≡ answer_bytes (lent_step_numbers book.now next marks.old).1 (lent_step_numbers book.now next marks.old).2 (length answer.old) }
{
    let room = answer.len();
    let n = recovery_answers::lent_step(book, next, room, marks);
    answers::give(n, answer)
}
