// The entries of the crates `state` and `compare`. Each returns the refusal's number, 0 where there is none. Marks go in a record of 176 bytes (crate
// `marks_record`); a record that is none is refused by 2, after 1 of what is lent beside it.
ghost use Rattle.std.specs.Prelude.{◌≡◌, length};
ghost use Rattle.answers.specs.Answer.{unless_short, answer_number, answer_bytes};
ghost use Rattle.marks_answers.specs.StateAnswer.{lent_equality_numbers, lent_comparison_numbers, lent_report};

use marks_answers::state_answer;

// Entry. Whether two states are equal, each lent as a book, marks, orders and positions: 1 if so, else 0; then 0.
#[unsafe(no_mangle)]
pub extern "C" fn desk_states_equal(
    book_a: &[u8],
    marks_a: &[u8],
    orders_a: &[u8],
    positions_a: &[u8],
    book_b: &[u8],
    marks_b: &[u8],
    orders_b: &[u8],
    positions_b: &[u8],
    answer: &mut [u8],
) -> u32
    ensures value { result ≡ answer_number (lent_equality_numbers book_a.now marks_a.now orders_a.now positions_a.now book_b.now marks_b.now orders_b.now positions_b.now).0 (length answer.old) }
    ensures answer_after { answer.new ≡ answer_bytes (lent_equality_numbers book_a.now marks_a.now orders_a.now positions_a.now book_b.now marks_b.now orders_b.now positions_b.now).1 (lent_equality_numbers book_a.now marks_a.now orders_a.now positions_a.now book_b.now marks_b.now orders_b.now positions_b.now).2 (length answer.old) }
{
    let n = state_answer::lent_equality(
        book_a,
        marks_a,
        orders_a,
        positions_a,
        book_b,
        marks_b,
        orders_b,
        positions_b,
    );
    answers::give(n, answer)
}

// Entry. The discrepancies between the sheet and lent marks, orders and positions, as records of 48 bytes in `report`: how many, then 1 if that is
// critical.
#[unsafe(no_mangle)]
pub extern "C" fn desk_compare_broker_state(
    marks: &[u8],
    orders: &[u8],
    positions: &[u8],
    sheet: &[u8],
    report: &mut [u8],
    answer: &mut [u8],
) -> u32
    ensures value { result ≡ answer_number (lent_comparison_numbers marks.now orders.now positions.now sheet.now (length report.old)).0 (length answer.old) }
    ensures report_after { report.new ≡ unless_short 16 (length answer.old) (length report.old) (lent_report marks.now orders.now positions.now sheet.now (length report.old)) }
    ensures answer_after { answer.new ≡ answer_bytes (lent_comparison_numbers marks.now orders.now positions.now sheet.now (length report.old)).1 (lent_comparison_numbers marks.now orders.now positions.now sheet.now (length report.old)).2 (length answer.old) }
{
    let n = state_answer::lent_comparison(marks, orders, positions, sheet, report);
    answers::give_beside(n, report, answer)
}
