// The answers of `state` and of `compare`.
ghost use Rattle.std.specs.Prelude.{◌≡◌, length};
ghost use Rattle.wire.specs.Layout.{both_of};
ghost use Rattle.book.specs.Layout.{book_layout};
ghost use Rattle.marks_record.specs.MarksRecord.{marks_of};
ghost use Rattle.compare.specs.Buffer.{unanswered_of};
ghost use Rattle.answers.specs.Answer.{numbers};
ghost use Rattle.marks_answers.specs.LentMarks.{marks_first};
ghost use Rattle.marks_answers.specs.StateAnswer.{equality_numbers, comparison_numbers, lent_equality_numbers, lent_comparison_numbers, lent_report};

use answers::Numbers;
use compare::{Compared, Unanswered};
use wire::refusal::Refusal;

// Two arms, as each answer's numbers: `answers::Numbers` says why.
fn equality_numbers(e: Result<bool, Refusal>) -> Numbers
    ensures { result ≡ numbers (equality_numbers e) }
{
    match e {
        Ok(b) => Numbers {
            refusal: 0,
            a: u64::from(b),
            b: 0,
        },
        Err(refusal) => refusal.into(),
    }
}

// The numbers where the marks of two states are no records.
fn broken_marks_of(book_a: &[u8], book_b: &[u8]) -> Numbers
    ensures { result ≡ numbers (marks_first (Err Refusal.Broken) (both_of (book_layout book_a.now) (book_layout book_b.now)) (0, 0, 0)) }
{
    let a = book::layout::check(book_a);
    let b = book::layout::check(book_b);
    crate::broken_marks(wire::refusal::both(a, b))
}

// Whether two states with lent marks are equal.
pub fn lent_equality(
    book_a: &[u8],
    marks_a: &[u8],
    orders_a: &[u8],
    positions_a: &[u8],
    book_b: &[u8],
    marks_b: &[u8],
    orders_b: &[u8],
    positions_b: &[u8],
) -> Numbers
    ensures { result ≡ numbers (lent_equality_numbers book_a.now marks_a.now orders_a.now positions_a.now book_b.now marks_b.now orders_b.now positions_b.now) }
{
    if !(crate::marks_ok(marks_a) && crate::marks_ok(marks_b)) {
        return broken_marks_of(book_a, book_b);
    }
    let a = marks_record::marks_of(marks_a);
    let b = marks_record::marks_of(marks_b);
    let e = state::states_equal(
        book_a,
        a,
        orders_a,
        positions_a,
        book_b,
        b,
        orders_b,
        positions_b,
    );
    equality_numbers(e)
}

// Two arms, as each answer's numbers: `answers::Numbers` says why.
fn comparison_numbers(c: Result<Compared, Refusal>) -> Numbers
    ensures { result ≡ numbers (comparison_numbers c) }
{
    match c {
        Ok(r) => Numbers {
            refusal: 0,
            a: r.count as u64,
            b: u64::from(r.critical),
        },
        Err(refusal) => refusal.into(),
    }
}

// What the comparison asks of lent marks.
fn open_queries(marks: &[u8]) -> Unanswered
    ensures { result ≡ unanswered_of (marks_of marks.now) }
{
    Unanswered {
        positions: marks_record::unanswered_at(marks, 34),
        quotes: marks_record::unanswered_at(marks, 36),
        account: marks_record::unanswered_at(marks, 38),
        cancel: marks_record::unanswered_at(marks, 40),
    }
}

// The comparison with lent marks into a report.
pub fn lent_comparison(
    marks: &[u8],
    orders: &[u8],
    positions: &[u8],
    sheet: &[u8],
    report: &mut [u8],
) -> Numbers
    ensures { (result ≡ numbers (lent_comparison_numbers marks.now orders.now positions.now sheet.now (length report.old))) × (report.new ≡ lent_report marks.now orders.now positions.now sheet.now (length report.old)) }
{
    if !crate::marks_ok(marks) {
        wire::clear(report);
        return crate::broken_marks(sheet::check(sheet));
    }
    let queries = open_queries(marks);
    comparison_numbers(compare::compare_unanswered(queries, orders, positions, sheet, report))
}
