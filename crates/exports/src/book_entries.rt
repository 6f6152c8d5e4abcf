// The entries of the crates `book`, `sheet` and `audit`. Each returns the refusal's number, 0 where there is none. An answer is two u64 in the first
// sixteen bytes of `answer`, little-endian; all other bytes are zero.
ghost use Rattle.std.specs.Prelude.{◌≡◌, length};
ghost use Rattle.book.specs.Layout.{book_layout};
ghost use Rattle.sheet.specs.Sheet.{sheet_layout};
ghost use Rattle.audit.specs.Verdict.{book_verdict, verdict_numbers};
ghost use Rattle.sequence.specs.Sequence.{book_highest, highest_numbers, book_window, window_numbers};
ghost use Rattle.answers.specs.Answer.{answer_number, answer_bytes};
ghost use Rattle.wire.specs.Layout.{refused};

// Entry. Refusals 1 and 2 of a book.
#[unsafe(no_mangle)]
pub extern "C" fn desk_check_book(book: &[u8]) -> u32
    ensures { result ≡ refused (book_layout book.now) }
{
    answers::refused(book::layout::check(book))
}

// Entry. Refusals 1 and 2 of a sheet.
#[unsafe(no_mangle)]
pub extern "C" fn desk_check_sheet(sheet: &[u8]) -> u32
    ensures { result ≡ refused (sheet_layout sheet.now) }
{
    answers::refused(sheet::check(sheet))
}

// Entry. The verdict on a book's checkpoints: the event, counted from 1, for 4 and 5, and the checkpoint's number for 6 and 7.
#[unsafe(no_mangle)]
pub extern "C" fn desk_validate_checkpoints(book: &[u8], answer: &mut [u8]) -> u32
    ensures value { result ≡ answer_number (verdict_numbers (book_verdict book.now)).0 (length answer.old) }
    ensures answer_after { answer.new ≡ answer_bytes (verdict_numbers (book_verdict book.now)).1 (verdict_numbers (book_verdict book.now)).2 (length answer.old) }
{
    let verdict = log_answers::verdict_numbers(audit::validate::validate_checkpoints_from_parsed(
        book,
    ));
    answers::give(verdict, answer)
}

// Entry. The highest checkpoint number, then 0.
#[unsafe(no_mangle)]
pub extern "C" fn desk_max_checkpoint_sequence(book: &[u8], answer: &mut [u8]) -> u32
    ensures value { result ≡ answer_number (highest_numbers (book_highest book.now)).0 (length answer.old) }
    ensures answer_after { answer.new ≡ answer_bytes (highest_numbers (book_highest book.now)).1 0 (length answer.old) }
{
    let highest = log_answers::highest_numbers(sequence::max_checkpoint_sequence(book));
    answers::give(highest, answer)
}

// Entry. 1 and the number by which the window is already complete, or two zeros.
#[unsafe(no_mangle)]
pub extern "C" fn desk_check_window_already_complete(
    book: &[u8],
    window: &[u8],
    answer: &mut [u8],
) -> u32
    ensures value { result ≡ answer_number (window_numbers (book_window window.now book.now)).0 (length answer.old) }
    ensures answer_after { answer.new ≡ answer_bytes (window_numbers (book_window window.now book.now)).1 (window_numbers (book_window window.now book.now)).2 (length answer.old) }
{
    let complete = log_answers::window_numbers(sequence::check_window_already_complete(
        book, window,
    ));
    answers::give(complete, answer)
}
