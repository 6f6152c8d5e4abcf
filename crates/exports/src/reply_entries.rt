// The entry of the crate `reply`. It returns the refusal's number, 0 where there is none. The answer is two u64 in the first sixteen bytes of `answer`,
// little-endian; all other bytes are zero.
ghost use Rattle.std.specs.Prelude.{◌≡◌, length};
ghost use Rattle.reply.specs.Reply.{reply_text, replied, reply_out, replied_numbers};
ghost use Rattle.answers.specs.Answer.{unless_short, answer_number, answer_bytes};

// Entry. The desk program's reply to a book and a sheet, as text in `text`: its length, then 0. A reply that says that an input is refused is a reply.
#[unsafe(no_mangle)]
pub extern "C" fn desk_reply(book: &[u8], sheet: &[u8], text: &mut [u8], answer: &mut [u8]) -> u32
    ensures value { result ≡ answer_number (replied_numbers (replied (reply_text book.now sheet.now) (length text.old))).0 (length answer.old) }
    ensures text_after { text.new ≡ unless_short 16 (length answer.old) (length text.old) (reply_out (reply_text book.now sheet.now) (length text.old)) }
    ensures answer_after { answer.new ≡ answer_bytes (replied_numbers (replied (reply_text book.now sheet.now) (length text.old))).1 0 (length answer.old) }
{
    let n = log_answers::reply_numbers(reply::reply(book, sheet, text));
    answers::give_beside(n, text, answer)
}
