// The desk's reply to a book and a sheet, as document 01 prints it.
//
// `specs/Result.antt` has the desk's result as a value, made of the definitions that validation, recovery and comparison promise; `specs/Text.antt` the
// text of that value; `specs/Reply.antt` the reply.
#![tactic(auto)]

mod text;

ghost use Rattle.std.specs.Prelude.{◌≡◌, ◌≤◌, pos, length, replicate};
ghost use Rattle.book.specs.Layout.{book_layout};
ghost use Rattle.sheet.specs.Sheet.{sheet_layout};
ghost use Rattle.reply.specs.Result.{file_layout, files_layout, compared_result, book_result};
ghost use Rattle.reply.specs.Text.{result_text};
ghost use Rattle.reply.specs.Reply.{reply_text, replied, reply_out};
ghost use Rattle.reply.specs.Lent.{result_in, Writes, PutsBy};

use audit::validate::Fault;
use book::sound_book::SoundBook;
use recovery::recover::Recovered;
use sheet::SoundSheet;
use wire::refusal::Refusal;

// What the desk tells of a book and a sheet: the verdict, the recovery, and how many records the report has, which is in lent bytes.
#[derive(Clone, Copy)]
struct Reported {
    verdict: Result<(), Fault>,
    recovered: Recovered,
    count: usize,
}

// Refusals 1 and 2 of the book's file and of the sheet's; the book's before the sheet's. Two functions of one `if`: one that takes the test as a closure would
// need the closure's own clauses in its contract.
fn book_layout(book: &[u8]) -> Result<(), Refusal>
    ensures { result ≡ file_layout book.now (book_layout book.now) }
{
    if 65536 < book.len() {
        return Err(Refusal::Oversize);
    }
    book::layout::check(book)
}

fn sheet_layout(sheet: &[u8]) -> Result<(), Refusal>
    ensures { result ≡ file_layout sheet.now (sheet_layout sheet.now) }
{
    if 65536 < sheet.len() {
        return Err(Refusal::Oversize);
    }
    sheet::check(sheet)
}

fn files_layout(book: &[u8], sheet: &[u8]) -> Result<(), Refusal>
    ensures { result ≡ files_layout book.now sheet.now }
{
    book_layout(book)?;
    sheet_layout(sheet)
}

// The result of a verdict and a recovery, by the recovered orders and positions and a sound sheet.
fn compared_result(
    verdict: Result<(), Fault>,
    recovered: Recovered,
    orders: &[u8],
    positions: &[u8],
    sheet: SoundSheet,
    report: &mut [u8],
) -> Result<Reported, Refusal>
    ensures { result_in result report.new ≡ compared_result (length report.old) verdict recovered orders.now positions.now sheet.entry.bytes.now }
{
    let c = compare::compare_sound_sheet(recovered.marks, orders, positions, sheet, report)?;
    Ok(Reported {
        verdict,
        recovered,
        count: c.count,
    })
}

// The result of a sound book and a sound sheet, by three buffers of one length; those of the orders and the positions are zero.
fn book_result(
    book: SoundBook,
    sheet: SoundSheet,
    orders: &mut [u8],
    positions: &mut [u8],
    report: &mut [u8],
) -> Result<Reported, Refusal>
    requires no_orders { orders.old ≡ replicate (length report.old) 0 }
    requires no_positions { positions.old ≡ replicate (length report.old) 0 }
    ensures { result_in result report.new ≡ book_result (length report.old) (pos 0) book.entry.bytes.now sheet.entry.bytes.now }
{
    let r = recovery::recover::recover(book, 0, orders, positions)?;
    let verdict = audit::validate::validate_sound(book);
    let orders = wire::part(orders, 0, 64 * (r.orders as usize));
    let positions = wire::part(positions, 0, 32 * (r.positions as usize));
    compared_result(verdict, r, orders, positions, sheet, report)
}

// The text of the result of a sound book and a sound sheet, by buffers of N bytes; or the refusal of these buffers, and no text.
fn put_by<const N: usize>(
    d: &mut [u8],
    book: SoundBook,
    sheet: SoundSheet,
) -> Result<usize, Refusal>
    requires { N ≤ 65536 }
    ensures { PutsBy N result book.entry.bytes.now sheet.entry.bytes.now d.old d.new }
{
    let mut orders = [0u8; N];
    let mut positions = [0u8; N];
    let mut report = [0u8; N];
    let x = book_result(book, sheet, &mut orders, &mut positions, &mut report)?;
    Ok(text::put_told(d, x.verdict, x.recovered, &report, x.count))
}

// The text by buffers of 65,536 bytes: where they do not suffice, it is a refusal's.
fn put_long(d: &mut [u8], book: SoundBook, sheet: SoundSheet) -> usize
    ensures { Writes result (result_text (book_result 65536 (pos 0) book.entry.bytes.now sheet.entry.bytes.now)) d.old d.new }
{
    match put_by::<65536>(d, book, sheet) {
        Ok(n) => n,
        Err(refusal) => text::put_refused(d, refusal),
    }
}

// The same by short buffers, or by long ones where those do not suffice: a short reply takes a short frame. Files of more than 16,384 bytes go by long ones
// at once, so that little is worked out twice.
fn put_book(d: &mut [u8], book: SoundBook, sheet: SoundSheet) -> usize
    ensures { Writes result (result_text (book_result 65536 (pos 0) book.entry.bytes.now sheet.entry.bytes.now)) d.old d.new }
{
    if 16384 < book.bytes.len() + sheet.bytes.len() {
        return put_long(d, book, sheet);
    }
    match put_by::<2048>(d, book, sheet) {
        Ok(n) => n,
        Err(_) => put_long(d, book, sheet),
    }
}

// The whole reply.
fn put_reply(d: &mut [u8], book: &[u8], sheet: &[u8]) -> usize
    ensures { Writes result (reply_text book.now sheet.now) d.old d.new }
{
    match files_layout(book, sheet) {
        Ok(()) => put_book(d, SoundBook { bytes: book }, SoundSheet { bytes: sheet }),
        Err(refusal) => text::put_refused(d, refusal),
    }
}

// Entry. The reply to a book and a sheet as text at the start of `out`, and zeros after it. Refusal 3 where `out` cannot take the text.
pub fn reply(book: &[u8], sheet: &[u8], out: &mut [u8]) -> Result<usize, Refusal>
    ensures { (result ≡ replied (reply_text book.now sheet.now) (length out.old)) × (out.new ≡ reply_out (reply_text book.now sheet.now) (length out.old)) }
{
    wire::clear(out);
    let n = put_reply(out, book, sheet);
    if out.len() < n {
        wire::clear(out);
        return Err(Refusal::NoRoom);
    }
    Ok(n)
}
