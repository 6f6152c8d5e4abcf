// Joins, replies and addenda at sizes that the recorded list cannot hold: the limits of a joined book and of an addendum, and the desk's 65,536 bytes of a file
// and of a report. For each a line: what it is, and the refusal's number, or of a reply its length and its first bytes.
//
// It reads `cases.bin`, written by `make`, from the folder it is run in. A case has 568 bytes: twelve u64, which are its kind, its label's length, the lengths of
// two inputs, k, a place and a count of records, the place of a text, how many first bytes there are, the room of the joined book or the addendum, the last
// number of the marks and the count of queries, all answered; at 96 the label, at 160 the second input's first 48 bytes, at 208 a record, at 272 the text, at
// 304 the first input's first bytes. The first input has so many of the record from that place on, and zeros elsewhere; the second has zeros after its
// first bytes.
#![tactic(auto)]

use marks_answers::intents_answer;
use std::io;

// The join of two books.
// Nothing is allocated: a fixed buffer, and what of it counts.
fn tell_join(rt: &impl Print, case: &[u8], a: &[u8], b: &[u8]) -> io::Result<()> {
    let mut out = cases::zeros();
    let room = out.len().min(wire::u32_at(case, 72) as usize);
    let k = wire::u64_at(case, 32);
    let joined = join::join(a, b, k, &mut out[..room]);
    println!(rt; "{}", cases::refusal(joined))
}

// The desk's reply to a book and a sheet: its length and its first bytes.
fn tell_reply(rt: &impl Print, book: &[u8], sheet: &[u8]) -> io::Result<()> {
    let mut out = [0; 4096];
    let Ok(n) = reply::reply(book, sheet, &mut out) else {
        return Ok(());
    };
    print!(rt; "{n} ")?;
    rt.write_all(wire::part(&out, 0, 9))?;
    println!(rt)
}

// Marks that begin and have a case's last number.
fn marks(case: &[u8]) -> [u8; 176] {
    let mut marks = [0; 176];
    marks[0] = 1;
    wire::copy(&mut marks, 8, wire::part(case, 80, 8));
    marks
}

// Reconciling of orders with a sheet, every query answered.
// Nothing is allocated: a fixed buffer, and what of it counts.
fn tell_reconciled(rt: &impl Print, case: &[u8], orders: &[u8], sheet: &[u8]) -> io::Result<()> {
    let answered = cases::zeros();
    let queries = wire::part(&answered, 0, wire::u64_at(case, 88) as usize);
    let mut addendum = cases::zeros();
    let room = addendum.len().min(wire::u32_at(case, 72) as usize);
    let reconciled = intents_answer::lent_reconciling(
        &marks(case),
        orders,
        sheet,
        queries,
        0,
        &mut addendum[..room],
    );
    println!(rt; "{}", cases::refusal(reconciled))
}

// A case of a kind, on its two inputs. The number is looked at here alone, so it is matched as it stands in the file.
fn tell_answer(rt: &impl Print, case: &[u8], a: &[u8], b: &[u8]) -> io::Result<()> {
    match wire::u64_of(case) {
        1 => tell_join(rt, case, a, b),
        2 => tell_reply(rt, a, b),
        3 => tell_reconciled(rt, case, a, b),
        _ => println!(rt; "a case of no kind"),
    }
}

// Writes a record of 64 bytes into each of `n` places from `at` on. `sheet_cases` has such a loop of symbols: one line each.
fn put_records(d: &mut [u8], at: u32, n: u32, record: &[u8]) {
    for k in 0..n {
        wire::copy(d, at as usize + 64 * k as usize, record);
    }
}

// Writes the first input: the text, the records, the first bytes.
fn put_first(d: &mut [u8], case: &[u8]) {
    wire::copy(
        d,
        wire::u32_at(case, 56) as usize,
        wire::part(case, 272, 32),
    );
    put_records(
        d,
        wire::u32_at(case, 40),
        wire::u32_at(case, 48),
        wire::part(case, 208, 64),
    );
    wire::copy(d, 0, wire::part(case, 304, wire::u64_at(case, 64) as usize));
}

// Nothing is allocated: a fixed buffer, and what of it counts.
fn tell(rt: &impl Print, case: &[u8; 568]) -> io::Result<()> {
    let mut a = cases::zeros();
    let mut b = cases::zeros();
    put_first(&mut a, case);
    wire::copy(&mut b, 0, wire::part(case, 160, 48));
    cases::tell_label(rt, wire::part(case, 96, wire::u64_at(case, 8) as usize))?;
    tell_answer(
        rt,
        case,
        wire::part(&a, 0, wire::u64_at(case, 16) as usize),
        wire::part(&b, 0, wire::u64_at(case, 24) as usize),
    )
}

// As in each program of cases: a function over a closure with `?` would be no shorter.
fn main(rt: HostRuntime) -> io::Result<()> {
    for case in cases::all(cases::open(&rt)?) {
        tell(&rt, &case?)?;
    }
    Ok(())
}
