// Books walked by a reader: the marks at first are lent to one step per event, and at the end compared with those of `reconstruct_state` on the same book.
//
// For each book two lines. The first has its label, the steps taken, the refusal of the last step or of the caller's time, 0 for none, and whether the marks are
// recovery's, byte by byte of their records, or recovery's refusal. The second has the marks after the last step, the record's 22 words.
//
// It reads `books.bin`, written by `make`, from the folder it is run in. A book has 64 bytes before it: two u64, its label's length and its own, the caller's time,
// and at 24 the label.
#![tactic(auto)]

use marks::Marks;
use recovery::recover;
use recovery::recover::Recovered;
use std::io;
use std::io::Read;
use wire::refusal::Refusal;

// How far a walk came: the marks, the last step's answer, and the number of the reader's next event.
#[derive(Clone, Copy)]
struct Walked {
    marks: Marks,
    answer: Result<bool, Refusal>,
    next: u32,
}

// ---- the walk
// Steps from the first event on, until a step finds no event left or is refused, and `most` at the most.
fn walk(book: &[u8], first: Marks, most: u32) -> Walked {
    let mut walked = Walked {
        marks: first,
        answer: Ok(true),
        next: 0,
    };
    for _ in 0..most {
        let on = reader::step_on(book, walked.next, walked.marks);
        walked.marks = on.marks;
        walked.answer = on.answer;
        if on.answer != Ok(true) {
            break;
        }
        walked.next = on.next;
    }
    walked
}

// ---- what is told of it
fn tell_words(rt: &impl Print, record: &[u8]) -> io::Result<()> {
    print!(rt; "\n ")?;
    for word in record.chunks_exact(8) {
        print!(rt; " {}", wire::u64_of(word))?;
    }
    Ok(())
}

fn tell_marks(rt: &impl Print, walked: Marks, recovered: Marks) -> io::Result<()> {
    let mut a = [0u8; 176];
    let mut b = [0u8; 176];
    marks_record::put_marks(&mut a, walked);
    marks_record::put_marks(&mut b, recovered);
    let same = if a == b { "as" } else { "NOT as" };
    print!(rt; ", marks {same} recovered")?;
    tell_words(rt, &a)
}

fn recovery_of(book: &[u8], time: i64) -> Result<Recovered, Refusal> {
    let mut orders = [0u8; 4096];
    let mut positions = [0u8; 4096];
    recover::reconstruct_state(book, time, &mut orders, &mut positions)
}

fn tell_refused(rt: &impl Print, recovery: Result<Recovered, Refusal>) -> io::Result<()> {
    print!(rt; ", recovery refused {}", cases::refusal(recovery))
}

fn tell_walk(rt: &impl Print, w: Walked, recovery: Result<Recovered, Refusal>) -> io::Result<()> {
    print!(rt; ": steps {}, refusal {}", w.next, cases::refusal(w.answer))?;
    match recovery {
        Ok(r) => tell_marks(rt, w.marks, r.marks),
        Err(_) => tell_refused(rt, recovery),
    }
}

fn tell_book(rt: &impl Print, book: &[u8], time: i64) -> io::Result<()> {
    let recovery = recovery_of(book, time);
    match Marks::new(time) {
        Ok(first) => tell_walk(rt, walk(book, first, 5000), recovery)?,
        Err(r) => {
            print!(rt; ": no steps, refusal {}", u32::from(r))?;
            tell_refused(rt, recovery)?;
        }
    }
    println!(rt)
}

// ---- the file
// Reads the book after its head and tells of it. Nothing is allocated: a fixed buffer, and what of it counts.
fn read_book(rt: &impl Print, file: &mut impl Read, head: &[u8]) -> io::Result<()> {
    let mut room = [0u8; 65536];
    let n = (wire::u16_at(head, 8) as usize).min(room.len());
    cases::read_full(file, &mut room[..n])?;
    rt.write_all(wire::part(head, 24, wire::u64_of(head) as usize))?;
    tell_book(rt, &room[..n], wire::i64_at(head, 16))
}

fn read_books(rt: &impl Print, file: &mut impl Read, most: u32) -> io::Result<()> {
    for _ in 0..most {
        let Some(head) = cases::next::<64, _>(file)? else {
            break;
        };
        read_book(rt, file, &head)?;
    }
    Ok(())
}

fn main(rt: HostRuntime) -> io::Result<()> {
    let mut file = cases::open_file(&rt, "books.bin")?;
    read_books(&rt, &mut file, 1000)
}
