// Replays the recorded answers of the Rust: reads `cases.bin` from the folder it is run in, asks the library each case's questions, and compares
// the answers byte for byte with the recorded ones. FORMAT.md has the list's layout.
//
// It prints a line for each answer that differs, by the case's number, from 0, and the section's, then how many answers of each sort were compared.
#![tactic(auto)]

mod actions;
mod addenda;
mod joins;
mod logs;
mod recover;

use recorded::case::Case;
use recorded::tally::Tally;
use recorded::{conversions, drifts};
use std::io;
use std::io::Read;

// A case of a kind. One of no kind that is known differs in its section 0. The number is looked at here alone, so it is matched as it stands in the list.
fn by_kind<R: Print>(kind: u32, case: &mut Case<'_, R>) -> io::Result<()> {
    match kind {
        1 => logs::replay(case),
        2 => drifts::replay(case),
        3 => conversions::replay(case),
        4 => actions::replay(case),
        5 => joins::replay(case),
        _ => case.differs(0),
    }
}

// Reads a body of so many bytes and replays it; false where the list has it not whole, or it is above 65,536 bytes. A function of its own: where the buffer stands
// after an early return it is made zero twice.
fn read_body<R: Print>(
    rt: &R,
    file: &mut impl Read,
    tally: &mut Tally,
    kind: u32,
    len: usize,
) -> io::Result<bool> {
    let mut bytes = [0; 65536];
    let n = bytes.len().min(len);
    let body = &mut bytes[..n];
    if cases::read_full(file, body)? != len {
        return Ok(false);
    }
    by_kind(kind, &mut Case::new(rt, tally, body))?;
    Ok(true)
}

// Reads a case and replays it.
fn read_case<R: Print>(rt: &R, file: &mut impl Read, tally: &mut Tally) -> io::Result<bool> {
    let Some(head) = cases::next::<8, _>(file)? else {
        return Ok(false);
    };
    let len = wire::u32_at(&head, 4) as usize;
    read_body(rt, file, tally, wire::u32_of(&head), len)
}

// Replays a whole list of format 1; false where it is none, breaks off, or has bytes after its last case.
fn read_list(rt: &impl Print, file: &mut impl Read, tally: &mut Tally) -> io::Result<bool> {
    let Some(head) = cases::next::<8, _>(file)? else {
        return Ok(false);
    };
    if wire::u32_of(&head) != 1 {
        return Ok(false);
    }
    for _ in 0..wire::u32_at(&head, 4) {
        if !read_case(rt, file, tally)? {
            return Ok(false);
        }
    }
    Ok(cases::next::<1, _>(file)?.is_none())
}

fn main(rt: HostRuntime) -> io::Result<()> {
    let mut file = cases::open(&rt)?;
    let mut tally = Tally::new();
    if !read_list(&rt, &mut file, &mut tally)? {
        println!(rt; "no whole list")?;
    }
    tally.print(&rt)
}
