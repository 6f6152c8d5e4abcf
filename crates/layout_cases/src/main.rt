// Books around each boundary of the layout, with the refusal of each: 0 none, 1 oversize, 2 broken.
//
// It reads `cases.bin`, written by `make`, from the folder it is run in. A case has 400 bytes: two u64, its label's length and the book's; at 16 the label; at 64
// the book's first bytes. After these the book has zeros.
#![tactic(auto)]

use std::io;

// Nothing is allocated: a fixed buffer, and what of it counts.
fn tell(rt: &impl Print, case: &[u8; 400]) -> io::Result<()> {
    let mut d = cases::zeros();
    wire::copy(&mut d, 0, wire::from(case, 64));
    let book = wire::part(&d, 0, wire::u64_at(case, 8) as usize);
    cases::tell_label(rt, wire::part(case, 16, wire::u64_of(case) as usize))?;
    println!(rt; "{}", cases::refusal(book::layout::check(book)))
}

// As in each program of cases: a function over a closure with `?` would be no shorter.
fn main(rt: HostRuntime) -> io::Result<()> {
    for case in cases::all(cases::open(&rt)?) {
        tell(&rt, &case?)?;
    }
    Ok(())
}
