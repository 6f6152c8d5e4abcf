// Sheets around the boundaries of the layout. For each a line: what it is, and the number of its refusal, 0 for none.
//
// It reads `cases.bin`, written by `make`, from the folder it is run in. A case has 256 bytes: four u64, which are its label's length, the sheet's length, a
// place in the sheet and a count of positions; at 32 the label; at 96 the sheet's first bytes, 160 at most. After these the sheet has zeros, but for the symbol
// UNKNOWN in so many positions from that place on.
#![tactic(auto)]

use std::io;
use symbol::Symbol;

// Writes the symbol UNKNOWN into each of `n` position records from `at` on. `large_cases` has such a loop of records: one line each.
fn put_symbols(d: &mut [u8], at: u32, n: u32) {
    for k in 0..n {
        symbol::put_wide_field(d, at as usize + 24 * k as usize, Symbol::unknown());
    }
}

// Nothing is allocated: a fixed buffer, and what of it counts.
fn tell(rt: &impl Print, case: &[u8; 256]) -> io::Result<()> {
    let mut d = [0; 65536];
    wire::copy(&mut d, 0, wire::from(case, 96));
    put_symbols(&mut d, wire::u32_at(case, 16), wire::u32_at(case, 24));
    let sheet = wire::part(&d, 0, wire::u64_at(case, 8) as usize);
    cases::tell_label(rt, wire::part(case, 32, wire::u64_of(case) as usize))?;
    println!(rt; "{}", cases::refusal(sheet::check(sheet)))
}

// As in each program of cases: a function over a closure with `?` would be no shorter.
fn main(rt: HostRuntime) -> io::Result<()> {
    for case in cases::all(cases::open(&rt)?) {
        tell(&rt, &case?)?;
    }
    Ok(())
}
