// The examples of document 01 beside its reference sequence, run through the entries: those of the table of refusals, the desk program's, and the
// wrong turns. For each a line: what it is, and the numbers that the entry gives, a refusal's number first, 0 for none.
//
// It reads `examples.bin`, written by `make`, from the folder it is run in. The reference sequence itself, M1 to M12, is the crate `reference`.
#![tactic(auto)]

mod desk;
mod example;
mod refusals;
mod tell;
mod turns;

use std::io;

// An example of a kind. The number is looked at here alone, so it is matched as it stands in the file.
fn tell_of(rt: &impl Print, e: &[u8; 1920]) -> io::Result<()> {
    match wire::u64_of(e) {
        1 => refusals::verdict(rt, e),
        2 => refusals::recovered(rt, e),
        3 => refusals::reconciled(rt, e),
        4 => refusals::fixed(rt, e),
        5 => refusals::weight(rt, e),
        6 => refusals::held(rt, e),
        7 => refusals::joined(rt, e),
        8 => desk::sample(rt, e),
        9 => turns::fill(rt, e),
        10 => turns::restarted(rt, e),
        11 => turns::symbols(rt, e),
        kind => tell::numbers(rt, b"an example of no kind", &[kind]),
    }
}

fn main(rt: HostRuntime) -> io::Result<()> {
    for example in cases::all(cases::open_file(&rt, "examples.bin")?) {
        tell_of(&rt, &example?)?;
    }
    Ok(())
}
