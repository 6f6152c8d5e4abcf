// The sections of a case's body: a u64 length, that many bytes, zeros up to the next multiple of 8.

// Where the section after the one at `at` starts. A body has at most 65,536 bytes: what claims more is passed by in place.
fn next(body: &[u8], at: usize) -> usize {
    let len = wire::u64_at(body, at);
    if 65536 < len || 65536 < at {
        return at;
    }
    at + 8 + (len as usize).next_multiple_of(8)
}

// Where a section starts; the first is 1.
fn start(body: &[u8], section: u32) -> usize {
    (1..section).fold(0, |at, _| next(body, at))
}

// The bytes of a section, none past the body's end.
pub fn section(body: &[u8], number: u32) -> &[u8] {
    let s = wire::from(body, start(body, number));
    wire::part(s, 8, wire::u64_of(s) as usize)
}

// The i-th number, from 0, of the inputs in a section.
pub fn number_in(body: &[u8], section: u32, i: u8) -> u64 {
    let at = start(body, section);
    wire::u64_at(wire::from(body, at), 8 + 8 * (i as usize))
}

// Whether a section of answers is these numbers.
pub fn is_numbers(s: &[u8], numbers: &[u64]) -> bool {
    s.len() % 8 == 0
        && s.len() / 8 == numbers.len()
        && s.chunks_exact(8)
            .zip(numbers)
            .all(|(word, n)| wire::u64_of(word) == *n)
}
