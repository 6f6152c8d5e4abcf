// An example's parts. It has 1,920 bytes: five u64, which are its kind, its label's length, those of its first and second bytes, and a number; at 64 the
// label, at 160 the second bytes, at 256 the first.
pub fn label(e: &[u8]) -> &[u8] {
    wire::part(e, 64, wire::u64_at(e, 8) as usize)
}

// A book, or a list of drift.
pub fn first(e: &[u8]) -> &[u8] {
    wire::part(e, 256, wire::u64_at(e, 16) as usize)
}

// A sheet, or a list of drift.
pub fn second(e: &[u8]) -> &[u8] {
    wire::part(e, 160, wire::u64_at(e, 24) as usize)
}
