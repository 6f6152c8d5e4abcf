// Symbols: 1 to 8 bytes of A to Z, 0 to 9, '.' and '-'. Parsed from a text, read from a zero-padded field, compared, written.
//
// A symbol is held as one number, its bytes least first, and its length, so that comparing and writing are number work; a record for C has the same two. The contracts
// cite `specs/Symbol.antt`, which states its bytes. Nothing here has a `requires`.
#![tactic(auto)]

ghost use Rattle.std.specs.Prelude.{◌≡◌};
ghost use Rattle.std.proofs.lemmas.List.Edits.{sets};
ghost use Rattle.symbol.specs.Symbol.{symbol_byte, parsed, unknown_symbol, field_symbol, field_ok, wide_field_ok, wide_field_bytes};

#[derive(Clone, Copy, PartialEq, Eq)]
pub struct Symbol {
    pub word: u64,
    pub len: u8,
}

// Whether a byte may stand in a symbol.
fn symbol_byte(b: u8) -> bool
    ensures { result ≡ symbol_byte b }
{
    b.is_ascii_uppercase() || b.is_ascii_digit() || b == b'-' || b == b'.'
}

impl Symbol {
    // Entry: the symbol of a text, or nothing where the text is none. One pass, from the last byte to the first. It is lent bytes, so there is no `FromStr`, and
    // `TryFrom` would need an error type for one way to fail.
    pub fn try_new(text: &[u8]) -> Option<Symbol>
        ensures { result ≡ parsed text.now }
    {
        if text.is_empty() || 8 < text.len() {
            return None;
        }
        let mut word: u64 = 0;
        for &b in text.iter().rev() {
            if !symbol_byte(b) {
                return None;
            }
            word = word * 256 + u64::from(b);
        }
        Some(Symbol {
            word,
            len: text.len() as u8,
        })
    }

    // UNKNOWN, the symbol of an order whose symbol does not parse.
    pub fn unknown() -> Symbol
        ensures { result ≡ unknown_symbol }
    {
        Symbol {
            word: u64::from_le_bytes(*b"UNKNOWN\0"),
            len: 7,
        }
    }

    // The symbol that a field holds: eight bytes and the length's byte.
    pub fn of_field(s: &[u8]) -> Symbol
        ensures { result ≡ field_symbol s.now }
    {
        Symbol {
            word: wire::u64_of(s),
            len: wire::u8_at(s, 8),
        }
    }
}

// Whether a field of nine bytes is right: a length of 1 to 8, that many bytes of a symbol, and zeros up to the eighth.
pub fn field_ok(s: &[u8]) -> bool
    ensures { result ≡ field_ok s.now }
{
    let len = wire::u8_at(s, 8);
    if len == 0 || 8 < len {
        return false;
    }
    let mut rest = wire::u64_of(s);
    for _ in 0..len {
        if !symbol_byte((rest % 256) as u8) {
            return false;
        }
        rest /= 256;
    }
    rest == 0
}

// Whether a field of sixteen bytes is right: seven zeros follow the nine.
pub fn wide_field_ok(s: &[u8]) -> bool
    ensures { result ≡ wide_field_ok s.now }
{
    field_ok(s) && wire::u64_at(s, 8) < 256
}

// Writes the field of sixteen bytes.
pub fn put_wide_field(d: &mut [u8], at: usize, y: Symbol)
    ensures { d.new ≡ sets d.old at (wide_field_bytes y) }
{
    if at < d.len() {
        wire::put_u64(d, at, y.word);
        wire::put_u64(d, at + 8, u64::from(y.len));
    }
}
