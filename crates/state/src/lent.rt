// Refusals 1 and 2 of a book and of the records that are lent with it.
ghost use Rattle.std.specs.Prelude.{◌≡◌};
ghost use Rattle.state.specs.State.{ref_in, refs_ok, refs_layout, state_layout};

use crate::State;
use wire::refusal::Refusal;

// Whether the reference in the first eight bytes lies within so many bytes of text.
fn ref_in(s: &[u8], text: u32) -> bool
    ensures { result ≡ ref_in text s.now }
{
    let first = wire::u32_of(s) as u64;
    let len = wire::u32_at(s, 4) as u64;
    first + len <= (text as u64)
}

// Whether the three references of an order do.
fn refs_ok(s: &[u8], text: u32) -> bool
    ensures { result ≡ refs_ok text s.now }
{
    ref_in(wire::from(s, 32), text)
        & ref_in(wire::from(s, 40), text)
        & ref_in(wire::from(s, 48), text)
}

// Refusal 2 of the orders by their references. `records::order::check_orders` is such a chain over the other parts of a record.
fn check_refs(d: &[u8], text: u32) -> Result<(), Refusal>
    ensures { result ≡ refs_layout text d.now }
{
    let n = d.len() / 64;
    wire::refusal::sound_if(
        d.len() % 64 == 0 && (0..n).all(|i| refs_ok(wire::from(d, 64 * i), text)),
    )
}

impl State<'_> {
    pub fn check(self) -> Result<(), Refusal>
        ensures { result ≡ state_layout self.entry.book.now self.entry.orders.now self.entry.positions.now }
    {
        let whole = book::layout::check(self.book);
        let records = records::order::check_orders(self.orders);
        let refs = check_refs(self.orders, wire::u32_at(self.book, 16));
        let held = records::position::check_positions(self.positions);
        wire::refusal::both(
            whole,
            wire::refusal::both(records, wire::refusal::both(refs, held)),
        )
    }
}
