// An order against another and a position against another, by value, texts by their bytes: an absent text is an empty one, so the references and the flags
// that say which are there are not compared, as a derived equality of orders would.
ghost use Rattle.std.specs.Prelude.{◌≡◌, eqb};
ghost use Rattle.wire.specs.Le.{same_bytes};
ghost use Rattle.state.specs.State.{read_flags, text_or, same_texts, same_order, same_position};

use cell::TextRef;
use records::order::Order;
use records::position::Position;

// The bytes of a text, none where it is absent.
fn text_or<'a>(text: &'a [u8], r: Option<TextRef>) -> &'a [u8]
    ensures { result.now ≡ text_or text.now r }
{
    r.map_or(&[], |x| book::event::text_part(text, x))
}

fn same_text(s: &[u8], t: &[u8], q: Option<TextRef>, r: Option<TextRef>) -> bool
    ensures { result ≡ same_bytes (text_or s.now q) (text_or t.now r) }
{
    text_or(s, q) == text_or(t, r)
}

fn same_texts(s: &[u8], t: &[u8], o: Order, p: Order) -> bool
    ensures { result ≡ same_texts s.now t.now o p }
{
    same_text(s, t, Some(o.action), Some(p.action))
        & same_text(s, t, o.client, p.client)
        & same_text(s, t, o.reason, p.reason)
}

// Submitted, filled and failed: the flags below 8.
fn same_flags(o: Order, p: Order) -> bool
    ensures { result ≡ eqb (read_flags o) (read_flags p) }
{
    records::order::flags_of(o) % 8 == records::order::flags_of(p) % 8
}

pub fn same_order(s: &[u8], t: &[u8], o: Order, p: Order) -> bool
    ensures { result ≡ same_order s.now t.now o p }
{
    (o.symbol == p.symbol)
        & same_flags(o, p)
        & (o.id == p.id)
        & (o.shares == p.shares)
        & (o.limit == p.limit)
        & same_texts(s, t, o, p)
}

// Stands around the derived `==`: with that in the closure of `lists::same_positions`, the goal that the closure answers `same_position` stayed open.
pub fn same_position(p: Position, q: Position) -> bool
    ensures { result ≡ same_position p q }
{
    p == q
}
