// Equality of two recovered states, each with its book: marks except time, positions and orders in order, texts by bytes.
//
// `specs/State.antt` has what is read of a state and the refusals: 1 of either book, then 2 of a book or of lent records.
#![tactic(auto)]

ghost use Rattle.std.specs.Prelude.{◌≡◌};
ghost use Rattle.book.specs.Event.{text_of};
ghost use Rattle.records.specs.Record.{orders_in, positions_in};
ghost use Rattle.state.specs.State.{same_state, states_equal};

use marks::Marks;
use wire::refusal::Refusal;

mod lent;
mod lists;
mod orders;
mod run;

// A state and its book, as they are lent.
#[derive(Clone, Copy)]
struct State<'a> {
    book: &'a [u8],
    marks: Marks,
    orders: &'a [u8],
    positions: &'a [u8],
}

impl State<'_> {
    // Whether two states are equal, each with the text of its book: no derive, since times are not compared, and texts by their bytes.
    fn same(self, other: State) -> bool
        ensures { result ≡ same_state (text_of self.entry.book.now) (text_of other.entry.book.now) self.entry.marks other.entry.marks (orders_in self.entry.orders.now) (orders_in other.entry.orders.now) (positions_in self.entry.positions.now) (positions_in other.entry.positions.now) }
    {
        let s = book::event::text(self.book);
        let t = book::event::text(other.book);
        run::same_marks(self.marks, other.marks)
            && lists::same_orders(s, t, self.orders, other.orders)
            && lists::same_positions(self.positions, other.positions)
    }
}

// Entry. Whether two recovered states are equal, each lent with its book: (book, marks, orders, positions) twice. Refusal 1 of either book,
// then 2 of either book and of the lent records. The parameters are those that C lends.
pub fn states_equal(
    book_a: &[u8],
    marks_a: Marks,
    orders_a: &[u8],
    positions_a: &[u8],
    book_b: &[u8],
    marks_b: Marks,
    orders_b: &[u8],
    positions_b: &[u8],
) -> Result<bool, Refusal>
    ensures { result ≡ states_equal book_a.now marks_a orders_a.now positions_a.now book_b.now marks_b orders_b.now positions_b.now }
{
    let a = State {
        book: book_a,
        marks: marks_a,
        orders: orders_a,
        positions: positions_a,
    };
    let b = State {
        book: book_b,
        marks: marks_b,
        orders: orders_b,
        positions: positions_b,
    };
    wire::refusal::both(a.check(), b.check())?;
    Ok(a.same(b))
}
