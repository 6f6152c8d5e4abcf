// The broker's sheet in lent bytes: its test for refusals 1 and 2, and readers of its header, orders and positions.
//
// Nothing here has a `requires`: a reader takes any bytes, and reads zeros past their end. What it reads stands for the broker's answer
// where `check` answers `Ok(())`. The contracts cite `specs/Sheet.antt`.
#![tactic(auto)]

ghost use Rattle.std.specs.Prelude.{◌≡◌, Ok, Err, MatchResult, ◌+◌, ◌*◌, drop};
ghost use Rattle.wire.specs.Table.{every};
ghost use Rattle.symbol.specs.Symbol.{wide_field_ok};
ghost use Rattle.types.specs.Order.{state_of};
ghost use Rattle.sheet.specs.Sheet.{order_count, position_count, orders_failed, state_in, broker_order_of, broker_position_of, broker_order_ok, offsets_ok, mark_ok, header_ok, parts_ok, sheet_layout};

use symbol::Symbol;
use types::order::{OrderId, OrderState};
use wire::refusal::Refusal;

#[derive(Clone, Copy)]
pub struct BrokerOrderStatus {
    pub id: OrderId,
    pub status: OrderState,
    pub remaining: u64,
}

#[derive(Clone, Copy)]
pub struct BrokerPosition {
    pub symbol: Symbol,
    pub quantity: i64,
}

// How many orders and positions the header claims.
pub fn order_count(sheet: &[u8]) -> u32
    ensures { result ≡ order_count sheet.now }
{
    wire::u32_of(sheet)
}

pub fn position_count(sheet: &[u8]) -> u32
    ensures { result ≡ position_count sheet.now }
{
    wire::u32_at(sheet, 8)
}

// Whether the broker failed to list its orders.
pub fn orders_failed(sheet: &[u8]) -> bool
    ensures { result ≡ orders_failed sheet.now }
{
    wire::u32_at(sheet, 16) == 1
}

// The state that a number names; a number that names none stands in no sheet that is sound.
fn state_of(n: u32) -> OrderState
    ensures { result ≡ state_in (state_of n) }
{
    OrderState::from_number(n).unwrap_or(OrderState::Pending)
}

// The order at the front of a slice, and that of a sheet's table at index `i`, counted from 0. It and the position below have other fields and another type: what
// they share are the readers of `wire`.
fn order_of(s: &[u8]) -> BrokerOrderStatus
    ensures { result ≡ broker_order_of s.now }
{
    let id = OrderId(wire::u64_of(s));
    let status = state_of(wire::u32_at(s, 16));
    BrokerOrderStatus {
        id,
        status,
        remaining: wire::u64_at(s, 8),
    }
}

pub fn order_at(sheet: &[u8], i: u32) -> BrokerOrderStatus
    ensures { result ≡ broker_order_of (drop (24 + 24 * i) sheet.now) }
{
    order_of(wire::from(sheet, 24 + 24 * (i as usize)))
}

// The id of that order alone, and what remains of it.
pub fn order_id_at(sheet: &[u8], i: u32) -> OrderId
    ensures { result ≡ (broker_order_of (drop (24 + 24 * i) sheet.now)).id }
{
    OrderId(wire::u64_at(sheet, 24 + 24 * (i as usize)))
}

pub fn remaining_at(sheet: &[u8], i: u32) -> u64
    ensures { result ≡ (broker_order_of (drop (24 + 24 * i) sheet.now)).remaining }
{
    wire::u64_at(wire::from(sheet, 24 + 24 * (i as usize)), 8)
}

// The position at the front of a slice, and that of a sheet's table at index `i`, counted from 0.
fn position_of(s: &[u8]) -> BrokerPosition
    ensures { result ≡ broker_position_of s.now }
{
    let symbol = Symbol::of_field(s);
    BrokerPosition {
        symbol,
        quantity: wire::i64_at(s, 16),
    }
}

pub fn position_at(sheet: &[u8], i: u32) -> BrokerPosition
    ensures { result ≡ broker_position_of (drop (24 + 24 * order_count sheet.now + 24 * i) sheet.now) }
{
    let orders = order_count(sheet) as usize;
    position_of(wire::from(sheet, 24 + 24 * orders + 24 * (i as usize)))
}

// Whether an order's record is right: a state from 0 to 5 and four zeros, which together are a number of at most 5.
fn order_ok(s: &[u8], at: usize) -> bool
    ensures { result ≡ broker_order_ok (drop at s.now) }
{
    wire::u64_at(wire::from(s, at), 16) <= 5
}

// Whether each of the `n` records at the front of a slice is right, of orders and of positions. The header has `n`, and the slice goes on past the table. Each is
// one chain of the library; a generic would take the test that is all it says.
fn orders_ok(s: &[u8], n: u32) -> bool
    ensures { result ≡ every broker_order_ok 24 n s.now }
{
    (0..n as usize).all(|i| order_ok(s, 24 * i))
}

fn positions_ok(s: &[u8], n: u32) -> bool
    ensures { result ≡ every wide_field_ok 24 n s.now }
{
    (0..n as usize).all(|i| symbol::wide_field_ok(wire::from(s, 24 * i)))
}

// Whether the tables follow the header without gaps and end the sheet of `len` bytes.
fn offsets_ok(orders: u32, first: u32, positions: u32, second: u32, len: usize) -> bool
    ensures { result ≡ offsets_ok orders first positions second len }
{
    let end = 24 + 24 * (orders as usize);
    first == 24 && second as usize == end && len == end + 24 * (positions as usize)
}

// Whether a failed mark is 0, or 1 with a count of 0.
fn mark_ok(mark: u32, count: u32) -> bool
    ensures { result ≡ mark_ok mark count }
{
    mark == 0 || (mark == 1 && count == 0)
}

fn header_ok(sheet: &[u8]) -> bool
    ensures { result ≡ header_ok sheet.now }
{
    let orders = order_count(sheet);
    let positions = position_count(sheet);
    offsets_ok(
        orders,
        wire::u32_at(sheet, 4),
        positions,
        wire::u32_at(sheet, 12),
        sheet.len(),
    ) && mark_ok(wire::u32_at(sheet, 16), orders)
        && mark_ok(wire::u32_at(sheet, 20), positions)
}

fn parts_ok(sheet: &[u8]) -> bool
    ensures { result ≡ parts_ok sheet.now }
{
    let orders = order_count(sheet);
    header_ok(sheet)
        && orders_ok(wire::from(sheet, 24), orders)
        && positions_ok(
            wire::from(sheet, 24 + 24 * (orders as usize)),
            position_count(sheet),
        )
}

// Entry. Whether the bytes are a broker's sheet: refusal 1 for more than 1,024 orders or positions, as the header claims; refusal 2 for a
// header that is not whole, and for any other fault of the layout.
pub fn check(sheet: &[u8]) -> Result<(), Refusal>
    ensures { result ≡ sheet_layout sheet.now }
{
    if sheet.len() < 24 {
        return Err(Refusal::Broken);
    }
    if 1024 < order_count(sheet) || 1024 < position_count(sheet) {
        return Err(Refusal::Oversize);
    }
    wire::refusal::sound_if(parts_ok(sheet))
}

// A sheet that `check` finds sound.
#[derive(Clone, Copy)]
pub struct SoundSheet<'a> {
    pub bytes: &'a [u8],
    ghost sound: { sheet_layout bytes.now ≡ Ok tt },
}

impl<'a> SoundSheet<'a> {
    // The sheet that these bytes are, or why they are none.
    pub fn try_new(bytes: &'a [u8]) -> Result<SoundSheet<'a>, Refusal>
        ensures { MatchResult result (λ sheet. (sheet.bytes.now ≡ bytes.now) × (sheet_layout bytes.now ≡ Ok tt)) (λ r. sheet_layout bytes.now ≡ Err r) }
    {
        check(bytes)?;
        Ok(SoundSheet { bytes })
    }
}
