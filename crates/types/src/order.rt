// The broker's order number, Rust's casts of a recovered ibkr_id, and the states of an order.
ghost use Rattle.std.specs.Prelude.{◌≡◌, eqb};
ghost use Rattle.types.specs.Order.{sign_extended, truncated, state_of, state_number};

// The number of an order at the broker, apart from the i32 ibkr_id of a recovered order.
#[derive(Clone, Copy, PartialEq, Eq)]
pub struct OrderId(pub u64);

impl OrderId {
    // Entry. Whether a recovered ibkr_id names this order: `ibkr_id as u64 == id.0`.
    pub fn is_ibkr(self, ibkr: i32) -> bool
        ensures { result ≡ eqb (sign_extended ibkr) self.0 }
    {
        sign_extended(ibkr) == self.0
    }
}

// Entry. `ibkr_id as u64`, which extends the sign: a negative number is 2^64 more. C calls it and the next one as `desk_sign_extended` and `desk_truncated_i32`.
pub fn sign_extended(ibkr: i32) -> u64
    ensures { result ≡ sign_extended ibkr }
{
    i64::from(ibkr).cast_unsigned()
}

// Entry. `ibkr_id as i32` of an i64, which keeps the 32 low bits: by a remainder, since Rattle's `as` is proved to lose nothing.
pub fn truncated_i32(n: i64) -> i32
    ensures { result ≡ truncated n }
{
    ((n.cast_unsigned() % 0x1_0000_0000) as u32).cast_signed()
}

// The state of an order at the broker. A sheet numbers them from 0 in this order.
#[derive(Clone, Copy, PartialEq, Eq)]
pub enum OrderState {
    Pending,
    Submitted,
    PartiallyFilled,
    Filled,
    Cancelled,
    Rejected,
}

impl OrderState {
    // Entry. The state that a number names. `TryFrom` would need an error type for one way to fail.
    pub fn from_number(n: u32) -> Option<OrderState>
        ensures { result ≡ state_of n }
    {
        match n {
            0 => Some(OrderState::Pending),
            1 => Some(OrderState::Submitted),
            2 => Some(OrderState::PartiallyFilled),
            3 => Some(OrderState::Filled),
            4 => Some(OrderState::Cancelled),
            5 => Some(OrderState::Rejected),
            _ => None,
        }
    }
}

// Entry. The number of a state.
impl From<OrderState> for u32 {
    ghost from_gives = { λ x n. n ≡ state_number x };

    fn from(x: OrderState) -> u32 {
        match x {
            OrderState::Pending => 0,
            OrderState::Submitted => 1,
            OrderState::PartiallyFilled => 2,
            OrderState::Filled => 3,
            OrderState::Cancelled => 4,
            OrderState::Rejected => 5,
        }
    }
}
