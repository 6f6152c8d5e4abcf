// One symbol's drift: three weights and three share counts, and its record of 64 bytes.
ghost use Rattle.std.specs.Prelude.{◌≡◌};
ghost use Rattle.std.proofs.lemmas.List.Edits.{sets};
ghost use Rattle.drift.specs.Entry.{target_shares, entry_bytes};
ghost use Rattle.drift.specs.Code.{weight_answer, made_of, key, symbol_at};

use crate::words::{key_of, len_of};
use float::bits::{nearest_i64, saturating_i64, to_bits};
use records::words::put_four;
use wire::refusal::Refusal;

#[derive(Clone, Copy)]
pub struct ReconcileEntry {
    pub target_weight: f64,
    pub actual_weight: f64,
    pub diff_weight: f64,
    pub target_shares: i64,
    pub actual_shares: i64,
    pub diff_shares: i64,
}

// What is held as a part of equity. The product is made with equity and price above 0 only.
fn actual_weight(quantity: i64, price: i64, equity: i64) -> Result<f64, Refusal>
    ensures { result ≡ weight_answer quantity price equity }
{
    if equity <= 0 || price <= 0 {
        return Ok(0.0);
    }
    let worth = quantity.checked_mul(price).ok_or(Refusal::Overflow)?;
    Ok(nearest_i64(worth) / nearest_i64(equity))
}

// The shares that a target comes to.
fn target_shares(weight: f64, price: i64, equity: i64) -> i64
    ensures { result ≡ target_shares weight price equity }
{
    if 0 < price {
        saturating_i64(nearest_i64(equity) * weight / nearest_i64(price))
    } else {
        0
    }
}

// The entry of a symbol.
pub fn entry_of(
    quantity: i64,
    weight: f64,
    price: i64,
    equity: i64,
) -> Result<ReconcileEntry, Refusal>
    ensures { result ≡ made_of quantity weight price equity }
{
    let actual_weight = actual_weight(quantity, price, equity)?;
    let target_shares = target_shares(weight, price, equity);
    let diff_shares = quantity
        .checked_sub(target_shares)
        .ok_or(Refusal::Overflow)?;
    Ok(ReconcileEntry {
        target_weight: weight,
        actual_weight,
        diff_weight: actual_weight - weight,
        target_shares,
        actual_shares: quantity,
        diff_shares,
    })
}

// Writes the 64 bytes of the entry of the symbol with the key x at a place.
pub fn put_entry(d: &mut [u8], at: usize, x: u64, e: ReconcileEntry)
    ensures { d.new ≡ sets d.old at (entry_bytes (symbol_at (key x)) e) }
{
    if d.len() <= at {
        return;
    }
    let word = key_of(x);
    put_four(
        d,
        at,
        word,
        len_of(word),
        to_bits(e.target_weight),
        to_bits(e.actual_weight),
    );
    let target = e.target_shares.cast_unsigned();
    let actual = e.actual_shares.cast_unsigned();
    let diff = e.diff_shares.cast_unsigned();
    put_four(d, at + 32, to_bits(e.diff_weight), target, actual, diff);
}
