// Drift lists in lent bytes: the test of their layout, and that of the targets.
ghost use Rattle.std.specs.Prelude.{◌≡◌, ◌/◌, ◌*◌, ◌≤◌, ◌<◌, drop, length, IfOk, IfErr};
ghost use Rattle.std.specs.Float.{binary64};
ghost use Rattle.std.specs.Float.Ieee.{of_bits};
ghost use Rattle.wire.specs.Le.{le};
ghost use Rattle.wire.specs.Table.{records};
ghost use Rattle.drift.specs.Rows.{row_of, valued, rows_layout};
ghost use Rattle.drift.specs.Symbols.{all_where};
ghost use Rattle.drift.specs.Entry.{weight_ok};
ghost use Rattle.drift.specs.Report.{values, lists_layout};
ghost use Rattle.drift.specs.Code.{key, Listed, SoundLists, ByteLists};

use crate::words::key_of;
use wire::refusal;
use wire::refusal::Refusal;

// A list of rows of a width. All of them are there.
#[derive(Clone, Copy)]
pub struct Rows<'a> {
    pub bytes: &'a [u8],
    pub width: usize,
    pub count: usize,
    ghost listed: { Listed bytes.now width count },
}

impl<'a> Rows<'a> {
    // The whole rows of a list.
    pub fn new(bytes: &'a [u8], width: usize) -> Rows<'a>
        requires { 24 ≤ width }
        ensures lent { result.bytes.now ≡ bytes.now }
        ensures size { result.width ≡ width }
        ensures whole { result.count ≡ length bytes.now / width }
    {
        Rows {
            bytes,
            width,
            count: bytes.len() / width,
        }
    }

    // The key of the symbol in row i.
    pub fn key(self, i: usize) -> u64
        requires { i < self.count }
        ensures { result ≡ key (le 8 (drop (self.entry.width * i) self.entry.bytes.now)) }
    {
        key_of(wire::whole_u64_at(self.bytes, self.width * i))
    }

    // What row i says of it: the eight bytes at 16.
    pub fn bits(self, i: usize) -> u64
        requires { i < self.count }
        ensures { result ≡ le 8 (drop 16 (drop (self.entry.width * i) self.entry.bytes.now)) }
    {
        wire::whole_u64_at(self.bytes, self.width * i + 16)
    }
}

// Refusals 1 and 2 of a list.
pub fn check_rows(d: &[u8], width: usize) -> Result<(), Refusal>
    requires some { 0 < width }
    requires few { width ≤ 32 }
    ensures { result ≡ rows_layout width d.now }
{
    let n = d.len() / width;
    if 1024 < n {
        return Err(Refusal::Oversize);
    }
    refusal::sound_if(
        d.len() % width == 0 && (0..n).all(|i| symbol::wide_field_ok(wire::from(d, width * i))),
    )
}

// The lists that drift and held value are made of, with no fault in any.
#[derive(Clone, Copy)]
pub struct Lists<'a> {
    pub positions: &'a [u8],
    pub targets: &'a [u8],
    pub prices: &'a [u8],
    ghost sound: { SoundLists positions.now targets.now prices.now },
    ghost bytes: { ByteLists positions.now targets.now prices.now },
}

impl<'a> Lists<'a> {
    // Refusals 1 and 2 of the three lists.
    pub fn checked(
        positions: &'a [u8],
        targets: &'a [u8],
        prices: &'a [u8],
    ) -> Result<Lists<'a>, Refusal>
        ensures lent { IfOk result (λ lists. (lists.positions.now ≡ positions.now) × (lists.targets.now ≡ targets.now) × (lists.prices.now ≡ prices.now)) }
        ensures refused { IfErr result (λ refusal. lists_layout positions.now targets.now prices.now ≡ Err refusal) }
    {
        let held = check_rows(positions, 32);
        let wanted = check_rows(targets, 24);
        let priced = check_rows(prices, 24);
        refusal::both(held, refusal::both(wanted, priced))?;
        Ok(Lists {
            positions,
            targets,
            prices,
        })
    }
}

// Refusal 11's test of a weight. A NaN fails both comparisons.
fn weight_ok(w: f64) -> bool
    ensures { result ≡ weight_ok w }
{
    w >= -1000.0 && w <= 1000.0
}

// Refusal 11's test of each of the first `count` targets, which `check_rows` found to be few: so the contract asks, which speaks of any count.
// Each of the two is one chain, by another width and another test.
pub fn weights_ok(targets: &[u8], count: usize) -> bool
    requires { count ≤ 1024 }
    ensures { result ≡ all_where weight_ok (values (valued (of_bits binary64) (records row_of 24 count targets.now))) }
{
    (0..count).all(|i| weight_ok(float::bits::from_bits(wire::u64_at(targets, 24 * i + 16))))
}
