// Marks in a record of 176 bytes, as they cross the C boundary: written, read and tested.
//
// `specs/MarksRecord.antt` has the record's layout.
#![tactic(auto)]

ghost use Rattle.std.specs.Prelude.{◌≡◌, not, ◌&&◌, ◌<◌, ◌≤◌, length, drop};
ghost use Rattle.std.proofs.lemmas.List.Edits.{sets};
ghost use Rattle.wire.specs.Le.{le};
ghost use Rattle.wire.specs.Table.{every};
ghost use Rattle.marks_record.specs.MarksRecord.{truth_number, number_bytes, head_bytes, flag_bytes, flags_bytes, pair_bytes, pairs_bytes, marks_bytes, checkpoint_of, truth_of, number_if, number_of, pair_of, marks_of, truth_ok, number_ok, marks_ok, marks_layout};

use checkpoint::Checkpoint;
use marks::{Marks, Pair};
use wire::refusal::Refusal;

// A last number in sixteen bytes, and the two of a pair.
fn put_number(d: &mut [u8], at: usize, n: Option<u64>)
    requires { at < 4294967296 }
    ensures { d.new ≡ sets d.old at (number_bytes n) }
{
    wire::put_u64(d, at, u64::from(n.is_some()));
    wire::put_u64(d, at + 8, n.unwrap_or(0));
}

fn put_pair(d: &mut [u8], at: usize, p: Pair)
    requires { at < 4294967280 }
    ensures { d.new ≡ sets d.old at (pair_bytes p) }
{
    put_number(d, at, p.intended);
    put_number(d, at + 16, p.resulted);
}

// The eight last numbers, from 48 on. A line for each pair, as in `put_flags`: the pairs are four fields, and the record gives each its place.
fn put_pairs(d: &mut [u8], m: Marks)
    ensures { d.new ≡ sets d.old 48 (pairs_bytes m) }
{
    put_pair(d, 48, m.positions);
    put_pair(d, 80, m.quotes);
    put_pair(d, 112, m.account);
    put_pair(d, 144, m.cancel);
}

// The two flags of a pair.
fn put_flag(d: &mut [u8], at: usize, p: Pair)
    requires { at < 4294967296 }
    ensures { d.new ≡ sets d.old at (flag_bytes p) }
{
    wire::put_u8(d, at, u8::from(p.intent));
    wire::put_u8(d, at + 1, u8::from(p.result));
}

// Completed, cancel_failed and the eight logged flags, from 32 on.
fn put_flags(d: &mut [u8], m: Marks)
    ensures { d.new ≡ sets d.old 32 (flags_bytes m) }
{
    wire::put_u8(d, 32, u8::from(m.completed));
    wire::put_u8(d, 33, u8::from(m.cancelfailed));
    put_flag(d, 34, m.positions);
    put_flag(d, 36, m.quotes);
    put_flag(d, 38, m.account);
    put_flag(d, 40, m.cancel);
    wire::put(d, 42, 6, 0);
}

// The checkpoint, the number, the time and the equity.
fn put_head(d: &mut [u8], m: Marks)
    ensures { d.new ≡ sets d.old 0 (head_bytes m) }
{
    wire::put_u64(d, 0, u64::from(u32::from(m.checkpoint)));
    wire::put_u64(d, 8, m.number);
    wire::put_u64(d, 16, m.time.cast_unsigned());
    wire::put_u64(d, 24, m.equity.cast_unsigned());
}

// Writes the record in the first 176 bytes.
pub fn put_marks(d: &mut [u8], m: Marks)
    ensures { d.new ≡ sets d.old 0 (marks_bytes m) }
{
    put_head(d, m);
    put_flags(d, m);
    put_pairs(d, m);
}

// The checkpoints by their numbers, from 1 on. A table and no `From<u64>`: what is read of a number that names no checkpoint is this record's rule alone.
static CHECKPOINTS: [Checkpoint; 17] = [
    Checkpoint::RunStarted,
    Checkpoint::PositionsIntent,
    Checkpoint::PositionsFetched,
    Checkpoint::PositionsResult,
    Checkpoint::DiffComputed,
    Checkpoint::RiskCheckPassed,
    Checkpoint::OrderIntent,
    Checkpoint::OrderSubmitted,
    Checkpoint::OrderFailed,
    Checkpoint::OrderFilled,
    Checkpoint::QuotesIntent,
    Checkpoint::QuotesResult,
    Checkpoint::AccountSummaryIntent,
    Checkpoint::AccountSummaryResult,
    Checkpoint::CancelIntent,
    Checkpoint::CancelResult,
    Checkpoint::RunCompleted,
];

// The checkpoint of a number, RunStarted where it names none.
fn checkpoint_of(n: u64) -> Checkpoint
    ensures { result ≡ checkpoint_of n }
{
    CHECKPOINTS
        .get(n.saturating_sub(1) as usize)
        .copied()
        .unwrap_or(Checkpoint::RunStarted)
}

fn number_of(s: &[u8]) -> Option<u64>
    ensures { result ≡ number_of s.now }
{
    (wire::u64_of(s) == 1).then(|| wire::u64_at(s, 8))
}

fn truth_at(s: &[u8], at: usize) -> bool
    ensures { result ≡ truth_of (le 1 (drop at s.now)) }
{
    wire::u8_at(s, at) == 1
}

// The pair with its flags at one place and its numbers at another.
fn pair_at(s: &[u8], flags: usize, numbers: usize) -> Pair
    ensures { result ≡ pair_of (drop flags s.now) (drop numbers s.now) }
{
    let f = wire::from(s, flags);
    let n = wire::from(s, numbers);
    Pair {
        intent: truth_at(f, 0),
        result: truth_at(f, 1),
        intended: number_of(n),
        resulted: number_of(wire::from(n, 16)),
    }
}

// The marks in the first 176 bytes.
pub fn marks_of(s: &[u8]) -> Marks
    ensures { result ≡ marks_of s.now }
{
    Marks {
        checkpoint: checkpoint_of(wire::u64_of(s)),
        number: wire::u64_at(s, 8),
        time: wire::i64_at(s, 16),
        equity: wire::i64_at(s, 24),
        completed: truth_at(s, 32),
        positions: pair_at(s, 34, 48),
        quotes: pair_at(s, 36, 80),
        account: pair_at(s, 38, 112),
        cancel: pair_at(s, 40, 144),
        cancelfailed: truth_at(s, 33),
    }
}

// Whether the pair with its flags at a place has an intent and no result.
pub fn unanswered_at(s: &[u8], flags: usize) -> bool
    ensures { result ≡ (truth_of (le 1 (drop flags s.now)) && not (truth_of (le 1 (drop 1 (drop flags s.now))))) }
{
    let f = wire::from(s, flags);
    truth_at(f, 0) & !truth_at(f, 1)
}

// The ten flags, and below the eight last numbers: a chain each, by another width and another test.
fn truths_ok(s: &[u8]) -> bool
    ensures { result ≡ every truth_ok 1 10 s.now }
{
    (0..10usize).all(|i| wire::u8_at(s, i) <= 1)
}

fn number_ok(s: &[u8]) -> bool
    requires { 16 ≤ length s.now }
    ensures { result ≡ number_ok s.now }
{
    let present = wire::whole_u64(s);
    (present == 1) | ((present == 0) & (wire::whole_u64_at(s, 8) == 0))
}

fn numbers_ok(s: &[u8]) -> bool
    requires { 128 ≤ length s.now }
    ensures { result ≡ every number_ok 16 8 s.now }
{
    (0..8usize).all(|i| number_ok(wire::rest(s, 16 * i)))
}

// Refusal 2 of lent marks: 176 bytes, a checkpoint's number, truths, zeros, and no number where there is none.
pub fn check(s: &[u8]) -> Result<(), Refusal>
    ensures { result ≡ marks_layout s.now }
{
    if s.len() != 176 {
        return Err(Refusal::Broken);
    }
    let checkpoint = wire::u64_of(s);
    wire::refusal::sound_if(
        (1 <= checkpoint)
            & (checkpoint <= 17)
            & truths_ok(wire::from(s, 32))
            & (wire::u32_at(s, 42) == 0)
            & (wire::u16_at(s, 46) == 0)
            & numbers_ok(wire::from(s, 48)),
    )
}
