// Lines of text in lent bytes: words, decimal numbers, and the names of checkpoints as document 01 prints them.
//
// `specs/Lines.antt` has the text of each. What does not fit in the lent bytes is dropped; a caller tests the room for the whole. The text goes into lent bytes at
// a place, so no `Display` is here: it would need a formatter over them, and says whether it wrote, not how much.
#![tactic(auto)]

ghost use Rattle.std.specs.Prelude.{◌≡◌, ◌+◌, ◌≤◌, ◌<◌, length, drop};
ghost use Rattle.std.proofs.lemmas.List.Edits.{sets};
ghost use Rattle.lines.specs.Lines.{decimal, checkpoint_name, field, line};

use checkpoint::Checkpoint;

// Writes the decimal digits of a number at the end of 20 bytes, and returns the place of the first. By hand, since nothing more is to be trusted: std prints
// numbers to a `String` or a writer, and the kit's crate for digits would be one more library under the one for C.
fn put_digits(d: &mut [u8], n: u64) -> usize
    requires { length d.old ≡ 20 }
    ensures { (result ≤ 20) × (drop result d.new ≡ decimal n) }
{
    let mut first: usize = 20;
    let mut rest = n;
    while 10 <= rest {
        first -= 1;
        d[first] = 48 + ((rest % 10) as u8);
        rest = rest / 10;
    }
    d[first - 1] = 48 + (rest as u8);
    first - 1
}

// Writes a number in decimal digits from `at` on, and returns how many they are.
fn put_decimal(d: &mut [u8], at: usize, n: u64) -> usize
    ensures { (result ≡ length (decimal n)) × (d.new ≡ sets d.old at (decimal n)) }
{
    let mut digits = [0u8; 20];
    let first = put_digits(&mut digits, n);
    wire::put_text(d, at, &digits[first..])
}

// A checkpoint's name.
#[tactic(auto, unfolding(crate::specs::Lines::checkpoint_name))]
fn checkpoint_name(k: Checkpoint) -> &'static [u8]
    ensures { result.now ≡ checkpoint_name k }
{
    match k {
        Checkpoint::RunStarted => b"RunStarted",
        Checkpoint::PositionsIntent => b"PositionsIntent",
        Checkpoint::PositionsFetched => b"PositionsFetched",
        Checkpoint::PositionsResult => b"PositionsResult",
        Checkpoint::DiffComputed => b"DiffComputed",
        Checkpoint::RiskCheckPassed => b"RiskCheckPassed",
        Checkpoint::OrderIntent => b"OrderIntent",
        Checkpoint::OrderSubmitted => b"OrderSubmitted",
        Checkpoint::OrderFailed => b"OrderFailed",
        Checkpoint::OrderFilled => b"OrderFilled",
        Checkpoint::QuotesIntent => b"QuotesIntent",
        Checkpoint::QuotesResult => b"QuotesResult",
        Checkpoint::AccountSummaryIntent => b"AccountSummaryIntent",
        Checkpoint::AccountSummaryResult => b"AccountSummaryResult",
        Checkpoint::CancelIntent => b"CancelIntent",
        Checkpoint::CancelResult => b"CancelResult",
        Checkpoint::RunCompleted => b"RunCompleted",
    }
}

// Writes a checkpoint's name from `at` on, and returns the name's length.
pub fn put_checkpoint_name(d: &mut [u8], at: usize, k: Checkpoint) -> usize
    ensures { (result ≡ length (checkpoint_name k)) × (d.new ≡ sets d.old at (checkpoint_name k)) }
{
    wire::put_text(d, at, checkpoint_name(k))
}

// Writes a text and a number after it from `at` on, and returns the length of both.
pub fn put_field(d: &mut [u8], at: usize, word: &[u8], n: u64) -> usize
    requires { at + length word.now < 65536 }
    ensures { (result ≡ length (field word.now n)) × (d.new ≡ sets d.old at (field word.now n)) × (result ≤ length word.now + 20) }
{
    let len = wire::put_text(d, at, word);
    len + put_decimal(d, at + len, n)
}

// Writes a line of a text and a number from `at` on, and returns its length.
pub fn put_line(d: &mut [u8], at: usize, word: &[u8], n: u64) -> usize
    requires { at + length word.now < 65536 }
    ensures { (result ≡ length (line word.now n)) × (d.new ≡ sets d.old at (line word.now n)) × (result ≤ length word.now + 21) }
{
    let len = put_field(d, at, word, n);
    len + wire::put_text(d, at + len, b"\n")
}
