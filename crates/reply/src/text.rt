// The lines of the reply, each written from `at` on, or from the start. Each function returns how many bytes it wrote.
ghost use Rattle.std.specs.Prelude.{◌≡◌, ◌<◌, length};
ghost use Rattle.std.proofs.lemmas.List.Edits.{sets};
ghost use Rattle.wire.specs.Le.{le};
ghost use Rattle.wire.specs.Layout.{refusal_number};
ghost use Rattle.wire.specs.Table.{records, encoded};
ghost use Rattle.reply.specs.Result.{Told};
ghost use Rattle.reply.specs.Text.{verdict_line, action_line, last_line, recovered_lines, kind_line, report_lines, refused_line, result_text};
ghost use Rattle.reply.specs.Lent.{Writes};

use audit::validate::Fault;
use checkpoint::Checkpoint;
use marks::action::RecoveryAction;
use recovery::recover::Recovered;
use wire::refusal::Refusal;

fn put_verdict(d: &mut [u8], v: Result<(), Fault>) -> usize
    ensures text { Writes result (verdict_line v) d.old d.new }
    ensures short { result < 100 }
{
    let x = audit::validate::verdict_numbers(v);
    let n = lines::put_field(d, 0, b"verdict ", x.0 as u64);
    let m = n + lines::put_field(d, n, b" ", x.1 as u64);
    m + lines::put_line(d, m, b" ", x.2 as u64)
}

// A `match` and no Display: the text goes to a place in lent bytes, and the answer is its length.
fn put_action(d: &mut [u8], at: usize, a: RecoveryAction) -> usize
    ensures { (result ≡ length (action_line a)) × (d.new ≡ sets d.old at (action_line a)) × (result < 100) }
{
    match a {
        RecoveryAction::Restart => wire::put_text(d, at, b"action Restart\n"),
        RecoveryAction::Resume => wire::put_text(d, at, b"action Resume\n"),
        RecoveryAction::ManualReview => wire::put_text(d, at, b"action ManualReview\n"),
    }
}

fn put_last(d: &mut [u8], at: usize, k: Checkpoint, number: u64) -> usize
    requires { at < 65000 }
    ensures { (result ≡ length (last_line k number)) × (d.new ≡ sets d.old at (last_line k number)) × (result < 100) }
{
    let n = wire::put_text(d, at, b"last ");
    let m = n + lines::put_checkpoint_name(d, at + n, k);
    m + lines::put_line(d, at + m, b" ", number)
}

// The lines of a verdict and a recovery.
fn put_recovered(d: &mut [u8], v: Result<(), Fault>, r: Recovered) -> usize
    ensures text { Writes result (recovered_lines v r) d.old d.new }
    ensures short { result < 500 }
{
    let a = put_verdict(d, v);
    let b = a + put_action(d, a, r.action);
    let c = b + put_last(d, b, r.marks.checkpoint, r.marks.number);
    let e = c + lines::put_line(d, c, b"orders ", r.orders as u64);
    e + lines::put_line(d, e, b"positions ", r.positions as u64)
}

// The kinds of a report's first `count` records, a line each. The report is a buffer of a fixed size, so it has its count beside it here and below; 1366 records
// are more than 65,536 bytes hold.
fn put_kinds(d: &mut [u8], at: usize, report: &[u8], count: usize) -> usize
    requires { (at < 1000) × (count < 1366) }
    ensures { (result ≡ length (encoded kind_line (records (le 4) 48 count report.now))) × (d.new ≡ sets d.old at (encoded kind_line (records (le 4) 48 count report.now))) × (result < 30000) }
{
    let mut n = 0;
    for i in 0..count {
        n += lines::put_line(d, at + n, b"", wire::u32_at(report, 48 * i) as u64);
    }
    n
}

// The lines of a report of `count` records.
fn put_report(d: &mut [u8], at: usize, report: &[u8], count: usize) -> usize
    requires { (at < 900) × (count < 1366) }
    ensures { (result ≡ length (report_lines (records (le 4) 48 count report.now))) × (d.new ≡ sets d.old at (report_lines (records (le 4) 48 count report.now))) × (result < 31000) }
{
    let n = lines::put_line(d, at, b"report ", count as u64);
    n + put_kinds(d, at + n, report, count)
}

// All lines of a result, its kinds read from the report's first `count` records.
pub fn put_told(
    d: &mut [u8],
    v: Result<(), Fault>,
    r: Recovered,
    report: &[u8],
    count: usize,
) -> usize
    requires { count < 1366 }
    ensures { Writes result (result_text (Told v r (records (le 4) 48 count report.now))) d.old d.new }
{
    let n = put_recovered(d, v, r);
    n + put_report(d, n, report, count)
}

// The line of a refusal.
pub fn put_refused(d: &mut [u8], refusal: Refusal) -> usize
    ensures { Writes result (refused_line (refusal_number refusal)) d.old d.new }
{
    lines::put_line(d, 0, b"refused ", u32::from(refusal) as u64)
}
