// The symbols' keys in order, and what was last said of each symbol in an array beside them. A sorted map would need the heap: the library allocates nothing.
// So the keys are the first n of an array of a fixed size, and the values are arrays beside it.
ghost use Rattle.std.specs.Prelude.{◌≡◌, ◌+◌, ◌^◌, ◌≤◌, ◌<◌, cond, ltb, length, take, ◌++◌, ◌-◌};
ghost use Rattle.wire.specs.Table.{records};
ghost use Rattle.drift.specs.Rows.{row_of};
ghost use Rattle.drift.specs.Symbols.{inserted};
ghost use Rattle.drift.specs.Code.{key, len_of, Rising, Place, found, Gathered, Marked, Noted};

use crate::rows::Rows;

// The key of the symbol that has the number x: its bytes the other way round. A key's key is the number again.
pub fn key_of(x: u64) -> u64
    ensures { result ≡ key x }
{
    x.swap_bytes()
}

// The length of the symbol that has the number x.
pub fn len_of(x: u64) -> u64
    ensures { result ≡ len_of x }
{
    (71 - u64::from(x.leading_zeros())) / 8
}

// `half` where `below` holds, else 0. Of an `if` or a product the compiler makes a branch, which a processor guesses wrong every other time: `fill` of 1,024
// rows then takes more than twice as long.
fn step(half: usize, below: bool) -> usize
    requires { half < 2 ^ 63 }
    ensures { result ≡ cond below half 0 }
{
    (half << (below as usize)) - half
}

// Where x stands, or would stand. It is no `binary_search`: `step` says why. That the keys rise stays a clause: `insert` has it of a
// part of a `&mut` slice, and the prover covers no ghost field beside one.
fn place(keys: &[u64], x: u64) -> usize
    requires { Rising keys.now }
    ensures { Place keys.now (length keys.now) x result }
{
    let mut low = 0;
    let mut size = keys.len();
    while 0 < size {
        let half = size - size / 2;
        low += step(half, keys[low + half - 1] < x);
        size = size / 2;
    }
    low
}

// Whether x stands at p.
fn has(keys: &[u64], p: usize, x: u64) -> bool
    ensures { result ≡ found keys.now (length keys.now) p x }
{
    p < keys.len() && keys[p] == x
}

// Moves all elements but the last one place up. It has no other start, so that it is compiled to one move of memory, as `copy_within` is not: a reconcile of
// 1,024 rows then takes a fifth longer.
fn move_up(keys: &mut [u64])
    requires { 0 < length keys.old }
    ensures { keys.new ≡ take 1 keys.old ++ take (length keys.old - 1) keys.old }
{
    for j in (1..keys.len()).rev() {
        keys[j] = keys[j - 1];
    }
}

// x put in its place among the first n; the answer is how many are taken then.
fn insert(keys: &mut [u64], n: usize, x: u64) -> usize
    requires room { n < length keys.old }
    requires rising { Rising (take n keys.old) }
    ensures one_more { result ≤ n + 1 }
    ensures in_place { take result keys.new ≡ inserted ltb x (take n keys.old) }
{
    let p = place(&keys[..n], x);
    if has(&keys[..n], p, x) {
        return n;
    }
    move_up(&mut keys[p..=n]);
    keys[p] = x;
    n + 1
}

// The symbol of each row put in its place.
pub fn gather(rows: Rows, keys: &mut [u64], n: usize) -> usize
    requires room { n + rows.count ≤ length keys.old }
    requires rising { Rising (take n keys.old) }
    ensures { Gathered keys.old n (records row_of rows.entry.width rows.entry.count rows.entry.bytes.now) keys.new result }
{
    let mut taken = n;
    for i in 0..rows.count {
        taken = insert(keys, taken, rows.key(i));
    }
    taken
}

// What is said of x, where it is among the keys.
fn note(keys: &[u64], x: u64, bits: u64, values: &mut [u64])
    requires room { length keys.now ≤ length values.old }
    requires rising { Rising keys.now }
    ensures { Marked keys.now (length keys.now) x bits values.old values.new }
{
    let p = place(keys, x);
    if has(keys, p, x) {
        values[p] = bits;
    }
}

// What is last said of each key's symbol.
pub fn last_values(rows: Rows, keys: &[u64], values: &mut [u64])
    requires room { length keys.now ≤ length values.old }
    requires rising { Rising keys.now }
    ensures { Noted keys.now (length keys.now) (records row_of rows.entry.width rows.entry.count rows.entry.bytes.now) values.old values.new }
{
    for i in 0..rows.count {
        note(keys, rows.key(i), rows.bits(i), values);
    }
}
