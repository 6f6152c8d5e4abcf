// What the programs that read a file of cases share: the file, a line of the answer, and zeros.
#![tactic(auto)]

ghost use Rattle.std.specs.Prelude.{◌≡◌, ◌<◌, ◌≤◌, IfOk, IfSome, None, length, take};
ghost use Rattle.std.specs.Iterator.{at_most};
ghost use Rattle.std.specs.Io.KnownBytes.{Consumes, IsAtEnd};
ghost use Rattle.wire.specs.Layout.{refused};

use std::io::Read;
use std::rt::Files;
use std::{fs, io};
use wire::refusal::Refusal;

// Opens a file in the folder that the program is run in. Where that fails it says so on standard error, and returns the error.
pub fn open_file<R: Files + Eprint>(rt: &R, path: &str) -> io::Result<R::File> {
    let opened = fs::open(rt, path);
    if let Err(e) = &opened {
        eprintln!(rt; "{path}: {e}")?;
    }
    opened
}

// The same of `cases.bin`.
pub fn open<R: Files + Eprint>(rt: &R) -> io::Result<R::File> {
    open_file(rt, "cases.bin")
}

// Reads until `buf` is full or the input ends, and returns how many bytes came: they stand at the start of `buf`, and are what the input had next.
// `read_exact` does not say how many bytes came where the input ends, so this is a loop.
pub fn read_full<R: Read>(input: &mut R, buf: &mut [u8]) -> io::Result<usize>
    ensures bound { IfOk result (λ n. n ≤ length buf.new) }
    ensures bytes { IfOk result (λ n. Consumes (R.remaining input.old) (R.remaining input.new) (take n buf.new)) }
    ensures end { IfOk result (λ n. n < length buf.new → IsAtEnd (R.remaining input.new)) }
{
    let mut done = 0;
    while done < buf.len() {
        let n = input.read(&mut buf[done..])?;
        if n == 0 {
            break;
        }
        done += n;
    }
    Ok(done)
}

// The next `N` bytes of the input, or none where fewer are left.
pub fn next<const N: usize, R: Read>(input: &mut R) -> io::Result<Option<[u8; N]>>
    ensures whole { IfOk result (λ o. IfSome o (λ case. Consumes (R.remaining input.old) (R.remaining input.new) case)) }
    ensures end { IfOk result (λ o. o ≡ None → IsAtEnd (R.remaining input.new)) }
{
    let mut case = [0; N];
    let n = read_full(input, &mut case)?;
    Ok(if n == N { Some(case) } else { None })
}

// The cases of a file, of `N` bytes each, to the first that is not whole; 1,000 at most.
#[derive(Drop)]
pub struct Cases<R, const N: usize> {
    pub input: R,
    pub left: u32,
}

pub fn all<const N: usize, R>(input: R) -> Cases<R, N>
    ensures { result ≡ record { input = input; left = 1000 } }
{
    Cases { input, left: 1000 }
}

impl<R: Read + Drop, const N: usize> Iterator for Cases<R, N> {
    type Item = io::Result<[u8; N]>;

    ghost next_gives = { λ s r t. IfSome r (λ x. IfOk x (λ case. Consumes (R.remaining s.input) (R.remaining t.input) case)) };

    ghost remaining = { λ s. at_most s.left };

    fn next(&mut self) -> Option<io::Result<[u8; N]>> {
        self.left = self.left.checked_sub(1)?;
        next(&mut self.input).transpose()
    }

    fn size_hint(&self) -> (usize, Option<usize>) {
        (0, Some(self.left as usize))
    }
}

// What a line of an answer begins with: what the case is.
pub fn tell_label(rt: &impl Print, label: &[u8]) -> io::Result<()> {
    rt.write_all(label)?;
    print!(rt; ": ")
}

// The number of a refusal, 0 for none.
pub fn refusal<T: Drop>(answer: Result<T, Refusal>) -> u32
    ensures { result ≡ refused answer }
{
    answer.err().map_or(0, u32::from)
}

// A byte more than a book may have.
pub fn zeros() -> [u8; 1048577]
    ensures { 1048577 ≡ length result }
{
    [0; 1048577]
}
