// The desk on two files: their bytes are read into buffers, the reply is made of them, and it is printed.
//
// `answer` decides what is printed, by the buffers and by how many bytes were read into each, and is proved to be the definition's reply. The sizes of the
// buffers are types: 65,537 bytes for a file, one more than it may have, so that a larger one is seen as such. `run` is what the desk program and
// the program `desk_cases` are made of. Of it no contract says what is read and written, since none can of a call of the system: that the first bytes of each
// buffer are those of its file, so many as are counted, and that the first bytes of `out` are written, is read in the lines below and run by `desk_cases`.
#![tactic(auto)]

ghost use Rattle.std.specs.Prelude.{◌≡◌, ◌≤◌, length};
ghost use Rattle.wire.specs.Table.{padded};
ghost use Rattle.desk_files.specs.Printed.{printed};

use std::io::{ErrorKind, Read};
use std::rt::Files;
use std::{fs, io, str};

// Entry. The reply to the first `n` bytes of `book` and the first `m` of `sheet`, at the start of `out`, with zeros after it; its length is returned. A count
// above 65,537 stands for the whole buffer. The reply always fits, so the length is never the 0. Nothing is
// allocated: a buffer has room for any file, and how much of it was read stands beside it.
pub fn answer(
    book: &[u8; 65537],
    n: usize,
    sheet: &[u8; 65537],
    m: usize,
    out: &mut [u8; 65536],
) -> usize
    ensures { (result ≡ length (printed book.now n sheet.now m)) × (out.new ≡ padded 65536 (printed book.now n sheet.now m)) }
{
    reply::reply(wire::part(book, 0, n), wire::part(sheet, 0, m), out).unwrap_or(0)
}

// Says on standard error what failed, and why. That it cannot be said is passed over.
fn fail(rt: &impl Eprint, what: &str, error: &io::Error) {
    let _ = eprintln!(rt; "{what}: {error}");
}

// Reads a file from its start into `buf`, as much as there is room for, and returns how many bytes came. Where reading fails it says so on standard error, and
// what came before is kept, so this is a loop: `read_exact` does not say how much that is.
fn read_file(rt: &impl Eprint, file: &mut impl Read, path: &str, buf: &mut [u8]) -> usize
    ensures { result ≤ length buf.new }
{
    let mut n = 0;
    while n < buf.len() {
        match file.read(&mut buf[n..]) {
            Ok(0) => break,
            Ok(more) => n += more,
            Err(error) => {
                fail(rt, path, &error);
                break;
            }
        }
    }
    n
}

// The same of a file by its path. A missing file is read as empty; so is one that cannot be opened, which is said on standard error; one whose
// reading fails is read as far as it came, and that is said there too.
fn load_by_text<R: Files + Eprint>(rt: &R, path: &str, buf: &mut [u8; 65537]) -> usize {
    match fs::open(rt, path) {
        Ok(mut file) => read_file(rt, &mut file, path, buf),
        Err(error) => {
            if error.kind() != ErrorKind::NotFound {
                fail(rt, path, &error);
            }
            0
        }
    }
}

// The same by the path's bytes. std opens a path that is text: one that is no UTF-8 cannot be opened, which is said as of any other, its bytes escaped.
fn load<R: Files + Eprint>(rt: &R, path: &[u8], buf: &mut [u8; 65537]) -> usize {
    match str::from_utf8(path) {
        Ok(text) => load_by_text(rt, text, buf),
        Err(error) => {
            let _ = eprintln!(rt; "{}: {error}", path.escape_ascii());
            0
        }
    }
}

// Writes the first `len` bytes of `out` to standard output. That they cannot be written is said on standard error.
fn print(rt: &(impl Print + Eprint), out: &[u8; 65536], len: usize) {
    if let Err(error) = rt.write_all(wire::part(out, 0, len)) {
        fail(rt, "standard output", &error);
    }
}

// Reads a book and a sheet by their paths and prints the reply to them. Paths are bytes, of which a `&str` would ask more. Nothing is allocated: fixed buffers,
// and how many bytes of each count.
pub fn run(rt: &(impl Files + Print + Eprint), book_path: &[u8], sheet_path: &[u8]) {
    let mut book = [0u8; 65537];
    let n = load(rt, book_path, &mut book);
    let mut sheet = [0u8; 65537];
    let m = load(rt, sheet_path, &mut sheet);
    let mut out = [0u8; 65536];
    let len = answer(&book, n, &sheet, m, &mut out);
    print(rt, &out, len);
}
