// The desk on pairs of files, by the function that the desk program is made of. For each pair a line with the two names, then the reply.
//
// It reads the files, written by `make`, from the folder it is run in. Of a name that `make` does not write the file is missing.
#![tactic(auto)]

use std::io;

// A book and a sheet each.
const PAIRS: [(&str, &str); 13] = [
    // A sample, then books that the desk must read whole, books that it refuses, and a folder in a file's place.
    ("sample.book", "empty.sheet"),
    ("65536.book", "empty.sheet"),
    ("65537.book", "empty.sheet"),
    ("missing.book", "empty.sheet"),
    ("4.book", "empty.sheet"),
    ("damaged.book", "empty.sheet"),
    (".", "empty.sheet"),
    // Sheets: a report, one that has no room, and refusals; the book's comes before the sheet's.
    ("65536.book", "orders.sheet"),
    ("positions.book", "largest.sheet"),
    ("sample.book", "65536.sheet"),
    ("sample.book", "65537.sheet"),
    ("sample.book", "missing.sheet"),
    ("missing.book", "65537.sheet"),
];

fn main(rt: HostRuntime) -> io::Result<()> {
    for (book, sheet) in PAIRS {
        println!(rt; "{book} {sheet}")?;
        desk_files::run(&rt, book.as_bytes(), sheet.as_bytes());
    }
    Ok(())
}
