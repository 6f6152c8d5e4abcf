// Four numbers of eight bytes in a row: a position's record, and half of an order's.
ghost use Rattle.std.specs.Prelude.{◌≡◌, ◌++◌, ◌+◌, ◌≤◌, length};
ghost use Rattle.std.proofs.lemmas.List.Edits.{sets};
ghost use Rattle.wire.specs.Le.{bytes_of};

// Writes four numbers where all their bytes are known to be there: with no test.
fn put_whole_four(d: &mut [u8], at: usize, w0: u64, w1: u64, w2: u64, w3: u64)
    requires { at + 32 ≤ length d.old }
    ensures { d.new ≡ sets d.old at (bytes_of 8 w0 ++ bytes_of 8 w1 ++ bytes_of 8 w2 ++ bytes_of 8 w3) }
{
    wire::put_whole_u64(d, at, w0);
    wire::put_whole_u64(d, at + 8, w1);
    wire::put_whole_u64(d, at + 16, w2);
    wire::put_whole_u64(d, at + 24, w3);
}

// Four numbers. One test serves them all where all their bytes are there; where not, each is written by the writer that tests, which is all that the two differ in.
pub fn put_four(d: &mut [u8], at: usize, w0: u64, w1: u64, w2: u64, w3: u64)
    ensures { d.new ≡ sets d.old at (bytes_of 8 w0 ++ bytes_of 8 w1 ++ bytes_of 8 w2 ++ bytes_of 8 w3) }
{
    if 32 <= d.len() && at <= d.len() - 32 {
        put_whole_four(d, at, w0, w1, w2, w3);
    } else if at < d.len() {
        wire::put_u64(d, at, w0);
        wire::put_u64(d, at + 8, w1);
        wire::put_u64(d, at + 16, w2);
        wire::put_u64(d, at + 24, w3);
    }
}
