// The desk program's book and sheet, and what it prints.
use crate::{example, tell};
use std::io;

pub fn sample(rt: &impl Print, e: &[u8]) -> io::Result<()> {
    let mut out = [0; 1024];
    let reply = reply::reply(example::first(e), example::second(e), &mut out);
    let n = log_answers::reply_numbers(reply);
    tell::refusal(rt, example::label(e), n.refusal)?;
    rt.write_all(wire::part(&out, 0, n.a as usize))
}
