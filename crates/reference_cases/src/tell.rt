// Lines of a label and numbers.
use std::io;

pub fn numbers(rt: &impl Print, label: &[u8], numbers: &[u64]) -> io::Result<()> {
    rt.write_all(label)?;
    print!(rt; ":")?;
    for n in numbers {
        print!(rt; " {n}")?;
    }
    println!(rt)
}

// A refusal's number alone.
pub fn refusal(rt: &impl Print, label: &[u8], refusal: u32) -> io::Result<()> {
    numbers(rt, label, &[refusal.into()])
}

// A refusal's number alone, or 0 and the value where there is none.
pub fn value(rt: &impl Print, label: &[u8], refusal: u32, x: u64) -> io::Result<()> {
    if refusal == 0 {
        numbers(rt, label, &[0, x])
    } else {
        numbers(rt, label, &[refusal.into()])
    }
}
