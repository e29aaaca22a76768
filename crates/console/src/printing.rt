// What a program prints.
use crate::failure::Failure;
use sheets::Refusal;
use std::io::{BufWriter, Stdout, Write};

// Standard output with a buffer. That there is no memory for the buffer is told as want of memory: by `map_err`, since
// elsewhere the same error is told as output that cannot be written.
pub fn output(rt: &HostRuntime) -> Result<BufWriter<Stdout>, Failure> {
    let out = BufWriter::new(rt.alloc(), rt.stdout());
    out.map_err(|_| Failure::Refused(Refusal::NoMemory))
}

// Numbers, one to a line.
pub fn write_lines<W: Write>(out: &mut W, numbers: &[u32]) -> Result<(), Failure> {
    for number in numbers {
        writeln!(out, "{number}")?;
    }
    Ok(())
}
