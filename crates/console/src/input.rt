// The words of the command line, and files by their names.
use crate::failure::Failure;
use std::{env, fs};

// All words after the program's own name. A word that is no text is wrong use: by `map_err`, since elsewhere the same error
// is told as output that cannot be written.
pub fn arguments(rt: &HostRuntime, usage: &'static str) -> Result<Vec<String>, Failure> {
    let args = env::args(rt).map_err(|_| Failure::Usage(usage))?;
    Ok(args.skip(1).collect(rt.alloc())?)
}

// A file, whole.
pub fn file(rt: &HostRuntime, name: &str) -> Result<Vec<u8>, Failure> {
    // Not by map_err: to keep the name can fail too.
    match fs::read(rt, name) {
        Ok(bytes) => Ok(bytes),
        Err(_) => Err(Failure::Unreadable(String::from_str(rt.alloc(), name)?)),
    }
}
