//! The words of the command line.

use cxl_io::Memory;
use std::env;
use std::io::ErrorKind;
use std::rt::Env;

/// The words of the command line without the name of the program. A word that is no text is in no command, and then there are
/// none. Takes memory.
pub fn words(rt: &(impl Env + AllocGlobal)) -> Result<Vec<String>, Memory> {
    match env::args(rt) {
        Ok(all) => Ok(all.skip(1).collect(rt.alloc())?),
        Err(e) if e.kind() == ErrorKind::OutOfMemory => Err(Memory),
        Err(_) => Ok(Vec::new(rt.alloc())),
    }
}
