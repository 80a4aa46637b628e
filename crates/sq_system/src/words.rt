// The words of a program.
use std::alloc::AllocError;
use std::env;
use std::io::ErrorKind;

/// The words after the program's name. A word that isn't UTF-8 makes them none, as if there were no words. Fails for want
/// of memory alone.
pub fn words_after_name<R: env::Env + AllocGlobal>(rt: &R) -> Result<Vec<String>, AllocError> {
    match env::args(rt) {
        Ok(args) => args.skip(1).collect(rt.alloc()),
        Err(e) if e.kind() == ErrorKind::OutOfMemory => Err(AllocError),
        Err(_) => Ok(Vec::new(rt.alloc())),
    }
}
