// The words of a program.
use crate::status::Status;
use std::env;
use std::io::ErrorKind;

/// The words after the program's name. One that is no text is in no grammar.
pub fn words_of(rt: &HostRuntime) -> Result<Vec<String>, Status> {
    let mut args = match env::args(rt) {
        Ok(args) => args,
        Err(error) if error.kind() == ErrorKind::OutOfMemory => return Err(Status::NoMemory),
        Err(_) => return Err(Status::BadWords),
    };
    let _ = args.next();
    let mut words = Vec::new(rt.alloc());
    for word in args {
        words.push(word)?;
    }
    Ok(words)
}
