//! cccheck: checks the contracts of methods in compiled .NET assemblies without running them.
#![tactic(auto, using(cc_base::proofs::CountLemmas::counts))]

use cc_base::Sink;
use check_driver::{NO_MEMORY, run_words};
use disk::Disk;
use std::alloc::AllocError;
use std::env;
use std::io::ErrorKind;
use std::process::ExitCode;
use std::rt::Env;
use stream::Stream;
use widening_engine::Dirty;

mod disk;
mod replacing;
mod stream;

/// The words after the program's name. Where one of them is no text there are none.
fn words(rt: &(impl Env + AllocGlobal)) -> Result<Vec<String>, AllocError> {
    let mut words = Vec::new(rt.alloc());
    match env::args(rt) {
        Ok(arguments) => {
            for word in arguments.skip(1) {
                words.push(word)?;
            }
        }
        Err(error) if error.kind() == ErrorKind::OutOfMemory => return Err(AllocError),
        Err(_) => {}
    }
    Ok(words)
}

fn main(rt: HostRuntime) -> ExitCode {
    let mut files = Disk::new(rt);
    let mut out = Stream::new(rt.stdout());
    let mut err = Stream::new(rt.stderr());
    let Ok(words) = words(&rt) else {
        // As run_words does where memory runs out later.
        let _ = err.put(rt.alloc(), NO_MEMORY);
        return ExitCode::from(7);
    };
    let mut finder = Dirty::new(rt.alloc());
    ExitCode::from(run_words(
        rt.alloc(),
        &words,
        &mut files,
        &mut out,
        &mut err,
        &mut finder,
    ))
}
