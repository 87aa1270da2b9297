//! The program: the engine over the files and standard streams of the system.
#![tactic(auto)]

use hamon_engine::{Status, run};
use mon_io::{FileShelf, StdSink, StdSource};
use std::process::ExitCode;
use std::{env, io};

/// The words of the command line, without the program's name. Words that are no text are a faulty command line, as none are.
fn words_of(rt: &HostRuntime) -> io::Result<Vec<String>> {
    match env::args(rt) {
        Ok(args) => Ok(args.skip(1).collect(rt.alloc())?),
        Err(error) if error.kind() == io::ErrorKind::OutOfMemory => Err(error),
        Err(_) => Ok(Vec::new(rt.alloc())),
    }
}

fn main(rt: HostRuntime) -> ExitCode {
    let Ok(words) = words_of(&rt) else {
        return ExitCode::from(Status::Memory.code());
    };
    let mut shelf = FileShelf::new(&rt);
    let mut log = StdSource::new(rt.stdin());
    let mut out = StdSink::new(rt.stdout());
    let mut diag = StdSink::new(rt.stderr());
    let status = run(
        rt.alloc(),
        &words,
        &mut shelf,
        &mut log,
        &mut out,
        &mut diag,
    );
    ExitCode::from(status.code())
}
