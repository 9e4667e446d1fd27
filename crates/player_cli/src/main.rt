//! The player's program: the words after its name are a command, and its exit code is the status of
//! the run.
#![tactic(auto)]

use player_session::{Status, player};
use std::process::ExitCode;
use std::rt::Env;
use std::{env, io};
use vf_outside::{FileShelf, OpenGate, StdSink};

/// The words after the program's name. Words that are no text are no words, which is no command.
fn words<R: Env + AllocGlobal>(rt: &R) -> Result<Vec<String>, Status> {
    match env::args(rt) {
        Ok(args) => args.skip(1).collect(rt.alloc()).map_err(|_| Status::Memory),
        Err(error) if error.kind() == io::ErrorKind::OutOfMemory => Err(Status::Memory),
        Err(_) => Ok(Vec::new(rt.alloc())),
    }
}

fn main(rt: HostRuntime) -> ExitCode {
    let words = match words(&rt) {
        Ok(words) => words,
        Err(status) => return ExitCode::from(status.code()),
    };
    let mut out = StdSink::out(rt.stdout());
    let mut notes = StdSink::err(rt.stderr());
    let mut shelf = FileShelf::new(rt);
    let status = player(
        rt.alloc(),
        &words,
        &mut shelf,
        &mut out,
        &mut notes,
        &OpenGate,
    );
    ExitCode::from(status.code())
}
