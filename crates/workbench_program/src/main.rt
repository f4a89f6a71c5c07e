//! The program: it runs the script on standard input, and writes its output to standard output.
#![tactic(auto)]

ghost use Rattle.std.specs.Prelude.{◌≡◌, ◌≢◌};
ghost use Rattle.std.specs.IoError.{error_kind};
ghost use Rattle.std.specs.declared.io.ErrorKind.TheVariants.{InvalidData};
ghost use Rattle.workbench.specs.Ends.{exit_number};

use bench_io::{StdSink, StdSource};
use std::process::ExitCode;
use std::{env, io};
use workbench::{Status, run};

/// Runs over the words of the command line, standard input and standard output.
fn start(rt: &HostRuntime) -> io::Result<Status> {
    let args: Vec<String> = env::args(rt)?.collect(rt.alloc())?;
    let mut words = Vec::new(rt.alloc());
    for arg in &args {
        words.push(arg.as_str())?;
    }
    if words.is_empty() {
        words.push("workbench")?;
    }
    let mut source = StdSource::new(rt.stdin());
    let mut sink = StdSink::new(rt.stdout());
    let ended = run(rt.alloc(), &words, &mut source, &mut sink);
    Ok(ended.status)
}

/// The status where the words of the command line could not be read: one of them is no text, or there was
/// no memory.
fn status_of(error: &io::Error) -> Status
    ensures no_text { error_kind error.now ≡ InvalidData → result ≡ Status.BadWords }
    ensures no_memory { error_kind error.now ≢ InvalidData → result ≡ Status.NoMemory }
{
    match error.kind() {
        io::ErrorKind::InvalidData => Status::BadWords,
        _ => Status::NoMemory,
    }
}

/// The program's exit status.
fn exit_status(status: Status) -> u8
    ensures { result ≡ exit_number status }
{
    status as u8
}

fn main(rt: HostRuntime) -> ExitCode {
    let status = match start(&rt) {
        Ok(status) => status,
        Err(error) => status_of(&error),
    };
    if status == Status::BadWords {
        let _ = rt.eprintln("usage: workbench [--stats]");
    }
    ExitCode::from(exit_status(status))
}
