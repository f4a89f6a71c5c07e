//! Runs each example in the folder that it is run in, and tells whether it gives what is written beside it.
//!
//! An example is a script `NAME.script` with its output `NAME.out`. Those whose name begins with `laziness` are run with the
//! option `--stats`. So is each block of the page `LANGUAGE.md` that
//! is said to give the next one.
#![tactic(auto)]

ghost use Rattle.std.specs.Prelude.{◌<◌, length};

mod language;

use bench_io::{PlainSink, PlainSource};
use language::count_blocks;
use std::alloc::{AllocError, Global};
use std::{fs, io};
use workbench::run;

/// What a run with these words over the script writes.
fn output_with(alloc: Global, words: &[&str], script: Vec<u8>) -> Result<Vec<u8>, AllocError>
    requires { 0 < length words.now }
{
    let mut source = PlainSource::new(script);
    let mut sink = PlainSink::new(alloc)?;
    run(alloc, words, &mut source, &mut sink);
    sink.taken().to_vec(alloc)
}

/// What a run over the script writes.
pub(crate) fn output_of(alloc: Global, script: Vec<u8>) -> Result<Vec<u8>, AllocError> {
    output_with(alloc, &["workbench"], script)
}

/// What a run over the script writes that tells how lazy each command was, where the example is one of laziness.
fn output_for(alloc: Global, name: &str, script: Vec<u8>) -> Result<Vec<u8>, AllocError> {
    if name.starts_with("laziness") {
        return output_with(alloc, &["workbench", "--stats"], script);
    }
    output_of(alloc, script)
}

/// The names of the scripts in the folder, in order.
fn names_of_scripts(rt: &HostRuntime) -> io::Result<Vec<String>> {
    let mut names = Vec::new(rt.alloc());
    for entry in fs::read_dir(rt, ".")? {
        let entry = entry?;
        if let Some(name) = entry.file_name().strip_suffix(".script") {
            names.push(name.to_string(rt.alloc())?)?;
        }
    }
    names.sort()?;
    Ok(names)
}

/// Whether the example gives what is written beside it.
fn is_as_written(rt: &HostRuntime, name: &str) -> io::Result<bool> {
    let script = fs::read(rt, format!(in rt.alloc(); "{name}.script")?)?;
    let wanted = fs::read(rt, format!(in rt.alloc(); "{name}.out")?)?;
    Ok(output_for(rt.alloc(), name, script)? == wanted)
}

fn main(rt: HostRuntime) -> io::Result<()> {
    for name in &names_of_scripts(&rt)? {
        let answer = match is_as_written(&rt, name.as_str())? {
            true => "as written",
            false => "DIFFERS",
        };
        println!(rt; "{name}: {answer}")?;
    }
    let page = fs::read_to_string(&rt, "LANGUAGE.md")?;
    let (right, wrong) = count_blocks(rt.alloc(), page.as_str())?;
    println!(rt; "LANGUAGE.md: {right} as written, {wrong} DIFFER")
}
