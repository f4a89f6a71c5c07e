//! The words of rows.

use crate::benches::told_bench;
use crate::faults::{told_each_read, told_each_size, told_each_write, told_faulty};
use crate::runs::{told_end, told_letters, told_run, told_words};
use crate::scripts::{long_of, script_of};
use crate::sinks::{told_broken_writer, told_plain_sink, told_sink, told_writer};
use crate::sources::{told_broken_reader, told_plain_source, told_reader, told_source};
use std::alloc::{AllocError, Global};

/// The answer to a row of a source or a sink, call by call.
fn answer_calls(alloc: Global, word: &str, rest: &str) -> Result<String, AllocError> {
    match word {
        "plain_source" => told_plain_source(alloc, rest),
        "source" => told_source(alloc, rest),
        "reader" => told_reader(alloc, rest),
        "broken_reader" => told_broken_reader(alloc, rest),
        "plain_sink" => told_plain_sink(alloc, rest),
        "sink" => told_sink(alloc, rest),
        "writer" => told_writer(alloc, rest),
        "broken_writer" => told_broken_writer(alloc, rest),
        _ => String::from_str(alloc, "no word of a row"),
    }
}

/// The answer to a row of a script whose runs fail, or move few bytes at a time.
fn answer_faulty(alloc: Global, word: &str, rest: &str) -> Result<String, AllocError> {
    match word {
        "faulty" => told_faulty(alloc, rest),
        "reads" => told_each_read(alloc, &script_of(alloc, rest)?),
        "writes" => told_each_write(alloc, &script_of(alloc, rest)?),
        "sizes" => told_each_size(alloc, &script_of(alloc, rest)?),
        _ => answer_calls(alloc, word, rest),
    }
}

/// The answer to the row.
///
/// - `run SCRIPT`: how the run ends, and what it writes.
/// - `long COUNT;FRONT;PART;END`: the same for the front, as many times the part, and the end.
/// - `end COUNT;FRONT;PART;END`: the same with the last three lines alone, and how many there are.
/// - `words WORD ..;SCRIPT`: the same with more words of the command line.
/// - `bench SCRIPT`: the version, the pins left and the rows of the bench that is handed back.
/// - `letters COUNT`: whether the tokens of so many letters are told as they are worked out line by line.
/// - `faulty SIZE;READS;WRITES;SCRIPT`: the same where the source and the sink move so many bytes at most at a
///   time, and fail at the calls with these numbers.
/// - `reads SCRIPT`: whether the run ends in a fault of the source at each of its calls, byte by byte.
/// - `writes SCRIPT`: whether it ends in a fault of the sink at each of its calls, with what was written before.
/// - `sizes SCRIPT`: whether it ends and writes the same with each size of 2 to 63.
///
/// A source or a sink alone, with what each read or write gives:
///
/// - `plain_source COUNT SIZE;BYTES`: so many reads, each into so many bytes, which are dots before.
/// - `source COUNT SIZE;MOST;FAILING;BYTES`: the same from a source that gives so many bytes at most at a time, and
///   fails at the calls with these numbers.
/// - `reader COUNT SIZE;BYTES` and `broken_reader COUNT SIZE`: the same from readers of std.
/// - `plain_sink WORD ..`, `sink MOST;FAILING;WORD ..`, `writer WORD ..` and `broken_writer WORD ..`: a write of each
///   word, and what was taken.
pub(crate) fn answer(alloc: Global, row: &str) -> Result<String, AllocError> {
    let (word, rest) = match row.split_once(' ') {
        Some((word, rest)) => (word, rest),
        None => (row, ""),
    };
    match word {
        "run" => told_run(alloc, &script_of(alloc, rest)?),
        "long" => told_run(alloc, &long_of(alloc, rest)?),
        "end" => told_end(alloc, &long_of(alloc, rest)?),
        "words" => told_words(alloc, rest),
        "bench" => told_bench(alloc, &script_of(alloc, rest)?),
        "letters" => told_letters(alloc, rest),
        _ => answer_faulty(alloc, word, rest),
    }
}
