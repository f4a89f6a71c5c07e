//! The top call: a script from a source, and the replies to a sink.

ghost use Rattle.std.specs.Prelude.{◌≡◌, ◌≢◌, ◌≤◌, ◌<◌, ◌+◌, ◌↔◌, ◌⊎◌, ◌++◌, [], ℕ, List, length, Some, None, false, OnOk, OnErr, IfOk, IfSome, IsErrOf};
ghost use Rattle.std.specs.List.{AllByRecursion};
ghost use Rattle.bench_io.specs.Faults.{HasRisen};
ghost use Rattle.bench_io.specs.Known.{Takes};
ghost use Rattle.script_text.specs.declared.command.Script.{Script as AScript};
ghost use Rattle.script_text.specs.declared.bad_script.BadScript.{BadScript as ABadScript};
ghost use Rattle.script_text.specs.declared.limits.TheConstants.{SCRIPT_LIMIT, COMMAND_LIMIT};
ghost use Rattle.script_text.specs.Scripts.{SpellsScript, IsFirstBad};
ghost use Rattle.workbench.specs.declared.top_call.TheConstants.{WRITE_SIZE};
ghost use Rattle.workbench.specs.Ends.{IsLate, IsFree, EndsBy, IsSilent, StopsBeforeEnd};
ghost use Rattle.replies.specs.Blocks.{IsProperBlock};
ghost use Rattle.edit_log.specs.History.{empty_grammar};
ghost use Rattle.pin_rule.specs.Layout.{full_sizes};
ghost use Rattle.version_store.specs.Meaning.{IsNewBench};
ghost use Rattle.workbench.specs.Serving.{HasBench, bench_in};
ghost use Rattle.workbench.specs.Runs.{AnswersAll, WritesAll, StopsInReplies, StopsInOutput, RunsWhole, RunsBad, StopsEarly};
ghost use Rattle.clap.specs.Walk.{texts};
ghost use Rattle.workbench.specs.Words.{TakesWords, asks_stats};
ghost use Rattle.workbench.specs.Output.{IsOutput, IsBadScript, HasNoStats};
ghost use Rattle.workbench.specs.Pieces.{TakesPrefix, TakesProperPrefix, GivesCount, TellsBytes};
ghost use Rattle.replies.specs.Lines.{bad_line};

use crate::server::Server;
use crate::sink_writing::write_all;
use crate::source_reading::{ReadError, read_all};
use crate::words::{WordsError, read_words};
use bench_io::{Fault, Sink, Source};
use graph_content::GraphRows;
use replies::put_bad_script;
use script_text::{BadScript, Block, SCRIPT_LIMIT, ScriptError, read_script};
use std::alloc::Global;
use version_store::bench::Bench;

/// How many bytes of replies are gathered before they are written.
const WRITE_SIZE: usize = 65_536;

/// How a run ended. The number is the program's exit status.
#[derive(Clone, Copy, Debug, PartialEq, Eq)]
pub enum Status {
    /// The whole script was read, it is good, and all its replies were written.
    Done = 0,
    /// The words are not taken: behind the program's name only `--stats` may stand, once, and then `--`.
    BadWords = 2,
    /// The source failed.
    ReadFault = 3,
    /// The sink failed.
    WriteFault = 4,
    /// There was no memory.
    NoMemory = 5,
    /// The script has a bad line. No command was run, and the line that tells it was written.
    BadScript = 6,
    /// The source gave one byte more than a script may have.
    ScriptTooLong = 7,
}

/// How a run ended, and what is left of it.
#[derive(Drop)]
pub struct Ended {
    /// How it ended.
    pub status: Status,
    /// The bench over which all commands ran. It is there exactly with [`Status::Done`].
    pub bench: Option<Bench<GraphRows>>,
}

/// A run that ended so, before its last command was answered.
fn without_bench(status: Status) -> Ended
    ensures status { result.status ≡ status }
    ensures bench { result.bench ≡ None }
{
    Ended {
        status,
        bench: None,
    }
}

/// A run that answered all its commands.
fn with_bench(server: Server) -> Ended
    ensures status { result.status ≡ Status.Done }
    ensures bench { bench_in result.bench ≡ server.bench }
{
    Ended {
        status: Status::Done,
        bench: server.into_bench(),
    }
}

/// Writes what was gathered, where it is much.
fn flush_full<K: Sink>(sink: &mut K, out: &mut Vec<u8>) -> Result<(), Fault>
    ensures written { OnOk result ((gone : List ℕ) × Takes (K.taken sink.old) (K.taken sink.new) gone
        × (out.old.items ≡ gone ++ out.new.items)) }
    ensures little { OnOk result (length out.new.items < WRITE_SIZE) }
    ensures refused { OnErr result (TakesPrefix (K.taken sink.old) (K.taken sink.new) out.old.items) }
    ensures counted { K.faults sink.old ≤ K.faults sink.new }
    ensures failed { IsErrOf result Fault.Failed → HasRisen (K.faults sink.old) (K.faults sink.new) }
{
    if out.len() < WRITE_SIZE {
        return Ok(());
    }
    write_all(sink, out)?;
    out.clear();
    Ok(())
}

/// Writes the replies to the blocks, which this server of no command so far answers.
fn answer_each<K: Sink>(
    alloc: Global,
    blocks: &[Block],
    stats: bool,
    server: &mut Server,
    sink: &mut K,
) -> Result<(), Fault>
    requires proper { AllByRecursion IsProperBlock blocks.now }
    requires few { length blocks.now ≤ COMMAND_LIMIT }
    requires grammar { server.old.grammar ≡ empty_grammar }
    requires bench { HasBench server.old.bench (IsNewBench full_sizes) }
    ensures whole { OnOk result (HasBench server.new.bench (AnswersAll stats (K.taken sink.old) (K.taken sink.new) blocks.now)) }
    ensures front { OnErr result (StopsInReplies stats (K.taken sink.old) (K.taken sink.new) blocks.now) }
    ensures counted { K.faults sink.old ≤ K.faults sink.new }
    ensures failed { IsErrOf result Fault.Failed → HasRisen (K.faults sink.old) (K.faults sink.new) }
{
    let mut out = Vec::new(alloc);
    for block in blocks {
        server.answer(alloc, block, stats, &mut out)?;
        flush_full(sink, &mut out)?;
    }
    write_all(sink, &out)?;
    Ok(())
}

/// Writes the replies to the blocks, which run over one new bench of the largest sizes.
fn answer_all<K: Sink>(
    alloc: Global,
    blocks: &[Block],
    stats: bool,
    sink: &mut K,
) -> Result<Server, Fault>
    requires proper { AllByRecursion IsProperBlock blocks.now }
    requires few { length blocks.now ≤ COMMAND_LIMIT }
    ensures whole { IfOk result (λ server. HasBench server.bench (AnswersAll stats (K.taken sink.old) (K.taken sink.new) blocks.now)) }
    ensures front { OnErr result (StopsInReplies stats (K.taken sink.old) (K.taken sink.new) blocks.now) }
    ensures counted { K.faults sink.old ≤ K.faults sink.new }
    ensures failed { IsErrOf result Fault.Failed → HasRisen (K.faults sink.old) (K.faults sink.new) }
{
    let mut server = Server::open(alloc)?;
    answer_each(alloc, blocks, stats, &mut server, sink)?;
    Ok(server)
}

/// Writes the line for a bad script.
fn refuse<K: Sink>(alloc: Global, bad: BadScript, sink: &mut K) -> Result<(), Fault>
    ensures whole { OnOk result (Takes (K.taken sink.old) (K.taken sink.new) (bad_line bad)) }
    ensures front { OnErr result (TakesProperPrefix (K.taken sink.old) (K.taken sink.new) (bad_line bad)) }
    ensures counted { K.faults sink.old ≤ K.faults sink.new }
    ensures failed { IsErrOf result Fault.Failed → HasRisen (K.faults sink.old) (K.faults sink.new) }
{
    let mut out = Vec::new(alloc);
    put_bad_script(&mut out, bad)?;
    write_all(sink, &out)?;
    Ok(())
}

/// The status of a run whose write failed so.
fn status_of(fault: Fault) -> Status
    ensures failed { fault ≡ Fault.Failed → result ≡ Status.WriteFault }
    ensures no_memory { fault ≡ Fault.NoMemory → result ≡ Status.NoMemory }
    ensures late { IsLate result }
    ensures stops { StopsBeforeEnd result }
{
    match fault {
        Fault::Failed => Status::WriteFault,
        Fault::NoMemory => Status::NoMemory,
    }
}

/// The status with which the line for a bad script was written.
fn status_after(written: Result<(), Fault>) -> Status
    ensures ok { OnOk written (result ≡ Status.BadScript) }
    ensures failed { IsErrOf written Fault.Failed → result ≡ Status.WriteFault }
    ensures no_memory { IsErrOf written Fault.NoMemory → result ≡ Status.NoMemory }
    ensures late { IsLate result }
    ensures not_done { result ≢ Status.Done }
{
    match written {
        Ok(()) => Status::BadScript,
        Err(fault) => status_of(fault),
    }
}

/// Reads the script, and writes the replies to its commands or the line for its first bad line.
fn run_script<K: Sink>(alloc: Global, script: &[u8], stats: bool, sink: &mut K) -> Ended
    requires { length script.now ≤ SCRIPT_LIMIT }
    ensures late { IsLate result.status }
    ensures done { result.status ≡ Status.Done → (read : AScript) × SpellsScript script.now read
        × WritesAll stats (K.taken sink.old) (K.taken sink.new) read.blocks result.bench }
    ensures no_bench { result.status ≢ Status.Done → result.bench ≡ None }
    ensures bad_script { result.status ≡ Status.BadScript → (bad : ABadScript) × IsFirstBad script.now bad
        × Takes (K.taken sink.old) (K.taken sink.new) (bad_line bad) }
    ensures write_fault { result.status ≡ Status.WriteFault
        → HasRisen (K.faults sink.old) (K.faults sink.new) }
    ensures stopped { result.status ≡ Status.WriteFault → StopsInOutput stats (K.taken sink.old) (K.taken sink.new) script.now }
    ensures no_memory { result.status ≡ Status.NoMemory → (K.taken sink.new ≡ K.taken sink.old)
        ⊎ StopsInOutput stats (K.taken sink.old) (K.taken sink.new) script.now }
    ensures counted { K.faults sink.old ≤ K.faults sink.new }
{
    let read = match read_script(alloc, script) {
        Ok(read) => read,
        Err(ScriptError::Bad(bad)) => {
            let written = refuse(alloc, bad, sink);
            return without_bench(status_after(written));
        }
        Err(ScriptError::NoMemory) => return without_bench(Status::NoMemory),
    };
    let server = match answer_all(alloc, read.blocks.as_slice(), stats, sink) {
        Ok(server) => server,
        Err(fault) => return without_bench(status_of(fault)),
    };
    with_bench(server)
}

/// Reads a script from the source and writes the replies to its commands, with the lines that tell how lazy each was where
/// they are asked for, or one line where it has a bad line.
///
/// The words are those of the command line, of which the first is the program's name. Where they are refused, nothing is
/// read or written. Nothing is written before the script has been read whole, and no command is run before all its lines
/// were found good. Want of memory may end a run at any point.
pub fn run<S: Source, K: Sink>(alloc: Global, words: &[&str], source: &mut S, sink: &mut K) -> Ended
    requires { 0 < length words.now }

    // Behind the program's name only the flag may stand.
    ensures bad_words { result.status ≡ Status.BadWords → TakesWords (texts words.now) → ⊥ }
    ensures only_bad_words { (TakesWords (texts words.now) → ⊥) → (result.status ≡ Status.BadWords) ⊎ (result.status ≡ Status.NoMemory) }
    ensures unread { (TakesWords (texts words.now) → ⊥) → (source.new ≡ source.old) × (sink.new ≡ sink.old) }

    // A run to the end.
    ensures done { result.status ≡ Status.Done
        → RunsWhole (asks_stats (texts words.now)) (S.left source.old) (S.left source.new) (K.taken sink.old) (K.taken sink.new) result.bench }
    ensures no_bench { result.status ≢ Status.Done → result.bench ≡ None }
    ensures bad_script { result.status ≡ Status.BadScript
        → RunsBad (S.left source.old) (S.left source.new) (K.taken sink.old) (K.taken sink.new) }
    ensures good_script { result.status ≡ Status.Done
        → IfSome (S.left source.old) (λ script. IsBadScript script → ⊥) }
    ensures too_long { result.status ≡ Status.ScriptTooLong
        → GivesCount (S.left source.old) (S.left source.new) (SCRIPT_LIMIT + 1) }

    // Where the bytes are told, a bad script and one that is too long are called so.
    ensures only_bad_script { TellsBytes (S.left source.old) → TellsBytes (K.taken sink.old)
        → RunsBad (S.left source.old) (S.left source.new) (K.taken sink.old) (K.taken sink.new) → result.status ≡ Status.BadScript }
    ensures only_too_long { TellsBytes (S.left source.old) → GivesCount (S.left source.old) (S.left source.new) (SCRIPT_LIMIT + 1)
        → (result.status ≡ Status.ScriptTooLong) ⊎ (result.status ≡ Status.NoMemory) }

    // A fault comes only where it was counted.
    ensures read_fault { result.status ≡ Status.ReadFault
        → HasRisen (S.faults source.old) (S.faults source.new) }
    ensures write_fault { result.status ≡ Status.WriteFault
        → HasRisen (K.faults sink.old) (K.faults sink.new) }
    ensures counted { (S.faults source.old ≤ S.faults source.new) × (K.faults sink.old ≤ K.faults sink.new) }

    // Where no fault was counted, the script decides.
    ensures complete { TakesWords (texts words.now) → IsFree (S.faults source.old) (S.faults source.new) → IsFree (K.faults sink.old) (K.faults sink.new)
        → (script : List ℕ) → S.left source.old ≡ Some script → EndsBy script result.status }

    // What the sink took where the run did not come to its end.
    ensures silent { IsSilent result.status → K.taken sink.new ≡ K.taken sink.old }
    ensures stopped { result.status ≡ Status.WriteFault
        → StopsEarly (asks_stats (texts words.now)) (S.left source.old) (S.left source.new) (K.taken sink.old) (K.taken sink.new) }
    ensures no_memory { result.status ≡ Status.NoMemory → (K.taken sink.new ≡ K.taken sink.old)
        ⊎ StopsEarly (asks_stats (texts words.now)) (S.left source.old) (S.left source.new) (K.taken sink.old) (K.taken sink.new) }
    ensures front { StopsBeforeEnd result.status → asks_stats (texts words.now) ≡ false → IfSome (S.left source.old) (λ script. HasNoStats script
        → (output : List ℕ) → IsOutput false script output → TakesPrefix (K.taken sink.old) (K.taken sink.new) output) }
{
    let stats = match read_words(alloc, words) {
        Ok(stats) => stats,
        Err(WordsError::Bad) => return without_bench(Status::BadWords),
        Err(WordsError::NoMemory) => return without_bench(Status::NoMemory),
    };
    match read_all(alloc, source, SCRIPT_LIMIT) {
        Ok(script) => run_script(alloc, &script, stats, sink),
        Err(ReadError::Failed) => without_bench(Status::ReadFault),
        Err(ReadError::NoMemory) => without_bench(Status::NoMemory),
        Err(ReadError::TooLong) => without_bench(Status::ScriptTooLong),
    }
}
