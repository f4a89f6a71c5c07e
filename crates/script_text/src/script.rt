//! Reading a script.

ghost use Rattle.std.specs.Prelude.{◌≡◌, ◌≤◌, length, IfOk, IfErr, MatchResult};
ghost use Rattle.script_text.specs.declared.command.Script.{Script};
ghost use Rattle.script_text.specs.Scripts.{SpellsScript, IsScriptError};

use crate::bad_script::{BadScript, Refusal, ScriptError};
use crate::command::Script;
use crate::limits::SCRIPT_LIMIT;
use crate::lines::split_line;
use crate::progress::Progress;
use std::alloc::Global;

/// Reads a script.
///
/// A line ends before a byte 10, or at the end of the bytes. Blank lines and lines that begin with `#` behind
/// blanks are passed over. Any other line is one command. Those that begin with `rule`, `token`, `skip` or `drop`
/// change the grammar, as `grammar_text::read_edit` reads them; an expression that they add is one that
/// `regex_ast::read_regex` reads. `parse` asks to parse the text that stands behind it and one blank, up to the
/// line's end, and `tokens` to scan it; in it `\n`, `\t` and `\\` stand for a line's end, a tab and a backslash.
/// `stats`, with nothing but blanks behind it, asks what the tables hold. The error is that of the first bad line.
pub fn read_script(alloc: Global, bytes: &[u8]) -> Result<Script, ScriptError>
    requires { length bytes.now ≤ SCRIPT_LIMIT }

    // What is read is what the bytes spell.
    ensures found { IfOk result (λ script. SpellsScript bytes.now script) }
    // What they spell is read, unless memory runs out.
    ensures only { (script : Script) → SpellsScript bytes.now script →
        MatchResult result (λ read. read ≡ script) (λ e. e ≡ ScriptError.NoMemory) }
    // Which error it is.
    ensures exact { IfErr result (IsScriptError bytes.now) }
{
    let mut progress = Progress::new(alloc);
    let mut rest = bytes;
    let mut number: u32 = 0;
    'lines: while !rest.is_empty() {
        let (line, after) = split_line(rest);
        number += 1;
        match progress.take(alloc, line) {
            Ok(()) => {}
            Err(Refusal::Wrong(kind)) => {
                return Err(ScriptError::Bad(BadScript { line: number, kind }));
            }
            Err(Refusal::OutOfMemory) => return Err(ScriptError::NoMemory),
        }
        rest = after;
    }
    Ok(progress.into_script())
}
