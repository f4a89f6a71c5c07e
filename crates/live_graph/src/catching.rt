//! How a replica of a grammar follows the log of a page.

ghost use Rattle.std.specs.Prelude.{◌≡◌, ◌<◌, ◌+◌, length, OnOk, OnErr};
ghost use Rattle.slot_store.specs.Answers.{ReadsLog};
ghost use Rattle.graph_content.specs.Contents.{IsLogOfGrammar};
ghost use Rattle.live_graph.specs.CatchingUp.{IsAtPrefix, IsAtPrefixLength};

use crate::NoMemory;
use edit_log::{Entry, Grammar};
use graph_content::GraphRows;
use slot_store::page::Page;

/// Applies the entry of the page's log that comes next.
fn apply_next<P: Page<GraphRows>>(
    grammar: &mut Grammar,
    page: &mut P,
    index: u32,
) -> Result<(), NoMemory>
    requires next { IsAtPrefixLength (P.means page.old).log grammar.old.grammar index }
    requires more { index < length (P.means page.old).log }
    ensures applied { OnOk result (IsAtPrefixLength (P.means page.old).log grammar.new.grammar (index + 1)) }
    ensures refused { OnErr result (grammar.new.grammar ≡ grammar.old.grammar) }
    ensures reads { ReadsLog (P.means page.old) (P.means page.new) }
{
    let entry = Entry {
        words: page.log_entry(index),
    };
    let ready = grammar.prepare(&entry)?;
    grammar.apply(ready);
    Ok(())
}

/// Brings a replica, whose history is a beginning of the page's log, to the page's version. Where memory runs out
/// it is still at a beginning of the log.
pub fn catch_up<P: Page<GraphRows>>(grammar: &mut Grammar, page: &mut P) -> Result<(), NoMemory>
    requires { IsAtPrefix (P.means page.old).log grammar.old.grammar }
    ensures caught_up { OnOk result (IsLogOfGrammar (P.means page.old).log grammar.new.grammar) }
    ensures behind { IsAtPrefix (P.means page.old).log grammar.new.grammar }
    ensures reads { ReadsLog (P.means page.old) (P.means page.new) }
{
    for index in grammar.version()..page.version() {
        apply_next(grammar, page, index)?;
    }
    Ok(())
}
