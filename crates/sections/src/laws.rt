//! Laws of the keys that the graph of a bench holds.

ghost use Rattle.std.specs.Prelude.{◌↔◌, ℕ, List};
ghost use Rattle.std.specs.List.{AllByRecursion};
ghost use Rattle.edit_log.specs.History.{Grammar};
ghost use Rattle.script_text.specs.declared.command.Command.{Command};
ghost use Rattle.script_text.specs.declared.command.Block.{Block};
ghost use Rattle.pin_rule.specs.declared.content.Entry.{Entry};
ghost use Rattle.pin_rule.specs.declared.sizes.Sizes.{Sizes};
ghost use Rattle.row_coding.specs.Rows.{Key};
ghost use Rattle.graph_content.specs.Contents.{IsLogOfGrammar};
ghost use Rattle.live_graph.specs.declared.tally.Tallies.{Tallies};
ghost use Rattle.replies.specs.declared.reply.Reply.{Reply};
ghost use Rattle.replies.specs.Replies.{IsReply, grammar_after};
ghost use Rattle.replies.specs.Blocks.{IsProperCommand, IsProperBlock, grammar_after_all};
ghost use Rattle.sections.specs.Laziness.{SharesRows};
ghost use Rattle.sections.specs.Shared.{AreShared};
ghost use Rattle.sections.specs.HeldKeys.{AllFit, held_in, FollowsHeld, held_after, IsRoomy};

/// What a command makes of the rows of a graph, it makes of the keys that the graph holds. The rows afterwards are those of
/// keys of the grammar behind it.
pub fn keys_follow()
    ensures fit { (z : Sizes) (log : List Entry) (grammar : Grammar) (command : Command) (reply : Reply) (tallies : Tallies) (before after : ℕ)
        (first last : List (List ℕ)) → IsLogOfGrammar log grammar → IsProperCommand command → AllFit grammar first → IsReply grammar command reply
        → SharesRows z grammar command reply tallies before after first last → AllFit (grammar_after grammar command) last }
    ensures follows { (z : Sizes) (log : List Entry) (grammar : Grammar) (command : Command) (reply : Reply) (tallies : Tallies) (before after : ℕ)
        (first last : List (List ℕ)) → IsLogOfGrammar log grammar → IsProperCommand command → AllFit grammar first → IsReply grammar command reply
        → SharesRows z grammar command reply tallies before after first last
        → FollowsHeld z grammar command reply (held_in grammar first) (held_in (grammar_after grammar command) last) }
{}

/// Where there is room for all, the graph behind a list of commands holds exactly the keys that they reached and that no edit
/// behind that took away, beside those of the first graph that no edit took away.
pub fn roomy_is_exact()
    ensures fit { (z : Sizes) (log : List Entry) (grammar : Grammar) (blocks : List Block) (first last : List (List ℕ)) → IsLogOfGrammar log grammar
        → AllByRecursion IsProperBlock blocks → AllFit grammar first → AreShared z grammar blocks first last
        → AllFit (grammar_after_all grammar blocks) last }
    ensures exact { (z : Sizes) (log : List Entry) (grammar : Grammar) (blocks : List Block) (first last : List (List ℕ)) → IsLogOfGrammar log grammar
        → AllByRecursion IsProperBlock blocks → AllFit grammar first → IsRoomy z grammar blocks (held_in grammar first)
        → AreShared z grammar blocks first last → (key : Key)
        → held_in (grammar_after_all grammar blocks) last key ↔ held_after z grammar blocks (held_in grammar first) key }
{}
