//! What the definition of a reply says.

ghost use Rattle.std.specs.Prelude.{◌≡◌};
ghost use Rattle.script_text.specs.declared.command.Command.{Command};
ghost use Rattle.script_text.specs.declared.command.Command.TheVariants.{Stats};
ghost use Rattle.edit_log.specs.History.{Grammar};
ghost use Rattle.replies.specs.declared.reply.Reply.{Reply};
ghost use Rattle.replies.specs.Replies.{IsReply};

/// A command has at most one reply under a grammar, unless it asks what the tables hold.
pub fn one_reply()
    ensures { (grammar : Grammar) (command : Command) (a b : Reply) → (command ≡ Stats → ⊥) → IsReply grammar command a
        → IsReply grammar command b → a ≡ b }
{}
