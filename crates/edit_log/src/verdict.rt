//! Whether a grammar takes an edit.

ghost use Rattle.std.specs.Prelude.{◌≡◌, ◌⊎◌, None, Some, Bool, find, option_map, IfOk, IfErr, OnOk};
ghost use Rattle.grammar_text.specs.declared.edit.Edit.TheVariants as edit;
ghost use Rattle.edit_entry.specs.Entries.{entry_of};
ghost use Rattle.edit_log.specs.History.{has_name};
ghost use Rattle.edit_log.specs.Replicas.{seen_of, of_kind, adds, drops};
ghost use Rattle.edit_log.specs.Verdict.{IsProper, IsAccepted, verdict, rule_found, definition_found, is_left, fullness};

use crate::grammar::Grammar;
use crate::limits::LOG_LIMIT;
use crate::live_numbers::live_number;
use crate::named_definitions::{NamedDefinition, definition_of};
use crate::refusal::Refusal;
use edit_entry::{Entry, encode};
use forest::RuleId;
use grammar_text::{DefText, Edit, Name, RuleText, Symbol};
use std::alloc::{AllocError, Global};

impl Grammar {
    /// The number of the live rule that is written so.
    fn number_of(&self, text: &RuleText) -> Option<RuleId>
        ensures { result ≡ option_map (λ live. live.number) (rule_found self.now.grammar text.now) }
    {
        live_number(&self.rule_numbers, text)
    }

    /// The live token or skip of this name, of which there is at most one.
    fn definition_named(&self, name: &Name) -> Option<&NamedDefinition>
        ensures kinds { (skip : Bool) → definition_found self.now.grammar skip name.now ≡ of_kind skip (option_map (λ live. seen_of live.now) result) }
        ensures found { option_map (λ live. seen_of live.now) result ≡ find (has_name self.now.grammar.symbols name.now) self.now.grammar.definitions }
    {
        match live_number(&self.definition_numbers, name) {
            Some(number) => definition_of(&self.definitions, number),
            None => None,
        }
    }

    /// Whether the name is the left side of a live rule.
    fn is_left(&self, name: &Name) -> Result<bool, AllocError>
        ensures { IfOk result (λ answer. answer ≡ is_left self.now.grammar name.now) }
    {
        let symbol = Symbol::Named(name.clone()?);
        match self.table.symbols.get_index_of(&symbol) {
            Some(place) => Ok(!self.table.rows[place].rules.is_empty()),
            None => Ok(false),
        }
    }
}

/// The refusal of this name.
fn clash(name: &Name) -> Result<Refusal, AllocError>
    ensures { IfOk result (λ refusal. refusal ≡ Refusal.NameClash name.now) }
{
    Ok(Refusal::NameClash {
        name: name.clone()?,
    })
}

/// Whether there is room for another edit.
fn check_room(grammar: &Grammar) -> Result<(), Refusal>
    ensures taken { OnOk result (fullness grammar.now.grammar ≡ None) }
    ensures refused { IfErr result (λ refusal. fullness grammar.now.grammar ≡ Some refusal) }
{
    let version = grammar.version();
    if version == LOG_LIMIT {
        return Err(Refusal::LogFull { version });
    }
    Ok(())
}

fn may_add_rule(grammar: &Grammar, text: &RuleText) -> Result<(), Refusal>
    ensures taken { OnOk result (verdict grammar.now.grammar (edit.AddRule text.now) ≡ None) }
    ensures refused { IfErr result (λ refusal. (refusal ≡ Refusal.NoMemory) ⊎ (verdict grammar.now.grammar (edit.AddRule text.now) ≡ Some refusal)) }
{
    if grammar.definition_named(&text.left).is_some() {
        return Err(clash(&text.left)?);
    }
    if let Some(number) = grammar.number_of(text) {
        return Err(Refusal::Exists { number: number.0 });
    }
    check_room(grammar)
}

fn may_drop_rule(grammar: &Grammar, text: &RuleText) -> Result<(), Refusal>
    ensures taken { OnOk result (verdict grammar.now.grammar (edit.DropRule text.now) ≡ None) }
    ensures refused { IfErr result (λ refusal. verdict grammar.now.grammar (edit.DropRule text.now) ≡ Some refusal) }
{
    if grammar.number_of(text).is_none() {
        return Err(Refusal::NoSuch);
    }
    check_room(grammar)
}

fn may_define(grammar: &Grammar, definition: &DefText, is_skip: bool) -> Result<(), Refusal>
    ensures taken { OnOk result (verdict grammar.now.grammar (adds is_skip definition.now) ≡ None) }
    ensures refused { IfErr result (λ refusal. (refusal ≡ Refusal.NoMemory) ⊎ (verdict grammar.now.grammar (adds is_skip definition.now) ≡ Some refusal)) }
{
    let name = &definition.name;
    if name.bytes() == b"START".as_slice() || grammar.is_left(name)? {
        return Err(clash(name)?);
    }
    if let Some(live) = grammar.definition_named(name) {
        if live.is_skip != is_skip {
            return Err(clash(name)?);
        }
        return Err(Refusal::Exists {
            number: live.number.0,
        });
    }
    check_room(grammar)
}

fn may_end_definition(grammar: &Grammar, name: &Name, is_skip: bool) -> Result<(), Refusal>
    ensures taken { OnOk result (verdict grammar.now.grammar (drops is_skip name.now) ≡ None) }
    ensures refused { IfErr result (λ refusal. verdict grammar.now.grammar (drops is_skip name.now) ≡ Some refusal) }
{
    match grammar.definition_named(name) {
        Some(live) => {
            if live.is_skip != is_skip {
                return Err(Refusal::NoSuch);
            }
            check_room(grammar)
        }
        None => Err(Refusal::NoSuch),
    }
}

/// The entry of the edit, where the grammar takes it.
///
/// A refusal is the first of its reasons in the order of [`Refusal`]'s variants.
pub fn may(alloc: Global, grammar: &Grammar, edit: &Edit) -> Result<Entry, Refusal>
    requires { IsProper edit.now }
    ensures entry { IfOk result (λ entry. entry.words ≡ entry_of edit.now) }
    ensures taken { OnOk result (IsAccepted grammar.now.grammar edit.now) }
    ensures refused { IfErr result (λ refusal. (refusal ≡ Refusal.NoMemory) ⊎ (verdict grammar.now.grammar edit.now ≡ Some refusal)) }
{
    match edit {
        Edit::AddRule(text) => may_add_rule(grammar, text)?,
        Edit::DropRule(text) => may_drop_rule(grammar, text)?,
        Edit::AddToken(definition) => may_define(grammar, definition, false)?,
        Edit::DropToken(name) => may_end_definition(grammar, name, false)?,
        Edit::AddSkip(definition) => may_define(grammar, definition, true)?,
        Edit::DropSkip(name) => may_end_definition(grammar, name, true)?,
    }
    Ok(encode(edit))
}
