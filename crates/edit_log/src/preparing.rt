//! Taking the memory for an edit.

ghost use Rattle.std.specs.Prelude.{◌≡◌, ◌+◌, ◌≤◌, ◌↔◌, ◌⊎◌, length, IfOk, IfSome, IsTrue, OnOk, slice_get};
ghost use Rattle.grammar_text.specs.declared.edit.Edit.{Edit as AnEdit};
ghost use Rattle.grammar_text.specs.declared.edit.Edit.TheVariants as edit;
ghost use Rattle.edit_log.specs.declared.ready.Ready.{Ready as IsReady};
ghost use Rattle.edit_entry.specs.Entries.{entry_of};
ghost use Rattle.edit_log.specs.Replicas.{IsReadyFor, IsPlanFor, IsNoMoreThan, HasSpare, HasRoomAt, symbols_in, adds, drops};
ghost use Rattle.std.specs.List.{list_any};
ghost use Rattle.edit_log.specs.Live.{is_literal};
ghost use Rattle.edit_log.specs.Lists.{Wakes};
ghost use Rattle.edit_log.specs.Rows.{uses_in, literals_in};
ghost use Rattle.edit_log.specs.Touches.{IsTouchOf};
ghost use Rattle.edit_log.specs.Verdict.{IsAccepted};

use crate::NoMemory;
use crate::definitions::{DefId, DefIds};
use crate::fresh_symbols::{FreshSymbol, has_literal, number_in, rule_in};
use crate::grammar::Grammar;
use crate::limits::NEW_LIMIT;
use crate::live_numbers::live_number;
use crate::named_definitions::named;
use crate::ready::{NewDefinition, NewRule, OldDefinition, OldRule, Plan, Ready};
use crate::rules::rule_of;
use crate::symbol_table::Row;
use crate::touch::Touch;
use crate::uses::{ended, wakes};
use edit_entry::{Entry, read_entry};
use forest::{RuleId, SymbolId};
use grammar_text::{DefText, Edit, Name, RuleText, Symbol};
use std::alloc::AllocError;

/// Whether a rule with this right side, once it is added with these fresh symbols, makes a literal live.
fn makes_live(fresh: &[FreshSymbol], rows: &[Row], right: &[SymbolId]) -> bool
    ensures { IsTrue result ↔ (IsTrue (list_any is_literal (symbols_in fresh.now)) ⊎ Wakes (literals_in rows.now) (uses_in rows.now) right.now) }
{
    if has_literal(fresh) {
        return true;
    }
    wakes(rows, right)
}

impl Grammar {
    /// Takes memory for what any edit may add.
    fn reserve(&mut self) -> Result<(), AllocError>
        ensures grammar { self.new.grammar ≡ self.old.grammar }
        ensures grows { IsNoMoreThan self.old.room self.new.room }
        ensures room { OnOk result (HasSpare self.new.room) }
    {
        self.table.reserve(NEW_LIMIT)?;
        self.live.reserve(NEW_LIMIT)?;
        let rules = self.rules.rules.as_slice().len();
        self.spare_rules.reserve(rules + 1)?;
        self.rule_numbers.reserve(1)?;
        self.definitions.reserve(1)?;
        self.definition_numbers.reserve(1)
    }

    /// Takes memory for a rule with this left side, where that is a symbol already.
    fn reserve_under(&mut self, left: SymbolId) -> Result<(), AllocError>
        ensures grammar { self.new.grammar ≡ self.old.grammar }
        ensures grows { IsNoMoreThan self.old.room self.new.room }
        ensures room { OnOk result (IfSome (slice_get self.new.room.under left.0) (λ count. 1 ≤ count)) }
    {
        self.table.reserve_rule(left)
    }

    /// Takes memory for a rule under the left side that an edit touches.
    fn reserve_touched(&mut self, touch: &Touch) -> Result<(), AllocError>
        ensures grammar { self.new.grammar ≡ self.old.grammar }
        ensures grows { IsNoMoreThan self.old.room self.new.room }
        ensures count { length self.new.room.under ≡ length self.new.grammar.symbols }
        ensures room { OnOk result (HasRoomAt self.new.room touch.now.left) }
    {
        let _ = &self.version;
        match touch.left {
            Some(left) => self.reserve_under(left),
            None => Ok(()),
        }
    }

    fn next_number(&self) -> RuleId
        ensures { result.0 ≡ self.now.grammar.version + 1 }
    {
        RuleId(self.version + 1)
    }

    fn plan_rule(&self, text: RuleText) -> Result<Ready, AllocError>
        requires { IsAccepted self.now.grammar (edit.AddRule text) }
        ensures plan { IfOk result (λ ready. IsPlanFor self.now.grammar (edit.AddRule text) ready.plan) }
        ensures touch { IfOk result (λ ready. IsTouchOf self.now.grammar (edit.AddRule text) ready.touch) }
    {
        let mut fresh = Vec::new(self.alloc);
        let live = rule_in(
            self.alloc,
            &self.table.symbols,
            &mut fresh,
            self.next_number(),
            &text,
        )?;
        let touch = Touch {
            left: Some(live.left),
            gone_rule: None,
            scan: makes_live(&fresh, &self.table.rows, live.right.as_slice()),
            gone_defs: DefIds::from_vec(Vec::new(self.alloc)),
        };
        Ok(Ready {
            plan: Plan::AddRule(NewRule { text, live, fresh }),
            touch,
        })
    }

    fn plan_rule_end(&self, text: RuleText) -> Result<Ready, AllocError>
        requires { IsAccepted self.now.grammar (edit.DropRule text) }
        ensures plan { IfOk result (λ ready. IsPlanFor self.now.grammar (edit.DropRule text) ready.plan) }
        ensures touch { IfOk result (λ ready. IsTouchOf self.now.grammar (edit.DropRule text) ready.touch) }
    {
        let Some(number) = live_number(&self.rule_numbers, &text) else {
            unreachable!()
        };
        let Some(live) = rule_of(&self.rules, number) else {
            unreachable!()
        };
        let gone = ended(self.alloc, &self.table.rows, live.right.as_slice())?;
        let touch = Touch {
            left: Some(live.left),
            gone_rule: Some(number),
            scan: !gone.is_empty(),
            gone_defs: DefIds::from_vec(gone),
        };
        Ok(Ready {
            plan: Plan::DropRule(OldRule { text, number }),
            touch,
        })
    }

    fn plan_definition(&self, definition: DefText, is_skip: bool) -> Result<Ready, AllocError>
        requires { IsAccepted self.now.grammar (adds is_skip definition) }
        ensures plan { IfOk result (λ ready. IsPlanFor self.now.grammar (adds is_skip definition) ready.plan) }
        ensures touch { IfOk result (λ ready. IsTouchOf self.now.grammar (adds is_skip definition) ready.touch) }
    {
        let DefText { name, expression } = definition;
        let mut fresh = Vec::new(self.alloc);
        let symbol = number_in(
            self.alloc,
            &self.table.symbols,
            &mut fresh,
            &Symbol::Named(name.clone()?),
        )?;
        let live = named(self.alloc, self.next_number(), symbol, is_skip, expression)?;
        let touch = Touch {
            left: None,
            gone_rule: None,
            scan: true,
            gone_defs: DefIds::from_vec(Vec::new(self.alloc)),
        };
        Ok(Ready {
            plan: Plan::AddDefinition(NewDefinition { name, live, fresh }),
            touch,
        })
    }

    fn plan_definition_end(&self, name: Name, is_skip: bool) -> Result<Ready, AllocError>
        requires { IsAccepted self.now.grammar (drops is_skip name) }
        ensures plan { IfOk result (λ ready. IsPlanFor self.now.grammar (drops is_skip name) ready.plan) }
        ensures touch { IfOk result (λ ready. IsTouchOf self.now.grammar (drops is_skip name) ready.touch) }
    {
        let Some(number) = live_number(&self.definition_numbers, &name) else {
            unreachable!()
        };
        let gone = Vec::from_slice(self.alloc, &[DefId::Named(number)])?;
        let touch = Touch {
            left: None,
            gone_rule: None,
            scan: true,
            gone_defs: DefIds::from_vec(gone),
        };
        Ok(Ready {
            plan: Plan::DropDefinition(OldDefinition { name, number }),
            touch,
        })
    }

    fn plan(&self, edit: Edit) -> Result<Ready, AllocError>
        requires { IsAccepted self.now.grammar edit }
        ensures plan { IfOk result (λ ready. IsPlanFor self.now.grammar edit ready.plan) }
        ensures touch { IfOk result (λ ready. IsTouchOf self.now.grammar edit ready.touch) }
    {
        match edit {
            Edit::AddRule(text) => self.plan_rule(text),
            Edit::DropRule(text) => self.plan_rule_end(text),
            Edit::AddToken(definition) => self.plan_definition(definition, false),
            Edit::DropToken(name) => self.plan_definition_end(name, false),
            Edit::AddSkip(definition) => self.plan_definition(definition, true),
            Edit::DropSkip(name) => self.plan_definition_end(name, true),
        }
    }

    /// Takes all the memory that the edit of the entry needs. The history stays as it is, and what was
    /// prepared before stays ready.
    pub fn prepare(&mut self, entry: &Entry) -> Result<Ready, NoMemory>
        requires { (edit : AnEdit) × (entry.now.words ≡ entry_of edit) × IsAccepted self.old.grammar edit }
        ensures history { self.new.grammar ≡ self.old.grammar }
        ensures ready { IfOk result (λ ready. (edit : AnEdit) → entry.now.words ≡ entry_of edit
            → IsAccepted self.old.grammar edit → IsReadyFor self.new edit ready) }
        ensures stays { (edit : AnEdit) (ready : IsReady) → IsReadyFor self.old edit ready → IsReadyFor self.new edit ready }
    {
        let edit = read_entry(self.alloc, &entry.words)?;
        self.reserve()?;
        let ready = self.plan(edit)?;
        self.reserve_touched(&ready.touch)?;
        Ok(ready)
    }
}
