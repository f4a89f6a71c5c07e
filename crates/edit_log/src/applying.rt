//! Applying an edit, which takes no memory.

ghost use Rattle.std.specs.Prelude.{◌≡◌};
ghost use Rattle.grammar_text.specs.declared.edit.Edit.{Edit as AnEdit};
ghost use Rattle.edit_log.specs.declared.ready.Plan.TheVariants as planned;
ghost use Rattle.edit_log.specs.History.{after_edit};
ghost use Rattle.edit_log.specs.Replicas.{IsReadyFor, IsApplicable};

use crate::definitions::DefId;
use crate::grammar::Grammar;
use crate::lefts::{drop_left, push_left};
use crate::live;
use crate::live_numbers::set_number;
use crate::named_definitions::drop_definition;
use crate::ready::{NewDefinition, NewRule, OldDefinition, OldRule, Plan, Ready};
use crate::rules::{no_rules, with_rule, without_rule};
use crate::uses::{add_uses, drop_uses};
use std::mem;

impl Grammar {
    fn add_rule(&mut self, plan: NewRule)
        requires { (edit : AnEdit) × IsApplicable self.old edit (planned.AddRule plan) }
        ensures { (edit : AnEdit) → IsApplicable self.old edit (planned.AddRule plan) → self.new.grammar ≡ after_edit self.old.grammar edit }
    {
        let NewRule { text, live, fresh } = plan;
        let number = live.number;
        self.table.add_symbols(fresh);
        push_left(&mut self.table.rows, live.left, number);
        add_uses(&mut self.table.rows, &mut self.live, live.right.as_slice());
        set_number(&mut self.rule_numbers, text, Some(number));
        let rules = mem::replace(&mut self.rules, no_rules(self.alloc));
        self.rules = with_rule(rules, &mut self.spare_rules, live);
        self.version += 1;
    }

    fn drop_rule(&mut self, plan: OldRule)
        requires { (edit : AnEdit) × IsApplicable self.old edit (planned.DropRule plan) }
        ensures { (edit : AnEdit) → IsApplicable self.old edit (planned.DropRule plan) → self.new.grammar ≡ after_edit self.old.grammar edit }
    {
        let OldRule { text, number } = plan;
        let rules = mem::replace(&mut self.rules, no_rules(self.alloc));
        let (rules, gone) = without_rule(rules, number);
        self.rules = rules;
        let Some(gone) = gone else { unreachable!() };
        drop_left(&mut self.table.rows, gone.left, number);
        drop_uses(&mut self.table.rows, &mut self.live, gone.right.as_slice());
        set_number(&mut self.rule_numbers, text, None);
        self.version += 1;
    }

    fn add_definition(&mut self, plan: NewDefinition)
        requires { (edit : AnEdit) × IsApplicable self.old edit (planned.AddDefinition plan) }
        ensures { (edit : AnEdit) → IsApplicable self.old edit (planned.AddDefinition plan) → self.new.grammar ≡ after_edit self.old.grammar edit }
    {
        let NewDefinition { name, live, fresh } = plan;
        let number = live.number;
        self.table.add_symbols(fresh);
        self.definitions.push_reserved(live);
        set_number(&mut self.definition_numbers, name, Some(number));
        live::insert(&mut self.live, DefId::Named(number));
        self.version += 1;
    }

    fn drop_definition(&mut self, plan: OldDefinition)
        requires { (edit : AnEdit) × IsApplicable self.old edit (planned.DropDefinition plan) }
        ensures { (edit : AnEdit) → IsApplicable self.old edit (planned.DropDefinition plan) → self.new.grammar ≡ after_edit self.old.grammar edit }
    {
        let OldDefinition { name, number } = plan;
        drop_definition(&mut self.definitions, number);
        set_number(&mut self.definition_numbers, name, None);
        live::remove(&mut self.live, DefId::Named(number));
        self.version += 1;
    }

    /// Adds the edit to the history.
    pub fn apply(&mut self, ready: Ready)
        requires { (edit : AnEdit) × IsReadyFor self.old edit ready }
        ensures { (edit : AnEdit) → IsReadyFor self.old edit ready → self.new.grammar ≡ after_edit self.old.grammar edit }
    {
        let Ready { plan, .. } = ready;
        match plan {
            Plan::AddRule(plan) => self.add_rule(plan),
            Plan::DropRule(plan) => self.drop_rule(plan),
            Plan::AddDefinition(plan) => self.add_definition(plan),
            Plan::DropDefinition(plan) => self.drop_definition(plan),
        }
    }
}
