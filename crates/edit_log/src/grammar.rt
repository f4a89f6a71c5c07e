//! The grammar that a history of edits makes, kept so that look-ups and edits are fast.

ghost use Rattle.std.specs.Prelude.{◌≡◌, ◌<◌, ◌↔◌, length, option_map, slice_get, Some, IfOk, IfSome, IsTrue};
ghost use Rattle.std.specs.Option.{is_some};
ghost use Rattle.edit_log.specs.Facts.{IsWellFormed};
ghost use Rattle.edit_log.specs.History.{empty_grammar};
ghost use Rattle.edit_log.specs.Live.{kind_of, kind_of_definition, IsLive};
ghost use Rattle.edit_log.specs.Lookups.{numbers_of_left, rule_of, known_number, ListsDefinitions, ArePositionsFor};
ghost use Rattle.edit_log.specs.Replicas.{seen_of};

use crate::NoMemory;
use crate::definitions::{DefId, DefKind};
use crate::named_definitions::{NamedDefinition, definition_of};
use crate::rules::{no_rules, rule_of};
use crate::symbol_table::{SymbolTable, live_literal};
use forest::{Rule, RuleId, Rules, SymbolId};
use grammar_text::{Name, RuleText, Symbol};
use indexmap::IndexMap;
use regex_ast::Positions;
use std::alloc::Global;
use std::marker::Model;

fn kind_of_definition(live: &NamedDefinition) -> DefKind
    ensures { result ≡ kind_of_definition (seen_of live.now) }
{
    if live.is_skip {
        DefKind::Skip
    } else {
        DefKind::Token(live.name)
    }
}

/// A grammar at a version: the symbols, and the live rules, tokens and skips, by their numbers.
#[derive(Drop)]
pub struct Grammar {
    /// Where memory is taken from for what edits bring.
    pub(crate) alloc: Global,
    /// How many edits were applied.
    pub(crate) version: u32,
    /// All symbols that ever appeared, with what is kept of each.
    pub(crate) table: SymbolTable,
    /// The live rules, ascending by number.
    pub(crate) rules: Rules,
    /// Memory for the rules where their own is full.
    pub(crate) spare_rules: Vec<Rule>,
    /// The number of each live rule, by how the rule is written. One that ended keeps its key, without a number.
    pub(crate) rule_numbers: IndexMap<RuleText, Option<RuleId>>,
    /// The live tokens and skips, ascending by number.
    pub(crate) definitions: Vec<NamedDefinition>,
    /// The number of each live token or skip, by its name. One that ended keeps its key, without a number.
    pub(crate) definition_numbers: IndexMap<Name, Option<RuleId>>,
    /// All live definitions: the literals, ascending by symbol, and then the tokens and skips, ascending by number.
    pub(crate) live: Vec<DefId>,
}

impl Model for Grammar {
    ghost use Rattle.std.specs.Prelude.{length, ◌-◌, vec_capacity};
    ghost use Rattle.std.specs.Str.{bytes_eq};
    ghost use Rattle.indexmap.specs.IndexMap.{spare};
    ghost use Rattle.indexmap.specs.IndexSet.{spare as set_spare};
    ghost use Rattle.grammar_text.specs.Sameness.{rule_eq};
    ghost use Rattle.edit_log.specs.Lists.{live_number};
    ghost use Rattle.edit_log.specs.Replicas.{Replica, room_of};
    ghost use Rattle.edit_log.specs.Rows.{lefts_in, uses_in, literals_in, rooms_in};
    ghost use Rattle.edit_log.specs.Agreement.{grammar_in, Agrees};

    ghost Value = { Replica };

    ghost view = { λ g. record {
      grammar = grammar_in g.version g.table.symbols.keys g.rules.rules g.definitions.items;
      room = record {
        symbols = set_spare g.table.symbols;
        rows = room_of g.table.rows;
        live = room_of g.live;
        rules = vec_capacity g.spare_rules - length g.rules.rules;
        rule_numbers = spare g.rule_numbers;
        definitions = room_of g.definitions;
        definition_numbers = spare g.definition_numbers;
        under = rooms_in g.table.rows.items;
      };
    } };

    ghost invariant = { λ g. Agrees (grammar_in g.version g.table.symbols.keys g.rules.rules g.definitions.items)
        (live_number rule_eq g.rule_numbers) (live_number bytes_eq g.definition_numbers)
        (lefts_in g.table.rows.items) (uses_in g.table.rows.items) (literals_in g.table.rows.items)
        g.definitions.items g.live.items g.spare_rules.items };
}

impl Grammar {
    /// Version 0: the grammar without a rule, whose one symbol is `START`.
    pub fn empty(alloc: Global) -> Result<Grammar, NoMemory>
        ensures { IfOk result (λ grammar. grammar.grammar ≡ empty_grammar) }
    {
        let table = SymbolTable::with_start(alloc)?;
        Ok(Grammar {
            alloc,
            version: 0,
            table,
            rules: no_rules(alloc),
            spare_rules: Vec::new(alloc),
            rule_numbers: IndexMap::new(alloc),
            definitions: Vec::new(alloc),
            definition_numbers: IndexMap::new(alloc),
            live: Vec::new(alloc),
        })
    }

    /// How many edits were applied.
    pub fn version(&self) -> u32
        ensures version { result ≡ self.now.grammar.version }
        ensures well_formed { IsWellFormed self.now.grammar }
    {
        self.version
    }

    /// The live rules. No number comes twice, and none is 0.
    pub fn rules(&self) -> &Rules
        ensures rules { result.now.rules ≡ self.now.grammar.rules }
        ensures well_formed { IsWellFormed self.now.grammar }
    {
        &self.rules
    }

    /// The numbers of the live rules with this left side.
    pub fn rules_of(&self, left: SymbolId) -> &[RuleId]
        ensures { result.now ≡ numbers_of_left self.now.grammar.rules left }
    {
        match self.table.rows.get(left.0 as usize) {
            Some(row) => &row.rules,
            None => &[],
        }
    }

    /// The live rule with this number.
    pub fn rule(&self, number: RuleId) -> Option<&Rule>
        ensures { option_map (λ r. r.now) result ≡ rule_of self.now.grammar.rules number }
    {
        rule_of(&self.rules, number)
    }

    /// The number of the symbol, if it ever appeared.
    pub fn symbol(&self, symbol: &Symbol) -> Option<SymbolId>
        ensures { result ≡ known_number self.now.grammar.symbols symbol.now }
    {
        match self.table.symbols.get_index_of(symbol) {
            Some(place) => Some(SymbolId(place as u32)),
            None => None,
        }
    }

    /// How many symbols have appeared. Their numbers are those below.
    pub fn symbols(&self) -> u32
        ensures { result ≡ length self.now.grammar.symbols }
    {
        self.table.symbols.len() as u32
    }

    /// The symbol with this number.
    pub fn name(&self, symbol: SymbolId) -> &Symbol
        requires { symbol.0 < length self.now.grammar.symbols }
        ensures { slice_get self.now.grammar.symbols symbol.0 ≡ Some result.now }
    {
        &self.table.symbols.as_slice()[symbol.0 as usize]
    }

    /// The live definitions: literals by number, and then tokens and skips by number.
    pub fn live_defs(&self) -> &[DefId]
        ensures { ListsDefinitions (IsLive self.now.grammar) result.now }
    {
        &self.live
    }

    /// The positions of the definition, if it is live.
    pub fn positions(&self, def: DefId) -> Option<&Positions>
        ensures live { IsTrue (is_some result) ↔ IsLive self.now.grammar def }
        ensures positions { IfSome result (λ positions. ArePositionsFor self.now.grammar def positions.now) }
    {
        match def {
            DefId::Literal(symbol) => live_literal(&self.table.rows, symbol),
            DefId::Named(number) => match definition_of(&self.definitions, number) {
                Some(live) => Some(&live.positions),
                None => None,
            },
        }
    }

    /// What the definition is, if it is live.
    pub fn kind(&self, def: DefId) -> Option<DefKind>
        ensures { result ≡ kind_of self.now.grammar def }
    {
        match def {
            DefId::Literal(symbol) => {
                live_literal(&self.table.rows, symbol)?;
                Some(DefKind::Token(symbol))
            }
            DefId::Named(number) => {
                let live = definition_of(&self.definitions, number)?;
                Some(kind_of_definition(live))
            }
        }
    }
}
