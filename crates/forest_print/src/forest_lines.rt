//! The lines of a forest.

ghost use Rattle.std.specs.Prelude.{◌≡◌, ◌++◌, codes, decimal, Contains, OnOk, OnErr};
ghost use Rattle.std.specs.List.{flat_map};
ghost use Rattle.forest.specs.declared.nodes.Node.{Node as TheNode};
ghost use Rattle.edit_log.specs.Facts.{IsNamed};
ghost use Rattle.forest_print.specs.Lines.{name_of, cut_text, split_line, span_line, node_text, nodes_text};
ghost use Rattle.forest_print.specs.Prefixes.{AppendsPrefix};

use crate::NoMemory;
use crate::heads::Head;
use crate::pieces::{Lines, Piece};
use crate::places::Places;
use crate::symbols::name;
use edit_log::Grammar;
use forest::{Forest, Node, Split};
use itoa::Buffer;
use std::mem;

/// Appends a blank and the number, for each cut.
fn put_cuts(lines: &mut Lines, places: &Places, cuts: &[u32]) -> Result<(), NoMemory>
    ensures whole { OnOk result (lines.new ≡ lines.old ++ flat_map cut_text cuts.now) }
    ensures prefix { OnErr result (AppendsPrefix lines.old lines.new (flat_map cut_text cuts.now)) }
{
    for cut in cuts {
        places.put(lines, *cut)?;
    }
    Ok(())
}

/// Appends how a line begins, a blank and the number for each cut after the first, and a line end.
fn put_after_head(
    lines: &mut Lines,
    places: &Places,
    head: &Piece,
    cuts: &[u32],
) -> Result<(), NoMemory>
    ensures whole { OnOk result (lines.new ≡ lines.old ++ head.now ++ flat_map cut_text cuts.now ++ codes "\n") }
    ensures prefix { OnErr result (AppendsPrefix lines.old lines.new (head.now ++ flat_map cut_text cuts.now ++ codes "\n")) }
{
    if cuts.len() == 2 {
        return places.put_two(lines, head, cuts[0], cuts[1]);
    }
    match cuts.split_last() {
        None => lines.put_line(head),
        Some((last, before)) => {
            lines.put(head)?;
            put_cuts(lines, places, before)?;
            places.put_line(lines, *last)
        }
    }
}

/// Appends the line for a split with no cuts.
#[cold]
#[inline(never)]
fn put_bare(lines: &mut Lines, rule: u32) -> Result<(), NoMemory>
    ensures whole { OnOk result (lines.new ≡ lines.old ++ codes "rule " ++ decimal rule ++ codes " at\n") }
    ensures kept { OnErr result (lines.new ≡ lines.old) }
{
    let mut line = Piece::new();
    line.add(b"rule ");
    line.add(Buffer::new().format(rule).as_bytes());
    line.add(b" at");
    lines.put_line(&line)
}

/// Appends the line for a split. The head stays as it was where it serves.
fn put_split(
    lines: &mut Lines,
    places: &Places,
    head: &mut Head,
    split: &Split,
) -> Result<(), NoMemory>
    ensures whole { OnOk result (lines.new ≡ lines.old ++ split_line split.now) }
    ensures prefix { OnErr result (AppendsPrefix lines.old lines.new (split_line split.now)) }
{
    match split.cuts.as_slice().split_first() {
        None => put_bare(lines, split.rule.0),
        Some((first, after)) => {
            head.turn(split.rule.0, *first);
            put_after_head(lines, places, &head.text, after)
        }
    }
}

/// Appends a line for each split.
#[inline(never)]
fn put_splits(
    lines: &mut Lines,
    places: &Places,
    head: &mut Head,
    splits: &[Split],
) -> Result<(), NoMemory>
    ensures whole { OnOk result (lines.new ≡ lines.old ++ flat_map split_line splits.now) }
    ensures prefix { OnErr result (AppendsPrefix lines.old lines.new (flat_map split_line splits.now)) }
{
    for split in splits {
        put_split(lines, places, head, split)?;
    }
    Ok(())
}

/// Appends the line for a symbol of this name and the tokens that it derives.
fn put_span(lines: &mut Lines, places: &Places, name: &[u8], node: &Node) -> Result<(), NoMemory>
    ensures whole { OnOk result (lines.new ≡ lines.old ++ span_line name.now node.now.from node.now.to) }
    ensures prefix { OnErr result (AppendsPrefix lines.old lines.new (span_line name.now node.now.from node.now.to)) }
{
    lines.put_bytes(b"node ")?;
    lines.put_bytes(name)?;
    places.put(lines, node.from)?;
    places.put_line(lines, node.to)
}

/// Appends the lines for a node whose symbol has this name, and for its splits.
fn put_node(
    lines: &mut Lines,
    places: &Places,
    head: &mut Head,
    name: &[u8],
    node: &Node,
) -> Result<(), NoMemory>
    ensures whole { OnOk result (lines.new ≡ lines.old ++ node_text name.now node.now) }
    ensures prefix { OnErr result (AppendsPrefix lines.old lines.new (node_text name.now node.now)) }
{
    put_span(lines, places, name, node)?;
    put_splits(lines, places, head, node.splits.as_slice())?;
    Ok(())
}

/// Appends the lines for all nodes.
fn put_nodes(
    grammar: &Grammar,
    nodes: &[Node],
    places: &Places,
    lines: &mut Lines,
) -> Result<(), NoMemory>
    requires { (node : TheNode) → Contains nodes.now node → IsNamed grammar.now.grammar.symbols node.symbol }
    ensures whole { OnOk result (lines.new ≡ lines.old ++ nodes_text (name_of grammar.now.grammar.symbols) nodes.now) }
    ensures prefix { OnErr result (AppendsPrefix lines.old lines.new (nodes_text (name_of grammar.now.grammar.symbols) nodes.now)) }
{
    let mut head = Head::new(0, 0);
    for node in nodes {
        put_node(lines, places, &mut head, name(grammar, node.symbol), node)?;
    }
    Ok(())
}

/// The last place where a node ends.
fn last_place(nodes: &[Node]) -> u32 {
    let mut last = 0;
    for node in nodes {
        last = node.to.max(last);
    }
    last
}

/// Appends the lines of a forest: for each node its name with the places in the tokens where it begins and
/// ends, and for each of its splits the number of the rule with the cuts.
///
/// The numbers of symbols and rules are those of the grammar. Where memory runs out, the last line may be cut.
pub fn print(grammar: &Grammar, forest: &Forest, out: &mut Vec<u8>) -> Result<(), NoMemory>
    requires { (node : TheNode) → Contains forest.now.nodes node → IsNamed grammar.now.grammar.symbols node.symbol }
    ensures whole { OnOk result (out.new.items ≡ out.old.items ++ nodes_text (name_of grammar.now.grammar.symbols) forest.now.nodes) }
    ensures prefix { OnErr result (AppendsPrefix out.old.items out.new.items (nodes_text (name_of grammar.now.grammar.symbols) forest.now.nodes)) }
{
    let alloc = *out.allocator();
    let nodes = forest.nodes.as_slice();
    let places = Places::up_to(alloc, last_place(nodes))?;
    let mut lines = Lines::after(mem::replace(out, Vec::new(alloc)));
    let printed = put_nodes(grammar, nodes, &places, &mut lines);
    *out = lines.into_bytes();
    printed
}
