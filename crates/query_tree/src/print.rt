ghost use Rattle.std.specs.Prelude.{◌≡◌, ◌++◌, IfOk, OnOk, codes, if◌then◌else◌, ◌==◌};
ghost use Rattle.std.specs.Fmt.{decimal};
ghost use Rattle.query_tree.specs.Tree.{listed_of, tree_of};
ghost use Rattle.query_tree.specs.Text.{key_text, limit_text, mark_text, node_text, operands_text, pair_text, query_text, term_text};

use crate::kind::TermKind;
use crate::query::{JoinNode, ListNode, Mark, Query, TermNode};
use std::alloc::{AllocError, Global};
use uni_base::{Text, Word};

/// How many hits a join follows where its text has no `:limit`.
pub const DEFAULT_LIMIT: u32 = 1000;

/// Writes a query as its text.
pub fn print_query(alloc: Global, query: &Query) -> Result<Text, AllocError>
    ensures { IfOk result (λ text. text ≡ query_text (tree_of query.now)) }
{
    let mut out = Text::new(alloc);
    print_node(alloc, &mut out, query, Mark::Plain)?;
    Ok(out)
}

#[cycle(print)]
fn print_node(alloc: Global, out: &mut Text, query: &Query, mark: Mark) -> Result<(), AllocError>
    ensures { OnOk result (out.new ≡ out.old ++ node_text (tree_of query.now) mark) }
{
    match query {
        Query::Term(term) => print_term(alloc, out, TermKind::Whole, term, mark),
        Query::Prefix(term) => print_term(alloc, out, TermKind::Prefix, term, mark),
        Query::And(list) => print_list(alloc, out, b"(and", list, mark),
        Query::Or(list) => print_list(alloc, out, b"(or", list, mark),
        Query::Difference(list) => print_list(alloc, out, b"(difference", list, mark),
        Query::WeakAnd(list) => print_list(alloc, out, b"(weak-and", list, mark),
        Query::StrongOr(list) => print_list(alloc, out, b"(strong-or", list, mark),
        Query::Apply(join) => print_join(alloc, out, b"(apply ", join, mark),
        Query::Extract(join) => print_join(alloc, out, b"(extract ", join, mark),
    }
}

#[cycle(print)]
fn print_list(
    alloc: Global,
    out: &mut Text,
    head: &[u8],
    list: &ListNode,
    mark: Mark,
) -> Result<(), AllocError>
    ensures { OnOk result
        (out.new
        ≡ out.old ++ (head.now ++ operands_text (listed_of list.now).operands ++ mark_text mark ++ codes ")")) }
{
    add(out, head)?;
    for operand in &list.operands {
        add(out, b" ")?;
        print_node(alloc, out, &operand.node, operand.mark)?;
    }
    print_mark(alloc, out, mark)?;
    add(out, b")")
}

#[cycle(print)]
fn print_join(
    alloc: Global,
    out: &mut Text,
    head: &[u8],
    join: &JoinNode,
    mark: Mark,
) -> Result<(), AllocError>
    ensures { OnOk result
        (out.new
        ≡ out.old ++ (head.now ++ join.now.type_name ++ codes ": " ++ node_text (tree_of join.now.node.value) Mark.Plain
        ++ limit_text join.now.limit ++ mark_text mark ++ codes ")")) }
{
    add(out, head)?;
    add(out, join.type_name.bytes())?;
    add(out, b": ")?;
    print_node(alloc, out, &join.node, Mark::Plain)?;
    print_limit(alloc, out, join.limit)?;
    print_mark(alloc, out, mark)?;
    add(out, b")")
}

fn print_term(
    alloc: Global,
    out: &mut Text,
    kind: TermKind,
    term: &TermNode,
    mark: Mark,
) -> Result<(), AllocError>
    ensures { OnOk result
        (out.new ≡ out.old ++ term_text (pair_text kind term.now.type_name term.now.key) mark) }
{
    if mark == Mark::Plain {
        return print_pair(out, kind, term);
    }
    add(out, b"(term ")?;
    print_pair(out, kind, term)?;
    print_mark(alloc, out, mark)?;
    add(out, b")")
}

fn print_pair(out: &mut Text, kind: TermKind, term: &TermNode) -> Result<(), AllocError>
    ensures { OnOk result (out.new ≡ out.old ++ pair_text kind term.now.type_name term.now.key) }
{
    add(out, term.type_name.bytes())?;
    add(out, b":")?;
    print_key(out, kind, &term.key)
}

fn print_key(out: &mut Text, kind: TermKind, key: &Word) -> Result<(), AllocError>
    ensures { OnOk result (out.new ≡ out.old ++ key_text kind key.now) }
{
    add(out, key.bytes())?;
    match kind {
        TermKind::Whole => Ok(()),
        TermKind::Prefix => add(out, b"*"),
    }
}

fn print_limit(alloc: Global, out: &mut Text, limit: u32) -> Result<(), AllocError>
    ensures { OnOk result (out.new ≡ out.old ++ limit_text limit) }
{
    if limit == DEFAULT_LIMIT {
        return Ok(());
    }
    add(out, b" :limit ")?;
    print_number(alloc, out, limit)
}

fn print_mark(alloc: Global, out: &mut Text, mark: Mark) -> Result<(), AllocError>
    ensures { OnOk result (out.new ≡ out.old ++ mark_text mark) }
{
    match mark {
        Mark::Plain => Ok(()),
        Mark::Hits(count) => {
            add(out, b" :optional-hits ")?;
            print_number(alloc, out, count)
        }
        Mark::Weight(numerator, denominator) => {
            add(out, b" :optional-weight ")?;
            print_number(alloc, out, numerator)?;
            add(out, b"/")?;
            print_number(alloc, out, denominator)
        }
    }
}

fn print_number(alloc: Global, out: &mut Text, number: u32) -> Result<(), AllocError>
    ensures { OnOk result (out.new ≡ out.old ++ decimal number) }
{
    let digits = number.to_string(alloc)?;
    add(out, digits.as_bytes())
}

fn add(out: &mut Text, text: &[u8]) -> Result<(), AllocError>
    ensures { OnOk result (out.new ≡ out.old ++ text.now) }
{
    for byte in text {
        out.push(*byte)?;
    }
    Ok(())
}
