//! A compiled query, compared with one that is expected.
ghost use Rattle.std.specs.Prelude.{◌≡◌, ◌↔◌, length, map, option_map, IsTrue};
ghost use Rattle.sqlite_value.specs.declared.value.Value.TheVariants.{Int as Number};
ghost use Rattle.sqlite_sql.specs.Term.{lit, col};
ghost use Rattle.sqlite_sql.specs.Query.{inner, end};
ghost use Rattle.sqlite_sql.specs.Syntax.{term_at, term_of, terms_of, order_of, join_at, grouping_of, query_of};
ghost use Rattle.cs_store_sql.specs.Statements.{compares, expected_term, expected_limit, expected_group, all_rows, by_column, expected_query};

use sqlite_sql::aggregate::AggregateOp;
use sqlite_sql::expr::{Node, open};
use sqlite_sql::ops::{BinaryOp, CompareOp};
use sqlite_sql::query::{Grouping, Select, SortKey, Step};
use sqlite_value::keys::Collation;
use sqlite_value::value::ValueRef;

/// A term of a statement on records.
#[derive(Clone, Copy)]
pub(crate) enum Expected {
    Null,
    /// A column of the row in a slot.
    Column(usize, usize),
    /// Whether this column of the row equals this parameter.
    Equal(usize, usize),
    /// Whether this column of the row is greater than this parameter.
    Above(usize, usize),
}

/// What a query on one table tests, shows and sorts by.
#[derive(Clone, Copy)]
pub(crate) struct Shape<'a> {
    pub filter: &'a [Expected],
    pub project: &'a [Expected],
    /// Columns, by which the rows rise.
    pub order: &'a [usize],
    /// A parameter, if there is one: at most so many rows are shown.
    pub limit: Option<usize>,
    /// Whether one row with their number is shown.
    pub counted: bool,
}

/// Whether the node at this index is this column.
fn is_column(nodes: &[Node<'_>], depth: usize, at: usize, slot: usize, column: usize) -> bool
    ensures { IsTrue result ↔ (term_at nodes.now depth at ≡ col slot column) }
{
    let (node, _) = open(nodes, depth, at);
    match node {
        Node::Column(s, c) => s == slot && c == column,
        _ => false,
    }
}

/// Whether the node at this index compares this column of the row with this parameter.
fn is_comparison(nodes: &[Node<'_>], at: usize, op: CompareOp, column: usize, param: usize) -> bool
    ensures { IsTrue result ↔ (term_of nodes.now at ≡ compares op (col 1 column) (col 0 param)) }
{
    let (node, below) = open(nodes, nodes.len(), at);
    match node {
        Node::Binary(BinaryOp::Compare(found, Collation::Binary), a, b) => {
            found == op
                && is_column(nodes, below, a, 1, column)
                && is_column(nodes, below, b, 0, param)
        }
        _ => false,
    }
}

/// Whether the node at this index is NULL.
fn is_null(nodes: &[Node<'_>], at: usize) -> bool
    ensures { IsTrue result ↔ (term_of nodes.now at ≡ expected_term Expected.Null) }
{
    let (node, _) = open(nodes, nodes.len(), at);
    matches!(node, Node::Literal(ValueRef::Null))
}

/// Whether the node at this index is this number.
fn is_number(nodes: &[Node<'_>], at: usize, number: i64) -> bool
    ensures { IsTrue result ↔ (term_of nodes.now at ≡ lit (Number number)) }
{
    let (node, _) = open(nodes, nodes.len(), at);
    match node {
        Node::Literal(ValueRef::Int(n)) => n == number,
        _ => false,
    }
}

fn is_expected(nodes: &[Node<'_>], at: usize, expected: Expected) -> bool
    ensures { IsTrue result ↔ (term_of nodes.now at ≡ expected_term expected) }
{
    match expected {
        Expected::Null => is_null(nodes, at),
        Expected::Column(slot, column) => is_column(nodes, nodes.len(), at, slot, column),
        Expected::Equal(column, param) => is_comparison(nodes, at, CompareOp::Eq, column, param),
        Expected::Above(column, param) => is_comparison(nodes, at, CompareOp::Gt, column, param),
    }
}

/// Whether the terms with these roots are the expected ones.
pub(crate) fn are_expected(nodes: &[Node<'_>], roots: &[usize], expected: &[Expected]) -> bool
    ensures { IsTrue result ↔ (terms_of nodes.now roots.now ≡ map expected_term expected.now) }
{
    if roots.len() != expected.len() {
        return false;
    }
    for at in 0..roots.len() {
        if !is_expected(nodes, roots[at], expected[at]) {
            return false;
        }
    }
    true
}

fn is_rising(nodes: &[Node<'_>], key: &SortKey, column: usize) -> bool
    ensures { IsTrue result ↔ ((term_of nodes.now key.now.node, key.now.key) ≡ by_column column) }
{
    is_column(nodes, nodes.len(), key.node, 1, column)
        && key.key.collation == Collation::Binary
        && !key.key.descending
}

/// Whether rows are sorted by these columns.
fn are_rising(nodes: &[Node<'_>], keys: &[SortKey], columns: &[usize]) -> bool
    ensures { IsTrue result ↔ (order_of nodes.now keys.now ≡ map by_column columns.now) }
{
    if keys.len() != columns.len() {
        return false;
    }
    for at in 0..keys.len() {
        if !is_rising(nodes, &keys[at], columns[at]) {
            return false;
        }
    }
    true
}

/// Whether the node at this index is this parameter, and the number that stands for no limit where there is none.
fn is_limit(nodes: &[Node<'_>], at: usize, limit: Option<usize>) -> bool
    ensures { IsTrue result ↔ (term_of nodes.now at ≡ expected_limit limit) }
{
    match limit {
        Some(param) => is_column(nodes, nodes.len(), at, 0, param),
        None => is_number(nodes, at, -1),
    }
}

/// Whether no step follows from this one on, where so many are read.
fn is_end(nodes: &[Node<'_>], steps: &[Step<'_>], depth: usize, at: usize) -> bool
    ensures { IsTrue result ↔ (join_at nodes.now steps.now depth at ≡ end) }
{
    depth == 0 || matches!(steps.get(at), None | Some(Step::End))
}

/// Whether the steps from this one on are those of one table.
fn is_one_table(nodes: &[Node<'_>], steps: &[Step<'_>], from: usize, tree: u32) -> bool
    ensures { IsTrue result ↔ (join_at nodes.now steps.now (length steps.now) from ≡ inner tree end) }
{
    match steps.get(from) {
        Some(Step::Inner(table, _, more)) => {
            *table == tree && is_end(nodes, steps, steps.len() - 1, *more)
        }
        _ => false,
    }
}

/// Whether the rows are one group, of which their number is taken.
fn is_count(nodes: &[Node<'_>], group: &Grouping<'_>) -> bool
    ensures { IsTrue result ↔ (grouping_of nodes.now group.now ≡ all_rows) }
{
    let [aggregate] = group.aggregates else {
        return false;
    };
    group.keys.is_empty()
        && group.collations.is_empty()
        && aggregate.op == AggregateOp::CountRows
        && !aggregate.distinct
        && aggregate.collation == Collation::Binary
        && is_null(nodes, aggregate.argument)
        && group.having.is_empty()
}

/// Whether the rows are counted, or else not grouped.
fn is_group(nodes: &[Node<'_>], group: &Option<Grouping<'_>>, counted: bool) -> bool
    ensures { IsTrue result ↔ (option_map (grouping_of nodes.now) group.now ≡ expected_group counted) }
{
    match group {
        Some(group) => counted && is_count(nodes, group),
        None => !counted,
    }
}

/// Whether this is the query of that shape on the table with this tree.
pub(crate) fn is_query(select: &Select<'_>, tree: u32, shape: &Shape<'_>) -> bool
    ensures { IsTrue result ↔ (query_of select.now ≡ expected_query tree shape.now) }
{
    is_one_table(select.nodes, select.steps, select.from, tree)
        && are_expected(select.nodes, select.filter, shape.filter)
        && is_group(select.nodes, &select.group, shape.counted)
        && are_expected(select.nodes, select.project, shape.project)
        && !select.distinct
        && select.collations.is_empty()
        && are_rising(select.nodes, select.order, shape.order)
        && is_limit(select.nodes, select.limit, shape.limit)
        && is_number(select.nodes, select.offset, 0)
}
