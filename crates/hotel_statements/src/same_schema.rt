//! Whether a schema is another without its last tables and indexes, of the forms that a desk's tables have.
//!
//! Of other forms, as a column with a default, the answer is no.
ghost use Rattle.std.specs.Prelude.{◌≡◌, ◌==◌, ◌<◌, ◌≤◌, Bool, MatchOption, length, bytes_eq};
ghost use Rattle.sqlite_sql.specs.Term.{lit};
ghost use Rattle.sqlite_value.specs.declared.value.Value.TheVariants.{Null};
ghost use Rattle.sqlite_schema.specs.Code.{op_term, term_to, terms_in};
ghost use Rattle.hotel_statements.specs.SameSchema as spec;

use sqlite_items::Items;
use sqlite_schema::code::{Op, Terms};
use sqlite_schema::schema::{Action, Column, Index, Kind, Reference, Schema, Stamps, Table};
use sqlite_sql::ops::{BinaryOp, CompareOp};
use sqlite_value::keys::{Collation, Order};
use sqlite_value::value::{Bytes, Value};

/// A part of a schema.
trait Part: Sized {
    /// Whether the two are the same.
    ghost same: { Self → Self → Bool };

    fn is_same(&self, other: &Self) -> bool
        ensures { result ≡ same self.now other.now };
}

/// Whether the parts of two lists are the same, each to each.
fn same_parts<T: Part>(a: &[T], b: &[T]) -> bool
    ensures { result ≡ spec.same_all T.Part.same a.now b.now }
{
    let [x, more @ ..] = a else {
        return b.is_empty();
    };
    let [y, others @ ..] = b else {
        return false;
    };
    x.is_same(y) && same_parts(more, others)
}

fn same_flag(a: bool, b: bool) -> bool
    ensures { result ≡ spec.same_flag a b }
{
    if a { b } else { !b }
}

fn same_place(a: Option<usize>, b: Option<usize>) -> bool
    ensures { result ≡ spec.same_place a b }
{
    match (a, b) {
        (None, None) => true,
        (Some(x), Some(y)) => x == y,
        _ => false,
    }
}

fn same_kind(a: Kind, b: Kind) -> bool
    ensures { result ≡ spec.same_kind a b }
{
    match (a, b) {
        (Kind::Integer, Kind::Integer) | (Kind::Text, Kind::Text) => true,
        _ => false,
    }
}

fn is_null(value: &Value) -> bool
    ensures { result ≡ spec.is_null value.now }
{
    matches!(value, Value::Null)
}

fn is_binary(collation: Collation) -> bool
    ensures { result ≡ spec.is_binary collation }
{
    matches!(collation, Collation::Binary)
}

fn is_no_action(action: Action) -> bool
    ensures { result ≡ spec.is_no_action action }
{
    matches!(action, Action::NoAction)
}

fn same_comparison(a: CompareOp, b: CompareOp) -> bool
    ensures { result ≡ spec.same_comparison a b }
{
    match (a, b) {
        (CompareOp::Eq, CompareOp::Eq)
        | (CompareOp::Lt, CompareOp::Lt)
        | (CompareOp::Le, CompareOp::Le)
        | (CompareOp::Ge, CompareOp::Ge) => true,
        _ => false,
    }
}

fn same_op(a: BinaryOp, b: BinaryOp) -> bool
    ensures { result ≡ spec.same_op a b }
{
    match (a, b) {
        (BinaryOp::Compare(x, how), BinaryOp::Compare(y, other)) => {
            same_comparison(x, y) && is_binary(how) && is_binary(other)
        }
        (BinaryOp::And, BinaryOp::And) | (BinaryOp::Or, BinaryOp::Or) => true,
        _ => false,
    }
}

/// The node at a place, which is NULL where there is none, and the depth to which its operands are read.
fn opened(ops: &[Op], depth: usize, at: usize) -> Option<(&Op, usize)>
    ensures { MatchOption result (term_to ops.now depth at ≡ lit Null)
        (λ found. (term_to ops.now depth at ≡ op_term (term_to ops.now found.1) found.0.now) × (found.1 < depth)) }
{
    if depth == 0 || at >= ops.len() {
        return None;
    }
    Some((&ops[at], depth - 1))
}

/// Whether two terms are the same, each read to a depth.
fn same_term(a: &[Op], depth: usize, at: usize, b: &[Op], other_depth: usize, place: usize) -> bool
    ensures { result ≡ spec.same_term (term_to a.now depth at) (term_to b.now other_depth place) }
{
    let Some((op, below)) = opened(a, depth, at) else {
        return false;
    };
    let Some((other, under)) = opened(b, other_depth, place) else {
        return false;
    };
    match (op, other) {
        (Op::Literal(Value::Int(m)), Op::Literal(Value::Int(n))) => m == n,
        (Op::Column(slot, i), Op::Column(row, j)) => slot == row && i == j,
        (Op::Binary(x, l, r), Op::Binary(y, m, n)) => {
            same_op(*x, *y)
                && same_term(a, below, *l, b, under, *m)
                && same_term(a, below, *r, b, under, *n)
        }
        _ => false,
    }
}

/// Whether the terms at these places are the same, each to each.
fn same_roots(a: &[Op], at: &[usize], b: &[Op], places: &[usize]) -> bool
    ensures { result ≡ spec.same_all spec.same_term (terms_in a.now at.now) (terms_in b.now places.now) }
{
    let [x, more @ ..] = at else {
        return places.is_empty();
    };
    let [y, others @ ..] = places else {
        return false;
    };
    same_term(a, a.len(), *x, b, b.len(), *y) && same_roots(a, more, b, others)
}

fn same_terms(a: &Terms, b: &Terms) -> bool
    ensures { result ≡ spec.same_all spec.same_term a.now b.now }
{
    same_roots(
        a.nodes.as_slice(),
        a.roots.as_slice(),
        b.nodes.as_slice(),
        b.roots.as_slice(),
    )
}

fn has_no_terms(terms: &Terms) -> bool
    ensures { result ≡ (length terms.now == 0) }
{
    terms.roots.len() == 0
}

/// Whether no default reads the time.
fn has_no_stamps(stamps: &Stamps) -> bool
    ensures { result ≡ spec.has_no_stamps stamps.now }
{
    stamps.places.len() == 0 && has_no_terms(&stamps.terms) && stamps.formats.len() == 0
}

fn same_name(a: &Bytes, b: &Bytes) -> bool
    ensures { result ≡ bytes_eq a.now b.now }
{
    a.as_slice() == b.as_slice()
}

fn same_places(a: &Items<usize>, b: &Items<usize>) -> bool
    ensures { result ≡ bytes_eq a.now b.now }
{
    a.as_slice() == b.as_slice()
}

impl Part for Bytes {
    ghost same = { bytes_eq };

    fn is_same(&self, other: &Bytes) -> bool {
        same_name(self, other)
    }
}

impl Part for Items<usize> {
    ghost same = { bytes_eq };

    fn is_same(&self, other: &Items<usize>) -> bool {
        same_places(self, other)
    }
}

impl Part for Order {
    ghost same = { spec.same_order };

    fn is_same(&self, other: &Order) -> bool {
        self.digits == other.digits
    }
}

impl Part for Column {
    ghost same = { spec.same_column };

    fn is_same(&self, other: &Column) -> bool {
        same_name(&self.name, &other.name)
            && same_kind(self.kind, other.kind)
            && same_flag(self.is_strict, other.is_strict)
            && same_flag(self.not_null, other.not_null)
            && is_null(&self.default)
            && is_null(&other.default)
            && is_binary(self.collation)
            && is_binary(other.collation)
    }
}

impl Part for Reference {
    ghost same = { spec.same_reference };

    fn is_same(&self, other: &Reference) -> bool {
        same_places(&self.columns, &other.columns)
            && same_name(&self.parent, &other.parent)
            && same_parts(
                self.parent_columns.as_slice(),
                other.parent_columns.as_slice(),
            )
            && is_no_action(self.on_delete)
            && is_no_action(other.on_delete)
            && is_no_action(self.on_update)
            && is_no_action(other.on_update)
            && same_flag(self.is_deferred, other.is_deferred)
    }
}

/// Whether two tables have the same name, tree, columns and keys.
fn same_shape(a: &Table, b: &Table) -> bool
    ensures { result ≡ spec.same_shape a.now b.now }
{
    same_name(&a.name, &b.name)
        && a.tree == b.tree
        && same_parts(a.columns.as_slice(), b.columns.as_slice())
        && same_place(a.key, b.key)
        && same_places(&a.primary, &b.primary)
        && same_parts(a.uniques.as_slice(), b.uniques.as_slice())
        && same_parts(a.orders.as_slice(), b.orders.as_slice())
}

/// Whether two tables have the same rules, and no default that is computed.
fn same_rules(a: &Table, b: &Table) -> bool
    ensures { result ≡ spec.same_rules a.now b.now }
{
    same_terms(&a.checks, &b.checks)
        && same_parts(a.references.as_slice(), b.references.as_slice())
        && same_places(&a.computed, &b.computed)
        && has_no_stamps(&a.stamps)
        && has_no_stamps(&b.stamps)
        && same_flag(a.is_counted, b.is_counted)
}

impl Part for Table {
    ghost same = { spec.same_table };

    fn is_same(&self, other: &Table) -> bool {
        same_shape(self, other) && same_rules(self, other)
    }
}

impl Part for Index {
    ghost same = { spec.same_index };

    fn is_same(&self, other: &Index) -> bool {
        same_name(&self.name, &other.name)
            && self.tree == other.tree
            && self.table == other.table
            && same_places(&self.columns, &other.columns)
            && self.order.digits == other.order.digits
            && same_flag(self.is_unique, other.is_unique)
    }
}

/// Whether a schema is another without its tables and indexes past the first so many, and has no view.
pub fn same_prefix(a: &Schema, b: &Schema, tables: usize, indexes: usize) -> bool
    requires tables { tables ≤ length b.now.tables }
    requires indexes { indexes ≤ length b.now.indexes }
    ensures { result ≡ spec.same_prefix tables indexes a.now b.now }
{
    same_parts(a.tables.as_slice(), &b.tables.as_slice()[..tables])
        && same_parts(a.indexes.as_slice(), &b.indexes.as_slice()[..indexes])
        && a.views.len() == 0
        && b.views.len() == 0
}
