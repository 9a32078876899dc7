//! Which tables a store has, and whether a name is free.

ghost use Rattle.std.specs.Prelude.{◌≡◌};
ghost use Rattle.std.specs.List.{list_any};
ghost use Rattle.sqlite_schema.specs.Names.{same_name};
ghost use Rattle.mq_tables.specs.Making.{is_aside, has_table, has_ledger_table, has_later_table};
ghost use Rattle.mq_tables.specs.Indexing.{is_taken, lacks_index};

use sqlite_schema::names::same_name;
use sqlite_schema::schema::{Index, Schema, Table, View};

fn is_aside(view: &View, name: &[u8]) -> bool
    ensures { result ≡ is_aside name.now view.now }
{
    match &view.foreign {
        Some(owner) => same_name(view.name.as_slice(), name) && same_name(owner.as_slice(), name),
        None => false,
    }
}

fn any_named(tables: &[Table], name: &[u8]) -> bool
    ensures { result ≡ list_any (λ t. same_name t.name name.now) tables.now }
{
    tables
        .iter()
        .any(|table| same_name(table.name.as_slice(), name))
}

fn any_aside(views: &[View], name: &[u8]) -> bool
    ensures { result ≡ list_any (is_aside name.now) views.now }
{
    views.iter().any(|view| is_aside(view, name))
}

fn has_table(schema: &Schema, name: &[u8]) -> bool
    ensures { result ≡ has_table schema.now name.now }
{
    any_named(schema.tables.as_slice(), name) || any_aside(schema.views.as_slice(), name)
}

/// Whether a table of one of the ledger's seven names is there.
pub fn has_ledger_table(schema: &Schema) -> bool
    ensures { result ≡ has_ledger_table schema.now }
{
    has_table(schema, b"setting")
        || has_table(schema, b"answer")
        || has_table(schema, b"trans")
        || has_table(schema, b"usage")
        || has_table(schema, b"ceiling")
        || has_table(schema, b"rule")
        || has_table(schema, b"retired")
}

/// Whether a table is there of a name that only versions of the tables after this one have.
pub fn has_later_table(schema: &Schema, version: u32) -> bool
    ensures { result ≡ has_later_table version schema.now }
{
    (version < 2 && has_table(schema, b"rule")) || (version < 3 && has_table(schema, b"retired"))
}

fn any_index(indexes: &[Index], name: &[u8]) -> bool
    ensures { result ≡ list_any (λ i. same_name i.name name.now) indexes.now }
{
    indexes
        .iter()
        .any(|index| same_name(index.name.as_slice(), name))
}

fn any_view(views: &[View], name: &[u8]) -> bool
    ensures { result ≡ list_any (λ v. same_name v.name name.now) views.now }
{
    views
        .iter()
        .any(|view| same_name(view.name.as_slice(), name))
}

fn is_taken(schema: &Schema, name: &[u8]) -> bool
    ensures { result ≡ is_taken name.now schema.now }
{
    any_named(schema.tables.as_slice(), name)
        || any_index(schema.indexes.as_slice(), name)
        || any_view(schema.views.as_slice(), name)
}

/// Whether no table, index or view has the name of the ledger's index.
pub fn lacks_index(schema: &Schema) -> bool
    ensures { result ≡ lacks_index schema.now }
{
    !is_taken(schema, b"usage_by_day")
}
