//! Laws of the store's trees. Each function does nothing: its contract is the law.
ghost use Rattle.std.specs.Prelude.{◌≡◌, [], false};
ghost use Rattle.sqlite.specs.Does.{lacks_sequence};
ghost use Rattle.sqlite.specs.Effect.{Database, IsDatabase};
ghost use Rattle.sqlite_trees.specs.Objects.{catalog_tree};
ghost use Rattle.mq_tables.specs.Making.{AreUnnamed};

/// Trees list one schema at most: whoever opens a sound database finds the one that was left.
pub fn trees_have_one_schema()
    ensures { (a : Database) (b : Database) → IsDatabase a → IsDatabase b → a.trees ≡ b.trees
        → a ≡ b }
{}

/// A database that lists nothing is ready for a ledger: no counter is missing, and no foreign key
/// names one of its tables.
pub fn empty_databases_have_no_table()
    ensures { (db : Database) → IsDatabase db → db.trees catalog_tree ≡ []
        → (lacks_sequence db.schema ≡ false) × AreUnnamed db.schema }
{}
