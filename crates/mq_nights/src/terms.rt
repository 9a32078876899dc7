//! What stays the same all night.
ghost use Rattle.std.specs.Prelude.{[], pos};
ghost use Rattle.mq_ledger.specs.Day.{ByOffset};
ghost use Rattle.mq_store.specs.Taking.{book_of};

use std::marker::Brand;

/// What stays the same all night, whatever its chore does. It is for contracts alone: they can't
/// name what a chore was before its first piece.
pub trait NightTerms {
    ghost use Rattle.std.specs.Prelude.{ℕ};
    ghost use Rattle.mq_ledger.specs.Legal.{Book};

    /// So many days are kept before the one that it goes by.
    ghost keep: { ℕ };

    /// What the ledger meant as the night began.
    ghost begun: { Book };
}

impl NightTerms for Brand {
    ghost keep = { 0 };

    ghost begun = { book_of (ByOffset (pos 0)) 0 [] };
}
