//! How far an old ledger was gone through.
ghost use Rattle.std.specs.Prelude.{◌≡◌, ◌≤◌};

/// How many answers of an old ledger were looked at, oldest first.
#[derive(Clone, Copy)]
pub(crate) struct RenewalPlace {
    /// So many were, and each that stays was taken over: so it is the place of the next, counted
    /// from 0.
    pub place: u64,
    /// So many of these the scratch ledger has applied, oldest first.
    pub followed: u64,
    ghost before: { followed ≤ place },
}

impl RenewalPlace {
    /// None were yet.
    pub fn nothing() -> RenewalPlace
        ensures { (result.place ≡ 0) × (result.followed ≡ 0) }
    {
        RenewalPlace {
            place: 0,
            followed: 0,
        }
    }
}
