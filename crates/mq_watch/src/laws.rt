//! Laws of what counts as today. Each function does nothing: its contract is the law.
ghost use Rattle.std.specs.Prelude.{◌≡◌, ◌≤◌, ◌<◌, ◌+◌, ℕ, List, ◌∷◌, All};
ghost use Rattle.mq_watch.specs.declared.calendar.Calendar.{Calendar};
ghost use Rattle.mq_watch.specs.Today.{calendar_after_all, today_of};

/// A clock that isn't before all days of the ledger counts by itself, whatever it showed before.
pub fn a_clock_that_is_right_counts()
    ensures { (c : Calendar) (days : List ℕ) (day : ℕ) → c.first ≤ day →
        today_of (calendar_after_all c days) day ≡ day }
{}

/// While the clock is before them all, as many days pass as by the clock.
pub fn days_pass_with_a_slow_clock()
    ensures { (c : Calendar) (days : List ℕ) (before day : ℕ) →
        All (λ d. d < c.first) (before ∷ days) → day < c.first →
        today_of (calendar_after_all c (before ∷ days)) day + before ≡ today_of c before + day }
{}
