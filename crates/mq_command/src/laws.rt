//! Laws of what is asked. The function does nothing: its contract is the law.
ghost use Rattle.std.specs.Prelude.{◌≡◌, ◌<◌, ℕ, List};
ghost use Rattle.std.specs.List.{All};
ghost use Rattle.mq_ledger.specs.declared.entry.Entry.{Entry as AnyEntry};
ghost use Rattle.mq_ledger.specs.Answer.{with_arrival};
ghost use Rattle.mq_ledger.specs.History.{held};
ghost use Rattle.mq_ledger.specs.Legal.{IsLegal};
ghost use Rattle.mq_command.specs.Probing.{host_question};
ghost use Rattle.mq_command.specs.Unchanged.{AreAlike, host_transaction};
ghost use Rattle.mq_command.specs.Forms.{json_login};
ghost use Rattle.mq_command.specs.Shares.{unlimited_login};
ghost use Rattle.mq_command.specs.Vis.{vis};

use mq_ledger::laws::{
    one_more_floor, one_more_limit, one_more_of_a_transaction, one_more_on_a_day, open_transactions,
};

/// What is asked about a host leaves each login's use and limits as they were, what each
/// transaction holds and the floor of each host, where the transaction that is asked about holds
/// nothing. One with no entry holds nothing.
pub fn asking_about_a_host_changes_nothing()
    ensures { (day : ℕ → ℕ) (default : ℕ) (H : List AnyEntry) (host : List ℕ) (now : ℕ) →
        IsLegal day default H → held H (host_transaction host now) ≡ 0 →
        AreAlike day default H (with_arrival day default H (host_question host now)) }
{
    one_more_on_a_day();
    one_more_of_a_transaction();
    one_more_limit();
    one_more_floor();
    open_transactions();
}

/// smtpd reports no login as the one whose limit shows a server's default.
pub fn no_login_is_reported_as_unlimited()
    ensures { (login : List ℕ) → vis login ≡ unlimited_login → ⊥ }
{}

/// No two logins have one JSON string, so that what is printed of one says which it is.
pub fn logins_stay_apart_in_json()
    ensures { (one other : List ℕ) → All (λ byte. byte < 256) one → All (λ byte. byte < 256) other
        → json_login one ≡ json_login other → one ≡ other }
{}
