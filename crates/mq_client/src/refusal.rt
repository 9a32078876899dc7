//! Why the filter refuses a recipient by itself, and of which of these causes it has warned.
ghost use Rattle.std.specs.Prelude.{◌≡◌, ◌≤◌, [], length, true, false};
ghost use Rattle.std.specs.List.{Contains};
ghost use Rattle.mq_client.specs.GivenWarnings.{Remembers};

use crate::session::SessionName;
use mq_request::EscapedText;
use mq_request::bounds::LOGIN_LIMIT;
use std::alloc::Global;
use std::collections::VecDeque;
use std::fmt;
use std::marker::Model;

/// The most warnings that are remembered.
const REMEMBERED: usize = 64;

/// Why a recipient is refused without asking the server.
#[derive(Clone, Copy, Debug, PartialEq, Eq)]
pub enum RefusalCause {
    /// smtpd reported no transaction in the session.
    NoTransaction,
    /// The login is empty or longer than 255 bytes.
    Login,
    /// The transaction began before 1970-01-02 or after 3000-01-01T00:00:00Z.
    Moment,
    /// The transaction is held with another login or moment.
    Changed,
    /// The transaction has let 1,000 recipients through.
    Recipients,
    /// 4,096 transactions are held or wait to be closed.
    Places,
    /// The numbers of the run are used up.
    Numbers,
}

impl fmt::Display for RefusalCause {
    fn fmt<W: fmt::Write>(&self, f: &mut fmt::Formatter<W>) -> fmt::Result {
        f.write_str(match self {
            RefusalCause::NoTransaction => "smtpd reported no transaction",
            RefusalCause::Login => "the login is empty or longer than 255 bytes",
            RefusalCause::Moment => "the transaction's second is out of range",
            RefusalCause::Changed =>
                "the transaction began with another login or at another second",
            RefusalCause::Recipients => "the transaction has 1,000 recipients already",
            RefusalCause::Places => "4,096 transactions are open or wait for the server",
            RefusalCause::Numbers => "the numbers of this run are used up",
        })
    }
}

/// A recipient of a session that is refused.
#[derive(Clone, Copy)]
pub struct RefusedRecipient<'a> {
    pub session: SessionName,
    pub login: &'a [u8],
    pub cause: RefusalCause,
}

impl fmt::Display for RefusedRecipient<'_> {
    fn fmt<W: fmt::Write>(&self, f: &mut fmt::Formatter<W>) -> fmt::Result {
        let session = EscapedText(self.session.name());
        let login = EscapedText(shortened(self.login));
        let cause = self.cause;
        write!(
            f,
            "session {session} (login {login}): recipients are refused, {cause}"
        )
    }
}

/// The bytes of a login, or the first 255 of a longer one.
fn shortened(login: &[u8]) -> &[u8] {
    login.get(..usize::from(LOGIN_LIMIT)).unwrap_or(login)
}

/// A warning that was given.
#[derive(Clone, Copy, PartialEq, Eq, Drop)]
pub struct GivenWarning {
    pub session: SessionName,
    pub cause: RefusalCause,
}

/// The latest warnings, so that each cause is warned of once in a session. Sessions whose names
/// begin with the same 16 bytes count as one, and after 64 other warnings a session is warned of
/// again.
#[derive(Drop)]
pub struct GivenWarnings {
    given: VecDeque<GivenWarning>,
    ghost few: { length given.items ≤ 64 },
}

impl Model for GivenWarnings {
    ghost use Rattle.std.specs.Prelude.{List};
    ghost use Rattle.mq_client.specs.declared.refusal.GivenWarning.{GivenWarning};

    ghost Value = { List GivenWarning };

    ghost view = { λ warnings. warnings.given.items };
}

impl GivenWarnings {
    /// None was given so far.
    pub fn new(alloc: Global) -> GivenWarnings
        ensures { result ≡ [] }
    {
        GivenWarnings {
            given: VecDeque::new(alloc),
        }
    }

    /// Whether this is the first warning of the session for this cause; it is remembered, unless
    /// memory runs out.
    pub fn is_first(&mut self, session: SessionName, cause: RefusalCause) -> bool
        ensures first { result ≡ true
            → Contains self.old (record { session = session; cause = cause }) → ⊥ }
        ensures known { result ≡ false
            → Contains self.old (record { session = session; cause = cause }) }
        ensures again { result ≡ false → self.new ≡ self.old }
        ensures given { result ≡ true
            → Remembers self.old self.new (record { session = session; cause = cause }) }
    {
        let warning = GivenWarning { session, cause };
        if self.given.contains(&warning) {
            return false;
        }
        if self.given.len() == REMEMBERED {
            // (the oldest makes room)
            let _ = self.given.pop_front();
        }
        // (without memory for it the next such recipient is warned of once more)
        let _ = self.given.push_back(warning);
        true
    }
}
