//! The tracker: one line after another, each with the closing that it brings.
use crate::closing::{CloseEnd, Closing};
use crate::event::{Event, event_of};
use crate::fault::TrackFault;
use crate::sessions::{Sessions, Transaction};
use crate::standing::Standing;
use mq_line::Line;
use std::alloc::Global;
use std::marker::Model;

/// The sessions of smtpd with a login or an open transaction, and the count of transactions.
///
/// It stands at the list of the lines that it accepted: each answer is the one that looking back
/// over that list gives. It keeps no line, and no more of a session than its login and its open
/// transaction.
#[derive(Drop)]
pub struct Tracker {
    alloc: Global,
    sessions: Sessions,
    begins: u32,
}

impl Model for Tracker {
    ghost use Rattle.mq_track.specs.State.{State};

    ghost Value = { State };

    ghost view = { λ t. record { sessions = t.sessions; begins = t.begins } };
}

impl Tracker {
    ghost use Rattle.std.specs.Option.{option_copied};
    ghost use Rattle.std.specs.Prelude.{◌≡◌, ◌<◌, ◌≤◌, List, [], ◌∷◌, Err, None};
    ghost use Rattle.std.specs.Prelude.{IfSome, OnOk, OnErr, MatchBool, MatchResult, IsTrue};
    ghost use Rattle.mq_line.specs.Grammar.{Meaning, meaning};
    ghost use Rattle.mq_track.specs.Events.{event, Passed, Began, Ended, Left};
    ghost use Rattle.mq_track.specs.Told.{told};
    ghost use Rattle.mq_track.specs.Sessions.{closing, fault, position, is_exhausted, last_number};
    ghost use Rattle.mq_track.specs.State.{TracksAt, IsNumbered, shown};
    ghost use Rattle.mq_track.specs.Steps.{closing_in, brought, Steps, needs_memory};

    /// A tracker that accepted no line yet.
    pub fn new(alloc: Global) -> Tracker
        ensures { TracksAt result [] }
    {
        Tracker {
            alloc,
            sessions: Sessions::new(alloc),
            begins: 0,
        }
    }

    /// Takes the next line, and answers the closing of a transaction that it brings.
    ///
    /// Only reports of the subsystem smtp-in count, of link-auth, link-disconnect, tx-begin,
    /// tx-commit, tx-rollback and tx-reset. Every other line is accepted and changes nothing. After
    /// a fault the tracker is unchanged: that line isn't accepted. `Memory` comes only at a login
    /// that passed and at a tx-begin.
    pub fn apply(&mut self, line: &Line<'_>) -> Result<Option<Closing>, TrackFault>
        ensures refused { (past : List Meaning) → TracksAt self.old past →
            IfSome (fault past (meaning line.now)) (λ f. result ≡ Err f) }
        ensures accepted { (past : List Meaning) → TracksAt self.old past
            → fault past (meaning line.now) ≡ None →
            MatchResult result (λ c. c ≡ closing past (meaning line.now))
            (λ f. f ≡ TrackFault.Memory) }
        ensures stands { OnOk result ((past : List Meaning) →
            TracksAt self.old past → TracksAt self.new (meaning line.now ∷ past)) }
        ensures memory { result ≡ Err TrackFault.Memory
            → IsTrue (needs_memory (event (meaning line.now))) }
        ensures unchanged { OnErr result (self.new ≡ self.old) }
    {
        let event = event_of(line)?;
        self.take(event)
    }

    /// How a session stands after the accepted lines. Names of sessions compare byte for byte.
    pub fn standing(&self, session: &[u8]) -> Standing<'_>
        ensures numbered { IsNumbered result }
        ensures position { (past : List Meaning) → TracksAt self.now past
            → shown result ≡ position past session.now }
    {
        let Some(record) = self.sessions.get(session) else {
            return Standing::Anonymous;
        };
        let Some(login) = &record.login else {
            return Standing::Anonymous;
        };
        let login = login.as_slice();
        match &record.transaction {
            Some(open) => Standing::Open {
                login,
                txn: open.txn,
                moment: open.moment,
            },
            None => Standing::Login { login },
        }
    }

    /// Takes what a line reports.
    fn take(&mut self, event: Event<'_>) -> Result<Option<Closing>, TrackFault>
        ensures ok { MatchBool (is_exhausted self.old.begins (told event.entry))
            (result ≡ Err TrackFault.Exhausted)
            (MatchResult result
            (λ c. (c ≡ brought self.old (told event.entry))
            × Steps self.old self.new (told event.entry))
            (λ f. (f ≡ TrackFault.Memory) × IsTrue (needs_memory (told event.entry)))) }
        ensures err { OnErr result (self.new ≡ self.old) }
    {
        match event {
            Event::Passed { session, login } => {
                self.sessions.log_in(session, login)?;
                Ok(None)
            }
            Event::Began {
                session,
                message,
                moment,
            } => self.begin(session, message, moment),
            Event::Ended {
                session,
                message,
                end,
            } => Ok(self.end(session, message, end)),
            Event::Left { session } => Ok(self.leave(session)),
            Event::Nothing => Ok(None),
        }
    }

    /// The closing of the session's open transaction by an ending with this message id.
    fn closing(&self, session: &[u8], message: Option<&[u8]>, end: CloseEnd) -> Option<Closing>
        ensures { result ≡ closing_in self.now session.now (option_copied message.entry) end }
    {
        let open = self.sessions.transaction(session)?;
        if message.is_some_and(|message| message != open.message.as_slice()) {
            return None;
        }
        Some(Closing { txn: open.txn, end })
    }

    /// A transaction begins, and one that was open ends.
    fn begin(
        &mut self,
        session: &[u8],
        message: &[u8],
        moment: u64,
    ) -> Result<Option<Closing>, TrackFault>
        ensures exhausted { last_number ≤ self.old.begins → result ≡ Err TrackFault.Exhausted }
        ensures ok { self.old.begins < last_number → MatchResult result
            (λ c. (c ≡ brought self.old (Began session.now message.now moment))
            × Steps self.old self.new (Began session.now message.now moment))
            (λ f. f ≡ TrackFault.Memory) }
        ensures err { OnErr result (self.new ≡ self.old) }
    {
        if self.begins == u32::MAX {
            return Err(TrackFault::Exhausted);
        }
        // What it ends is found before anything changes, and so is the memory: an `Err` leaves all
        // as it was.
        let closing = self.closing(session, None, CloseEnd::Rollback);
        let transaction = Transaction {
            txn: self.begins + 1,
            message: Vec::from_slice(self.alloc, message)?,
            moment,
        };
        self.sessions.begin(session, transaction)?;
        self.begins += 1;
        Ok(closing)
    }

    /// A transaction ends by its message id, or whatever its id is.
    fn end(&mut self, session: &[u8], message: Option<&[u8]>, end: CloseEnd) -> Option<Closing>
        ensures closing { result ≡ brought self.old (Ended session.now
            (option_copied message.entry) end) }
        ensures after { Steps self.old self.new (Ended session.now
            (option_copied message.entry) end) }
    {
        let closing = self.closing(session, message, end);
        if closing.is_some() {
            self.sessions.end(session);
        }
        closing
    }

    /// A session leaves, and its open transaction ends.
    fn leave(&mut self, session: &[u8]) -> Option<Closing>
        ensures closing { result ≡ brought self.old (Left session.now) }
        ensures after { Steps self.old self.new (Left session.now) }
    {
        let closing = self.closing(session, None, CloseEnd::Rollback);
        self.sessions.forget(session);
        closing
    }
}
