//! What the filter holds back for a while, so that a server that is gone, or a login whose limit is
//! reached, isn't asked again and again.
ghost use Rattle.std.specs.Prelude.{◌≡◌, ◌≤◌, length, is_some, OnOk, OnErr, Option, None, Some};
ghost use Rattle.std.specs.Prelude.{filter, not};
ghost use Rattle.std.specs.Option.{option_map};
ghost use Rattle.mq_request.specs.Same.{same_text};
ghost use Rattle.mq_client.specs.Holding.{nothing_held, still, still_by, is_over, still_paused};
ghost use Rattle.mq_client.specs.Holding.{minute_of, is_full, held_back, noted, with_full};
ghost use Rattle.mq_client.specs.Freeing.{shown_full, heard};
ghost use Rattle.mq_client.specs.TriesOutcome.{given_by};

use crate::spans::Spans;
use crate::tries::TriesOutcome;
use mq_line::Decision;
use mq_request::{Login, Request};
use std::alloc::{AllocError, Global};
use std::marker::Model;

/// The most logins that are held back.
const MOST: usize = 1000;

const SECONDS_OF_A_MINUTE: u64 = 60;

/// A login whose limit a recipient would have passed, and the moment of its transaction.
#[derive(Clone, Copy)]
pub struct FullAnswer<'a> {
    pub login: &'a [u8],
    pub moment: u64,
}

/// A login whose limit was reached, with the second of the line at which it was answered so.
#[derive(Drop)]
pub struct FullLogin {
    pub since: u64,
    /// The minute in which its transaction began, counted from 1970-01-01T00:00:00Z.
    pub minute: u64,
    pub login: Login,
}

/// What is held back.
#[derive(Drop)]
pub struct Holdup {
    alloc: Global,
    spans: Spans,
    paused: Option<u64>,
    full: Vec<FullLogin>,
    ghost few: { length full.items ≤ 1000 },
}

impl Model for Holdup {
    ghost use Rattle.mq_client.specs.Holding.{Holding};
    ghost use Rattle.mq_client.specs.declared.spans.Spans.{Spans as AnySpans};

    ghost Value = { AnySpans × Holding };

    ghost view = { λ h. (h.spans, record { paused = h.paused; full = h.full.items }) };
}

/// Whether a line of this second ends what began at that one.
pub fn is_over(span: u64, since: u64, seconds: u64) -> bool
    ensures { result ≡ is_over span since seconds }
{
    seconds < since || span <= seconds - since
}

/// A pause, unless a line of this second ends it.
fn still_paused(span: u64, seconds: u64, paused: Option<u64>) -> Option<u64>
    ensures { result ≡ still_paused span seconds paused }
{
    match paused {
        Some(since) => {
            if is_over(span, since, seconds) {
                None
            } else {
                Some(since)
            }
        }
        None => None,
    }
}

/// The minute of a moment. Each day of a ledger begins with one, where its zone's offsets are whole
/// minutes: so what was refused on one day holds nobody back on the next.
fn minute_of(moment: u64) -> u64
    ensures { result ≡ minute_of moment }
{
    moment / SECONDS_OF_A_MINUTE
}

/// Whether the login is one whose limit was reached, in a transaction of that minute.
fn is_full(login: &[u8], minute: u64, full: &[FullLogin]) -> bool
    ensures { result ≡ is_full login.now minute full.now }
{
    full.iter().any(|one| one.minute == minute && one.login.as_slice() == login)
}

impl Holdup {
    /// Nothing is held back so far, and later for these spans.
    pub fn new(alloc: Global, spans: Spans) -> Holdup
        ensures { result ≡ (spans, nothing_held) }
    {
        Holdup {
            alloc,
            spans,
            paused: None,
            full: Vec::new(alloc),
        }
    }

    /// A line comes, of this second where it has one: what was held back long enough is held back
    /// no longer.
    pub fn pass(&mut self, seconds: Option<u64>)
        ensures { self.new ≡ (self.old.0, still_by self.old.0 seconds self.old.1) }
    {
        if let Some(seconds) = seconds {
            self.end(seconds);
        }
    }

    /// What was held back long enough at a line of this second is held back no longer.
    fn end(&mut self, seconds: u64)
        ensures { self.new ≡ (self.old.0, still self.old.0 seconds self.old.1) }
    {
        let hold = self.spans.hold;
        self.paused = still_paused(self.spans.pause, seconds, self.paused);
        self.full.retain(|one| !is_over(hold, one.since, seconds));
    }

    /// Whether no request is to be sent.
    pub fn is_paused(&self) -> bool
        ensures { result ≡ is_some self.now.1.paused }
    {
        self.paused.is_some()
    }

    /// How a recipient of the login is answered with no exchange, in a transaction of that moment,
    /// where it is held back.
    pub fn held_back(&self, login: &[u8], moment: u64) -> Option<Decision>
        ensures { result ≡ held_back self.now.1 login.now moment }
    {
        if is_full(login, minute_of(moment), self.full.as_slice()) {
            Some(Decision::RejectLimit)
        } else if self.paused.is_some() {
            Some(Decision::RejectService)
        } else {
            None
        }
    }

    /// Notes whether a request ran out of time at a line, of this second where it has one.
    pub fn note(&mut self, seconds: Option<u64>, timed_out: bool)
        ensures { self.new ≡ (self.old.0, noted self.old.0 seconds timed_out None self.old.1) }
    {
        if let Some(seconds) = seconds {
            if timed_out {
                self.paused = Some(seconds);
            }
        }
    }

    /// Notes what came of a request of smtpd in a line of this second: whether it ran out of time,
    /// and the login that was answered by the limit. An `Err` says that there was no memory for the
    /// login.
    pub fn note_answer(
        &mut self,
        seconds: u64,
        timed_out: bool,
        full: Option<FullAnswer<'_>>,
    ) -> Result<(), AllocError>
        ensures { OnOk result (self.new ≡ (
          self.old.0,
          noted self.old.0 (Some seconds) timed_out (option_map shown_full full.entry)
              self.old.1,
        )) }
    {
        self.note(Some(seconds), timed_out);
        match full {
            Some(full) => self.hold(seconds, full),
            None => Ok(()),
        }
    }

    /// Holds a login back.
    fn hold(&mut self, since: u64, full: FullAnswer<'_>) -> Result<(), AllocError>
        ensures noted { OnOk result (self.new ≡ (
          self.old.0,
          record {
            paused = self.old.1.paused;
            full = with_full self.old.0 since (Some (shown_full full.entry)) self.old.1.full;
          },
        )) }
    {
        if self.spans.hold == 0 || self.full.len() >= MOST {
            return Ok(());
        }
        let minute = minute_of(full.moment);
        let login = Login::from_slice(self.alloc, full.login)?;
        self.full.push(FullLogin {
            since,
            minute,
            login,
        })?;
        Ok(())
    }

    /// A closing was sent, and this came of it: a login of which recipients were given back is held
    /// back no longer.
    pub fn hear(&mut self, closing: &Request, sent: TriesOutcome)
        ensures { self.new ≡ (self.old.0, heard closing.now (given_by sent) self.old.1) }
    {
        if let Request::Release { login, .. } = closing {
            if sent.given_back() > 0 {
                self.free(login.as_slice());
            }
        }
    }

    /// A login is held back no longer.
    fn free(&mut self, login: &[u8])
        ensures { self.new ≡ (
          self.old.0,
          record {
            paused = self.old.1.paused;
            full = filter (λ f. not (same_text f.login login.now)) self.old.1.full;
          },
        ) }
    {
        self.full.retain(|one| one.login.as_slice() != login);
    }
}
