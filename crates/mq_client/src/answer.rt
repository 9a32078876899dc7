//! The answer to one request of smtpd.
ghost use Rattle.std.specs.Prelude.{◌≡◌, ◌≢◌, ◌<◌, ◌++◌, ◌&&◌, ◌⊎◌, [], ℕ, List, Option, None};
ghost use Rattle.std.specs.Prelude.{Some, Err, false, codes, IfOk};
ghost use Rattle.std.specs.Prelude.{OnOk, OnErr, IfErr};
ghost use Rattle.std.specs.Str.{bytes_eq};
ghost use Rattle.mq_stream.specs.Flow.{IsFlushed};
ghost use Rattle.mq_track.specs.Sessions.{Sending};
ghost use Rattle.mq_track.specs.State.{TracksAt};
ghost use Rattle.mq_line.specs.Grammar.{Meaning};
ghost use Rattle.mq_line.specs.Results.{result_text};
ghost use Rattle.mq_lemmas.specs.Told.{Tells};
ghost use Rattle.std.specs.Option.{option_map};
ghost use Rattle.mq_client.specs.Past.{Step, Ask};
ghost use Rattle.mq_client.specs.Holding.{Holding, times_out, full_by, full_in, freed_in, noted_by};
ghost use Rattle.mq_client.specs.Freeing.{shown_full};
ghost use Rattle.mq_client.specs.Causes.{cause_of};
ghost use Rattle.mq_client.specs.Filter.{is_login, is_moment, query_at, query};
ghost use Rattle.mq_client.specs.Filter.{decision_of, Answers};
ghost use Rattle.mq_client.specs.Run.{around};
ghost use Rattle.mq_client.specs.Loop.{MakesOne, told_one, Does, Replies, IsCut};

use crate::client::Client;
use crate::fault::FilterFault;
use crate::holdup::{FullAnswer, Holdup};
use crate::observer::{AnswerKind, FilterEvent, Observer};
use crate::recipient_answer::RecipientAnswer;
use crate::refusal::RefusalCause;
use mq_line::{Decision, write_result};
use mq_link::Link;
use mq_request::{is_login, is_moment};
use mq_stream::{DeviceFault, Sink, write_and_flush};
use mq_track::{Standing, Tracker};
use std::alloc::{AllocError, Global};

/// A request of smtpd, with the second of its line.
#[derive(Clone, Copy)]
pub struct Inquiry<'a> {
    pub seconds: u64,
    pub subsystem: &'a [u8],
    pub phase: &'a [u8],
    pub session: &'a [u8],
    pub token: &'a [u8],
}

/// Whether login and moment are such that a recipient can be asked for.
fn may_ask(login: &[u8], moment: u64) -> bool
    ensures { result ≡ (is_login login.now && is_moment moment) }
{
    is_login(login) && is_moment(moment)
}

/// Why a recipient of this login can't be asked for.
fn cause_of(login: &[u8]) -> RefusalCause
    ensures { result ≡ cause_of login.now }
{
    if is_login(login) {
        RefusalCause::Moment
    } else {
        RefusalCause::Login
    }
}

fn is_recipient(subsystem: &[u8], phase: &[u8]) -> bool
    ensures { result ≡ (bytes_eq subsystem.now
        (codes "smtp-in") && bytes_eq phase.now (codes "rcpt-to")) }
{
    subsystem == b"smtp-in".as_slice() && phase == b"rcpt-to".as_slice()
}

fn decision_of(answer: RecipientAnswer) -> Decision
    ensures { result ≡ decision_of answer }
{
    match answer {
        RecipientAnswer::Granted => Decision::Proceed,
        RecipientAnswer::Full => Decision::RejectLimit,
        RecipientAnswer::Unavailable => Decision::RejectService,
    }
}

/// How a request of smtpd is answered, and what came of it.
#[derive(Clone, Copy)]
struct Ruling<'a> {
    decision: Decision,
    kind: AnswerKind,
    /// No try decided, and one ran out of time.
    timed_out: bool,
    /// What was answered by the limit.
    full: Option<FullAnswer<'a>>,
}

/// An answer that no request was made for.
fn unasked<'a>(decision: Decision, kind: AnswerKind) -> Ruling<'a>
    ensures decision { result.decision ≡ decision }
    ensures timed_out { result.timed_out ≡ false }
    ensures full { option_map shown_full result.full ≡ None }
{
    Ruling {
        decision,
        kind,
        timed_out: false,
        full: None,
    }
}

/// The login and the moment of its transaction, where its limit is reached.
fn full_answer(answer: RecipientAnswer, login: &[u8], moment: u64) -> Option<FullAnswer<'_>>
    ensures { (txn : ℕ) → option_map shown_full result
        ≡ full_by (Ask txn moment login.now) answer }
{
    match answer {
        RecipientAnswer::Full => Some(FullAnswer { login, moment }),
        _ => None,
    }
}

/// Counts a recipient that is held back, and for the log one that is answered 451 in a pause.
fn note_held_back<R: Observer>(rt: &R, client: &mut Client, decision: Decision)
    ensures { client.new ≡ client.old }
{
    rt.observe(FilterEvent::HeldBack(AnswerKind::of(decision)));
    if decision == Decision::RejectService {
        client.count_held_back();
    }
}

/// Asks for a recipient of the transaction that is open in the client's session, unless it is held
/// back.
fn ask<'a, R: Observer, K: Link>(
    rt: &R,
    login: &'a [u8],
    txn: u32,
    moment: u64,
    holdup: &Holdup,
    link: &mut K,
    client: &mut Client,
) -> Result<Ruling<'a>, AllocError>
    requires { 0 < txn }
    ensures ok { IfOk result (λ d. (step : Option Step)
        × Tells (K.told link.old) (K.told link.new) (told_one step)
        × MakesOne client.old client.new step
        × Answers holdup.now.1 (query_at (Sending login.now txn moment)) step d.decision
        × (d.timed_out ≡ times_out step) × (option_map shown_full d.full ≡ full_in step)
        × ((h : Holding) → freed_in step h ≡ h)) }
    ensures client { OnErr result (client.new ≡ client.old) }
    ensures link { OnErr result (link.new ≡ link.old) }
{
    if !may_ask(login, moment) {
        let cause = cause_of(login);
        client.warn_refused(rt, login, cause);
        return Ok(unasked(Decision::RejectService, AnswerKind::refused(cause)));
    }
    if let Some(decision) = holdup.held_back(login, moment) {
        // (its step is a quiet one: no exchange is made, and nothing changes)
        note_held_back(rt, client, decision);
        return Ok(unasked(decision, AnswerKind::of(decision)));
    }
    match client.reserve(rt, link, txn, moment, login) {
        Ok(asking) => Ok(Ruling {
            decision: decision_of(asking.answer),
            kind: AnswerKind::of(decision_of(asking.answer)),
            timed_out: asking.timed_out,
            full: full_answer(asking.answer, login, moment),
        }),
        Err(refused) => Err(refused),
    }
}

/// Decides on a request of smtpd.
fn decide<'a, R: Observer, K: Link>(
    rt: &R,
    tracker: &'a Tracker,
    inquiry: Inquiry<'_>,
    holdup: &Holdup,
    link: &mut K,
    client: &mut Client,
) -> Result<Ruling<'a>, AllocError>
    ensures ok { IfOk result (λ d. (step : Option Step)
        × Tells (K.told link.old) (K.told link.new) (told_one step)
        × MakesOne client.old client.new step
        × ((L : List Meaning) → TracksAt tracker.now L → Answers holdup.now.1
        (query L inquiry.entry.subsystem.now inquiry.entry.phase.now inquiry.entry.session.now) step
        d.decision)
        × (d.timed_out ≡ times_out step) × (option_map shown_full d.full ≡ full_in step)
        × ((h : Holding) → freed_in step h ≡ h)) }
    ensures client { OnErr result (client.new ≡ client.old) }
    ensures link { OnErr result (link.new ≡ link.old) }
{
    if !is_recipient(inquiry.subsystem, inquiry.phase) {
        return Ok(unasked(Decision::Proceed, AnswerKind::Proceed));
    }
    client.set_line(inquiry.session, Some(inquiry.seconds));
    match tracker.standing(inquiry.session) {
        Standing::Anonymous => Ok(unasked(Decision::Proceed, AnswerKind::NoLogin)),
        Standing::Login { login, .. } => {
            client.warn_refused(rt, login, RefusalCause::NoTransaction);
            Ok(unasked(Decision::RejectService, AnswerKind::Service))
        }
        Standing::Open { login, txn, moment } => {
            ask(rt, login, txn, moment, holdup, link, client)
        }
    }
}

/// The text of a result.
fn text_of(alloc: Global, inquiry: Inquiry<'_>, decision: Decision) -> Result<Vec<u8>, AllocError>
    ensures { IfOk result (λ text. text.items
        ≡ result_text inquiry.entry.session.now inquiry.entry.token.now decision) }
{
    let mut text = Vec::new(alloc);
    write_result(inquiry.session, inquiry.token, decision, &mut text)?;
    Ok(text)
}

/// Decides on a request of smtpd, and writes the result.
pub fn answer<R: Observer, W: Sink, K: Link>(
    rt: &R,
    alloc: Global,
    tracker: &Tracker,
    inquiry: Inquiry<'_>,
    holdup: &mut Holdup,
    output: &mut W,
    link: &mut K,
    client: &mut Client,
) -> Result<(), FilterFault>
    ensures ok { OnOk result ((step : Option Step) × (text : List ℕ)
        × Does (around (W.contents output.old) (K.told link.old) client.old)
        (around (W.contents output.new) (K.told link.new) client.new) step text
        × ((L : List Meaning) → TracksAt tracker.now L →
        Replies holdup.old.1 L inquiry.entry.subsystem.now inquiry.entry.phase.now
        inquiry.entry.session.now
        inquiry.entry.token.now step text)
        × (holdup.new ≡ (
          holdup.old.0,
          noted_by holdup.old.0
              (Some inquiry.entry.seconds) step holdup.old.1,
        ))) }
    ensures fault { IfErr result (λ f. IsCut f (W.has_failed output.new)) }
    ensures works { W.has_failed output.old ≡ false → result ≢ Err FilterFault.Write
        → W.has_failed output.new ≡ false }
    ensures flushed { IsFlushed (W.has_flushed output.old) → result ≢ Err FilterFault.Write →
        IsFlushed (W.has_flushed output.new) }
    ensures cut { OnErr result ((step : Option Step) × (front : List ℕ) × (rest : List ℕ)
        × Does (around (W.contents output.old) (K.told link.old) client.old)
        (around (W.contents output.new) (K.told link.new) client.new) step front
        × (((step ≡ None) × (front ++ rest ≡ [])) ⊎ ((L : List Meaning) → TracksAt tracker.now L →
        Replies holdup.old.1 L inquiry.entry.subsystem.now inquiry.entry.phase.now
        inquiry.entry.session.now
        inquiry.entry.token.now step (front ++ rest)))) }
{
    let decided = match decide(rt, tracker, inquiry, holdup, link, client) {
        Ok(decided) => decided,
        Err(AllocError) => return Err(FilterFault::Memory),
    };
    let Ok(text) = text_of(alloc, inquiry, decided.decision) else {
        return Err(FilterFault::Memory);
    };
    let Ok(()) = holdup.note_answer(inquiry.seconds, decided.timed_out, decided.full) else {
        return Err(FilterFault::Memory);
    };
    match write_and_flush(output, text.as_slice()) {
        Ok(()) => {
            rt.observe(FilterEvent::Answered(decided.kind));
            Ok(())
        }
        Err(DeviceFault) => Err(FilterFault::Write),
    }
}
