//! Which requests are ahead of the server's time.
ghost use Rattle.std.specs.Prelude.{◌↔◌, All, IsTrue};
ghost use Rattle.mq_request.specs.Range.{IsRequest};
ghost use Rattle.mq_ledger.specs.Day.{day_of};
ghost use Rattle.mq_watch.specs.Ahead.{IsAhead, MayBePutWithOthers};

use crate::calendar::ServerTime;
use mq_ledger::Zone;
use mq_request::Request;

/// How far a retire may be ahead of the server's clock: an hour, in milliseconds.
const LEAD: u64 = 3_600_000;

/// How far a reserve's day may be ahead of today: a mail host's clock may be past a midnight
/// already, or a zone's.
const DAYS: u64 = 1;

/// Whether it is a retire whose run is more than an hour later than the server's clock, or a
/// reserve whose day is more than one after today. Where the clock can't be read, none is.
pub fn is_ahead(request: &Request, zone: &Zone, now: Option<ServerTime>) -> bool
    requires { IsRequest request.now }
    ensures { IsTrue result ↔ IsAhead (day_of zone.now) request.now now }
{
    match (request, now) {
        (Request::Retire { id }, Some(now)) => LEAD < id.run.saturating_sub(now.millis),
        (Request::Reserve { moment, .. }, Some(now)) => {
            DAYS < u64::from(zone.day_at(*moment)).saturating_sub(now.today)
        }
        _ => false,
    }
}

/// Whether each of these may be put with the others: before a limit a question is put, and what is
/// ahead isn't put.
pub fn may_be_put_together(requests: &[Request], zone: &Zone, now: Option<ServerTime>) -> bool
    requires { All IsRequest requests.now }
    ensures { IsTrue result → All (MayBePutWithOthers (day_of zone.now) now) requests.now }
{
    for request in requests {
        if !may_be_put_with_others(request, zone, now) {
            return false;
        }
    }
    true
}

/// Whether a request may be put with others.
fn may_be_put_with_others(request: &Request, zone: &Zone, now: Option<ServerTime>) -> bool
    requires { IsRequest request.now }
    ensures { IsTrue result → MayBePutWithOthers (day_of zone.now) now request.now }
{
    match request {
        Request::Limit { .. } => false,
        _ => !is_ahead(request, zone, now),
    }
}
