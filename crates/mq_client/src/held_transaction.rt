//! What is known of a held transaction, and the requests about it.
ghost use Rattle.std.specs.Prelude.{◌≡◌, ◌≤◌, ◌&&◌, nat_le, if◌then◌else◌, IfOk};
ghost use Rattle.mq_request.specs.declared.message.Request.TheVariants.{Settle, Release};
ghost use Rattle.mq_request.specs.Range.{IsHost, IsRun, IsOrdinal, IsMoment, IsLogin, IsRequest};
ghost use Rattle.mq_client.specs.Past.{reserve_of, closing_of, is_commit};
ghost use Rattle.mq_client.specs.HeldTransactions.{IsHeld};

use mq_request::{Host, Id, Login, Request};
use mq_track::CloseEnd;
use std::alloc::{AllocError, Global};

/// What a client knows of a live transaction.
#[derive(Debug, Drop)]
pub struct HeldTransaction {
    /// Whose it is.
    pub login: Login,
    /// The moment of its beginning: seconds since 1970-01-01T00:00:00Z.
    pub moment: u64,
    /// How many recipients were let through, 0 to 1,000.
    pub granted: u32,
}

/// The request for one recipient.
pub fn reserve_request(
    alloc: Global,
    host: &Host,
    run: u64,
    number: u32,
    txn: u32,
    moment: u64,
    login: &[u8],
) -> Result<Request, AllocError>
    requires host { IsHost host.now }
    requires run { IsRun run }
    requires number { 1 ≤ number }
    requires txn { IsOrdinal txn }
    requires moment { IsMoment moment }
    requires login { IsLogin login.now }
    ensures request { IfOk result (λ q. q ≡ reserve_of (record { host = host.now; run = run })
        number txn moment login.now) }
    ensures in_range { IfOk result IsRequest }
{
    Ok(Request::Reserve {
        id: Id {
            host: host.clone()?,
            run,
            number,
        },
        txn,
        moment,
        login: Login::from_slice(alloc, login)?,
        count: 1,
    })
}

/// The request that closes a held transaction, by its number and a copy of its login.
fn close_by(id: Id, txn: u32, end: CloseEnd, known: &HeldTransaction, login: Login) -> Request
    ensures { let h = known.now in result ≡ (if is_commit end && nat_le 1 h.granted
        then Settle id txn h.moment login h.granted else Release id txn h.moment login) }
{
    let moment = known.moment;
    let count = known.granted;
    if end == CloseEnd::Commit && count >= 1 {
        Request::Settle {
            id,
            txn,
            moment,
            login,
            count,
        }
    } else {
        Request::Release {
            id,
            txn,
            moment,
            login,
        }
    }
}

/// The request that closes a held transaction.
pub fn closing_request(
    host: &Host,
    run: u64,
    number: u32,
    txn: u32,
    end: CloseEnd,
    known: &HeldTransaction,
) -> Result<Request, AllocError>
    requires host { IsHost host.now }
    requires run { IsRun run }
    requires number { 1 ≤ number }
    requires held { IsHeld txn known.now }
    ensures request { IfOk result (λ q. q ≡ closing_of (record { host = host.now; run = run })
        number txn end known.now) }
    ensures in_range { IfOk result IsRequest }
{
    let id = Id {
        host: host.clone()?,
        run,
        number,
    };
    let login = known.login.clone()?;
    Ok(close_by(id, txn, end, known, login))
}
