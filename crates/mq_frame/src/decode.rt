//! Requests and replies of their bodies.
ghost use Rattle.std.specs.Prelude.{◌≡◌, Err, IfOk, OnErr, MatchResult};
ghost use Rattle.mq_frame.specs.Shown.{shown_id, shown_row};
ghost use Rattle.mq_frame.specs.Owned.{RequestHoldsBytes, ReplyHoldsBytes};
ghost use Rattle.mq_frame.specs.Parts.{shown_page, shown_request, shown_reply};
ghost use Rattle.mq_frame.specs.Spelling.{SpellsRequest, SpellsReply};
ghost use Rattle.mq_request.specs.declared.message.Request.{Request};
ghost use Rattle.mq_request.specs.declared.message.Reply.{Reply};
ghost use Rattle.mq_frame.specs.declared.decode.DecodeFault.TheVariants.{Memory};

use crate::fields::IdParts;
use crate::page::{PageParts, RowParts, row_at};
use crate::reply_parts::{ReplyParts, reply_parts};
use crate::request_parts::{RequestParts, TransactionParts, request_parts};
use mq_request::{Host, Id, Login, Reply, Request, UsageRow, UsageRows};
use std::alloc::{AllocError, Global};
use thiserror::Error;

/// Why a body gave no value.
#[derive(Clone, Copy, Debug, PartialEq, Eq, Error)]
pub enum DecodeFault {
    /// It is outside the grammar.
    #[error("body outside the grammar")]
    Bad,
    /// It is in the grammar, and a growth for its value was refused.
    #[error("out of memory")]
    Memory,
}

impl From<AllocError> for DecodeFault {
    ghost from_gives = { λ _ fault. fault ≡ Memory };

    fn from(_refused: AllocError) -> DecodeFault {
        DecodeFault::Memory
    }
}

fn own_id(alloc: Global, parts: IdParts<'_>) -> Result<Id, AllocError>
    ensures { IfOk result (λ id. id ≡ shown_id parts.entry) }
{
    Ok(Id {
        host: Host::from_slice(alloc, parts.host)?,
        run: parts.run,
        number: parts.number,
    })
}

/// An id and a login of their own, made of parts.
fn own_names(alloc: Global, id: IdParts<'_>, login: &[u8]) -> Result<(Id, Login), AllocError>
    ensures { IfOk result (λ names. names ≡ (shown_id id.entry, login.now)) }
{
    let id = own_id(alloc, id)?;
    let login = Login::from_slice(alloc, login)?;
    Ok((id, login))
}

fn own_row(alloc: Global, parts: RowParts<'_>) -> Result<UsageRow, AllocError>
    ensures { IfOk result (λ row. row ≡ shown_row parts.entry) }
{
    Ok(UsageRow {
        login: Login::from_slice(alloc, parts.login)?,
        settled: parts.settled,
        reserved: parts.reserved,
        cap: parts.cap,
    })
}

fn own_page(alloc: Global, parts: PageParts<'_>) -> Result<UsageRows, AllocError>
    ensures { IfOk result (λ rows. rows ≡ shown_page parts.entry) }
{
    let mut rows = Vec::with_capacity(alloc, parts.count as usize)?;
    let mut rest = parts.bytes;
    for done in 0..parts.count {
        // (`page_at` has read each of them already, so none is missing)
        let Some((row, after)) = row_at(rest) else {
            break;
        };
        rows.push(own_row(alloc, row)?)?;
        rest = after;
    }
    Ok(UsageRows::new(rows))
}

fn own_request(alloc: Global, parts: RequestParts<'_>) -> Result<Request, AllocError>
    ensures ok { IfOk result (λ request. request ≡ shown_request parts.entry) }
    ensures full { OnErr result (RequestHoldsBytes (shown_request parts.entry)) }
{
    Ok(match parts {
        RequestParts::Reserve {
            transaction: TransactionParts {
                id,
                txn,
                moment,
                login,
            },
            count,
        } => {
            let (id, login) = own_names(alloc, id, login)?;
            Request::Reserve {
                id,
                txn,
                moment,
                login,
                count,
            }
        }
        RequestParts::Settle {
            transaction: TransactionParts {
                id,
                txn,
                moment,
                login,
            },
            count,
        } => {
            let (id, login) = own_names(alloc, id, login)?;
            Request::Settle {
                id,
                txn,
                moment,
                login,
                count,
            }
        }
        RequestParts::Release {
            transaction: TransactionParts {
                id,
                txn,
                moment,
                login,
            },
        } => {
            let (id, login) = own_names(alloc, id, login)?;
            Request::Release {
                id,
                txn,
                moment,
                login,
            }
        }
        RequestParts::Limit {
            id,
            from_day,
            cap,
            login,
        } => {
            let (id, login) = own_names(alloc, id, login)?;
            Request::Limit {
                id,
                from_day,
                cap,
                login,
            }
        }
        RequestParts::Usage { login, day } => Request::Usage {
            login: Login::from_slice(alloc, login)?,
            day,
        },
        RequestParts::List { day, after } => Request::List {
            day,
            after: Login::from_slice(alloc, after)?,
        },
        RequestParts::Retire { id } => Request::Retire {
            id: own_id(alloc, id)?,
        },
    })
}

fn own_reply(alloc: Global, parts: ReplyParts<'_>) -> Result<Reply, AllocError>
    ensures ok { IfOk result (λ reply. reply ≡ shown_reply parts.entry) }
    ensures full { OnErr result (ReplyHoldsBytes (shown_reply parts.entry)) }
{
    Ok(match parts {
        ReplyParts::Granted { id, used } => Reply::Granted {
            id: own_id(alloc, id)?,
            used,
        },
        ReplyParts::Full { id, used, cap } => Reply::Full {
            id: own_id(alloc, id)?,
            used,
            cap,
        },
        ReplyParts::Settled { id, count } => Reply::Settled {
            id: own_id(alloc, id)?,
            count,
        },
        ReplyParts::Released { id, held } => Reply::Released {
            id: own_id(alloc, id)?,
            held,
        },
        ReplyParts::LimitSet { id } => Reply::LimitSet {
            id: own_id(alloc, id)?,
        },
        ReplyParts::Over { id, day, used } => Reply::Over {
            id: own_id(alloc, id)?,
            day,
            used,
        },
        ReplyParts::Closed { id } => Reply::Closed {
            id: own_id(alloc, id)?,
        },
        ReplyParts::Mismatch { id } => Reply::Mismatch {
            id: own_id(alloc, id)?,
        },
        ReplyParts::TooMany { id, held } => Reply::TooMany {
            id: own_id(alloc, id)?,
            held,
        },
        ReplyParts::Conflict { id } => Reply::Conflict {
            id: own_id(alloc, id)?,
        },
        ReplyParts::Usage {
            login,
            day,
            settled,
            reserved,
            cap,
        } => Reply::Usage {
            login: Login::from_slice(alloc, login)?,
            day,
            settled,
            reserved,
            cap,
        },
        ReplyParts::List { day, rows } => Reply::List {
            day,
            rows: own_page(alloc, rows)?,
        },
        ReplyParts::Retry => Reply::Retry,
        ReplyParts::Bad => Reply::Bad,
        ReplyParts::Retired { id } => Reply::Retired {
            id: own_id(alloc, id)?,
        },
        ReplyParts::Old { id } => Reply::Old {
            id: own_id(alloc, id)?,
        },
    })
}

/// The request that the body spells.
///
/// The format is in `docs/FRAMES.md`. A body outside it is `Bad`, which is found before any growth.
pub fn decode_request(alloc: Global, body: &[u8]) -> Result<Request, DecodeFault>
    // What is given is spelled so.
    ensures found { IfOk result (λ request. SpellsRequest body.now request) }

    // What is spelled so is given, unless a growth is refused.
    ensures only { (request : Request) → SpellsRequest body.now request
        → MatchResult result (λ found. found ≡ request) (λ fault. fault ≡ Memory) }

    // A growth is asked for only where something is spelled so.
    ensures memory { result ≡ Err DecodeFault.Memory → (request : Request)
        × SpellsRequest body.now request }

    // And only for bytes that it holds.
    ensures full { result ≡ Err DecodeFault.Memory → (request : Request)
        → SpellsRequest body.now request → RequestHoldsBytes request }

    // A body that spells no request is bad, however little memory there is.
    ensures bad { ((request : Request) → SpellsRequest body.now request → ⊥)
        → result ≡ Err DecodeFault.Bad }
{
    match request_parts(body) {
        None => Err(DecodeFault::Bad),
        Some(parts) => Ok(own_request(alloc, parts)?),
    }
}

/// The reply that the body spells.
///
/// The format is in `docs/FRAMES.md`. A body outside it is `Bad`, which is found before any growth.
pub fn decode_reply(alloc: Global, body: &[u8]) -> Result<Reply, DecodeFault>
    // What is given is spelled so.
    ensures found { IfOk result (λ reply. SpellsReply body.now reply) }

    // What is spelled so is given, unless a growth is refused.
    ensures only { (reply : Reply) → SpellsReply body.now reply
        → MatchResult result (λ found. found ≡ reply) (λ fault. fault ≡ Memory) }

    // A growth is asked for only where something is spelled so.
    ensures memory { result ≡ Err DecodeFault.Memory → (reply : Reply)
        × SpellsReply body.now reply }

    // And only for bytes that it holds.
    ensures full { result ≡ Err DecodeFault.Memory → (reply : Reply)
        → SpellsReply body.now reply → ReplyHoldsBytes reply }

    // A body that spells no reply is bad, however little memory there is.
    ensures bad { ((reply : Reply) → SpellsReply body.now reply → ⊥)
        → result ≡ Err DecodeFault.Bad }
{
    match reply_parts(body) {
        None => Err(DecodeFault::Bad),
        Some(parts) => Ok(own_reply(alloc, parts)?),
    }
}
