//! A reply in a body, as parts that borrow from it.
ghost use Rattle.mq_frame.specs.Reading.{Reads, whole, pair, id, amount, reply_at, reply_of_kind};
ghost use Rattle.mq_frame.specs.Reading.{numbered_reply};
ghost use Rattle.mq_frame.specs.Shown.{shown_id};
ghost use Rattle.mq_frame.specs.Parts.{shown_reply};

use crate::fields::{IdParts, amount_at, count_at, day_at, finished, id_alone, id_at, login_at};
use crate::format::{
    BAD, CLOSED, CONFLICT, FULL, GRANTED, LIMIT_SET, LIST_REPLY, MISMATCH, OLD, OVER, RELEASED,
    RETIRED, RETRY, SETTLED, TOO_MANY, USAGE_REPLY,
};
use crate::page::{PageParts, page_at};

/// A reply in a body.
#[derive(Clone, Copy)]
pub enum ReplyParts<'a> {
    Granted {
        id: IdParts<'a>,
        used: u32,
    },
    Full {
        id: IdParts<'a>,
        used: u32,
        cap: u32,
    },
    Settled {
        id: IdParts<'a>,
        count: u32,
    },
    Released {
        id: IdParts<'a>,
        held: u32,
    },
    LimitSet {
        id: IdParts<'a>,
    },
    Over {
        id: IdParts<'a>,
        day: u32,
        used: u32,
    },
    Closed {
        id: IdParts<'a>,
    },
    Mismatch {
        id: IdParts<'a>,
    },
    TooMany {
        id: IdParts<'a>,
        held: u32,
    },
    Conflict {
        id: IdParts<'a>,
    },
    Usage {
        login: &'a [u8],
        day: u32,
        settled: u32,
        reserved: u32,
        cap: u32,
    },
    List {
        day: u32,
        rows: PageParts<'a>,
    },
    Retry,
    Bad,
    Retired {
        id: IdParts<'a>,
    },
    Old {
        id: IdParts<'a>,
    },
}

fn id_and_amount(bytes: &[u8]) -> Option<(IdParts<'_>, u32)>
    ensures { Reads (λ x. (shown_id x.0, x.1)) result (whole (pair id amount) bytes.now) }
{
    let (id, rest) = id_at(bytes)?;
    match amount_at(rest) {
        Some((amount, [])) => Some((id, amount)),
        _ => None,
    }
}

fn full_at(bytes: &[u8]) -> Option<ReplyParts<'_>>
    ensures { Reads shown_reply result (numbered_reply FULL bytes.now) }
{
    let (id, rest) = id_at(bytes)?;
    let (used, rest) = amount_at(rest)?;
    match amount_at(rest) {
        Some((cap, [])) => Some(ReplyParts::Full { id, used, cap }),
        _ => None,
    }
}

fn settled_at(bytes: &[u8]) -> Option<ReplyParts<'_>>
    ensures { Reads shown_reply result (numbered_reply SETTLED bytes.now) }
{
    let (id, rest) = id_at(bytes)?;
    match count_at(rest) {
        Some((count, [])) => Some(ReplyParts::Settled { id, count }),
        _ => None,
    }
}

fn over_at(bytes: &[u8]) -> Option<ReplyParts<'_>>
    ensures { Reads shown_reply result (numbered_reply OVER bytes.now) }
{
    let (id, rest) = id_at(bytes)?;
    let (day, rest) = day_at(rest)?;
    match amount_at(rest) {
        Some((used, [])) => Some(ReplyParts::Over { id, day, used }),
        _ => None,
    }
}

fn usage_at(bytes: &[u8]) -> Option<ReplyParts<'_>>
    ensures { Reads shown_reply result (reply_of_kind USAGE_REPLY bytes.now) }
{
    let (login, rest) = login_at(bytes)?;
    let (day, rest) = day_at(rest)?;
    let (settled, rest) = amount_at(rest)?;
    let (reserved, rest) = amount_at(rest)?;
    match amount_at(rest) {
        Some((cap, [])) => Some(ReplyParts::Usage {
            login,
            day,
            settled,
            reserved,
            cap,
        }),
        _ => None,
    }
}

fn list_at(bytes: &[u8]) -> Option<ReplyParts<'_>>
    ensures { Reads shown_reply result (reply_of_kind LIST_REPLY bytes.now) }
{
    let (day, rest) = day_at(bytes)?;
    match page_at(rest) {
        Some((rows, [])) => Some(ReplyParts::List { day, rows }),
        _ => None,
    }
}

/// A reply that carries an id.
fn numbered_parts(kind: u8, bytes: &[u8]) -> Option<ReplyParts<'_>>
    ensures { Reads shown_reply result (numbered_reply kind bytes.now) }
{
    match kind {
        GRANTED => {
            let (id, used) = id_and_amount(bytes)?;
            Some(ReplyParts::Granted { id, used })
        }
        FULL => full_at(bytes),
        SETTLED => settled_at(bytes),
        RELEASED => {
            let (id, held) = id_and_amount(bytes)?;
            Some(ReplyParts::Released { id, held })
        }
        LIMIT_SET => {
            let id = id_alone(bytes)?;
            Some(ReplyParts::LimitSet { id })
        }
        OVER => over_at(bytes),
        CLOSED => {
            let id = id_alone(bytes)?;
            Some(ReplyParts::Closed { id })
        }
        MISMATCH => {
            let id = id_alone(bytes)?;
            Some(ReplyParts::Mismatch { id })
        }
        TOO_MANY => {
            let (id, held) = id_and_amount(bytes)?;
            Some(ReplyParts::TooMany { id, held })
        }
        CONFLICT => {
            let id = id_alone(bytes)?;
            Some(ReplyParts::Conflict { id })
        }
        RETIRED => {
            let id = id_alone(bytes)?;
            Some(ReplyParts::Retired { id })
        }
        OLD => {
            let id = id_alone(bytes)?;
            Some(ReplyParts::Old { id })
        }
        _ => None,
    }
}

/// The reply that the body spells, none where it spells none.
pub fn reply_parts(body: &[u8]) -> Option<ReplyParts<'_>>
    ensures { Reads shown_reply result (reply_at body.now) }
{
    let (kind, rest) = body.split_first()?;
    match *kind {
        USAGE_REPLY => usage_at(rest),
        LIST_REPLY => list_at(rest),
        RETRY => {
            finished(rest)?;
            Some(ReplyParts::Retry)
        }
        BAD => {
            finished(rest)?;
            Some(ReplyParts::Bad)
        }
        kind => numbered_parts(kind, rest),
    }
}
