//! Requests and replies as frames.
#![tactic(auto, using(std::proofs::Common::append_assoc, crate::proofs::Appends::lengths))]

ghost use Rattle.std.specs.Prelude.{◌≡◌, ◌≤◌, ◌<◌, ◌+◌, [], ◌∷◌, ◌++◌, length, vec_capacity};
ghost use Rattle.std.specs.Prelude.{vec_len, OnOk, OnErr};
ghost use Rattle.std.specs.List.{flat_map};
ghost use Rattle.mq_request.specs.Range.{IsId, IsLogin, IsAfter, IsRow, IsPage, IsRequest, IsReply};
ghost use Rattle.mq_frame.specs.Spelling.{in_2_bytes, in_4_bytes, in_8_bytes, with_length};
ghost use Rattle.mq_frame.specs.Spelling.{id_bytes, transaction_bytes};
ghost use Rattle.mq_frame.specs.Spelling.{row_bytes, page_bytes, request_body, reply_body, frame};

use crate::format::{
    BAD, CLOSED, CONFLICT, FULL, GRANTED, HEAD_BYTES, LIMIT, LIMIT_SET, LIST, LIST_REPLY, MISMATCH,
    OLD, OVER, RELEASE, RELEASED, RESERVE, RETIRE, RETIRED, RETRY, SETTLE, SETTLED, TOO_MANY,
    USAGE, USAGE_REPLY,
};
use mq_request::{Host, Id, Login, Reply, Request, UsageRow, UsageRows};
use std::alloc::AllocError;

fn put_text(out: &mut Vec<u8>, text: &[u8]) -> Result<(), AllocError>
    requires { length text.now ≤ 255 }
    ensures ok { OnOk result (out.new.items ≡ out.old.items ++ with_length text.now) }
    ensures room { vec_capacity out.old ≤ vec_capacity out.new }
    ensures full { OnErr result (vec_capacity out.old < vec_len out.old + length
        (with_length text.now)) }
{
    out.push(text.len() as u8)?;
    out.extend_from_slice(text)
}

fn put_host(out: &mut Vec<u8>, host: &Host) -> Result<(), AllocError>
    requires { length host.now ≤ 255 }
    ensures ok { OnOk result (out.new.items ≡ out.old.items ++ with_length host.now) }
    ensures room { vec_capacity out.old ≤ vec_capacity out.new }
    ensures full { OnErr result (vec_capacity out.old < vec_len out.old + length
        (with_length host.now)) }
{
    put_text(out, host.as_slice())
}

fn put_login(out: &mut Vec<u8>, login: &Login) -> Result<(), AllocError>
    requires { length login.now ≤ 255 }
    ensures ok { OnOk result (out.new.items ≡ out.old.items ++ with_length login.now) }
    ensures room { vec_capacity out.old ≤ vec_capacity out.new }
    ensures full { OnErr result (vec_capacity out.old < vec_len out.old + length
        (with_length login.now)) }
{
    put_text(out, login.as_slice())
}

fn put_u32(out: &mut Vec<u8>, number: u32) -> Result<(), AllocError>
    ensures ok { OnOk result (out.new.items ≡ out.old.items ++ in_4_bytes number) }
    ensures room { vec_capacity out.old ≤ vec_capacity out.new }
    ensures full { OnErr result (vec_capacity out.old < vec_len out.old + length
        (in_4_bytes number)) }
{
    out.extend_from_slice(&number.to_be_bytes())
}

fn put_u64(out: &mut Vec<u8>, number: u64) -> Result<(), AllocError>
    ensures ok { OnOk result (out.new.items ≡ out.old.items ++ in_8_bytes number) }
    ensures room { vec_capacity out.old ≤ vec_capacity out.new }
    ensures full { OnErr result (vec_capacity out.old < vec_len out.old + length
        (in_8_bytes number)) }
{
    out.extend_from_slice(&number.to_be_bytes())
}

fn put_numbers(out: &mut Vec<u8>, numbers: &[u32]) -> Result<(), AllocError>
    ensures ok { OnOk result (out.new.items ≡ out.old.items ++ flat_map in_4_bytes numbers.now) }
    ensures room { vec_capacity out.old ≤ vec_capacity out.new }
    ensures full { OnErr result (vec_capacity out.old < vec_len out.old + length
        (flat_map in_4_bytes numbers.now)) }
{
    for number in numbers {
        put_u32(out, *number)?;
    }
    Ok(())
}

fn put_id(out: &mut Vec<u8>, id: &Id) -> Result<(), AllocError>
    requires { IsId id.now }
    ensures ok { OnOk result (out.new.items ≡ out.old.items ++ id_bytes id.now) }
    ensures room { vec_capacity out.old ≤ vec_capacity out.new }
    ensures full { OnErr result (vec_capacity out.old < vec_len out.old + length
        (id_bytes id.now)) }
{
    put_host(out, &id.host)?;
    put_u64(out, id.run)?;
    put_u32(out, id.number)?;
    Ok(())
}

/// The kind, and what three kinds of requests begin with.
fn put_transaction(
    out: &mut Vec<u8>,
    kind: u8,
    id: &Id,
    txn: u32,
    moment: u64,
    login: &Login,
) -> Result<(), AllocError>
    requires id { IsId id.now }
    requires login { IsLogin login.now }
    ensures ok { OnOk result (out.new.items ≡ out.old.items ++ kind
        ∷ transaction_bytes id.now txn moment login.now) }
    ensures room { vec_capacity out.old ≤ vec_capacity out.new }
    ensures full { OnErr result (vec_capacity out.old < vec_len out.old + length
        (kind ∷ transaction_bytes id.now txn moment login.now)) }
{
    out.push(kind)?;
    put_id(out, id)?;
    put_u32(out, txn)?;
    put_u64(out, moment)?;
    put_login(out, login)?;
    Ok(())
}

fn put_row(out: &mut Vec<u8>, row: &UsageRow) -> Result<(), AllocError>
    requires { IsRow row.now }
    ensures ok { OnOk result (out.new.items ≡ out.old.items ++ row_bytes row.now) }
    ensures room { vec_capacity out.old ≤ vec_capacity out.new }
    ensures full { OnErr result (vec_capacity out.old < vec_len out.old + length
        (row_bytes row.now)) }
{
    put_login(out, &row.login)?;
    put_numbers(out, &[row.settled, row.reserved, row.cap])?;
    Ok(())
}

fn put_page(out: &mut Vec<u8>, rows: &UsageRows) -> Result<(), AllocError>
    requires { IsPage rows.now }
    ensures ok { OnOk result (out.new.items ≡ out.old.items ++ page_bytes rows.now) }
    ensures room { vec_capacity out.old ≤ vec_capacity out.new }
    ensures full { OnErr result (vec_capacity out.old < vec_len out.old + length
        (page_bytes rows.now)) }
{
    let rows = rows.as_slice();
    out.push(rows.len() as u8)?;
    for row in rows {
        put_row(out, row)?;
    }
    Ok(())
}

fn put_request(out: &mut Vec<u8>, request: &Request) -> Result<(), AllocError>
    requires { IsRequest request.now }
    ensures ok { OnOk result (out.new.items ≡ out.old.items ++ request_body request.now) }
    ensures room { vec_capacity out.old ≤ vec_capacity out.new }
    ensures full { OnErr result (vec_capacity out.old < vec_len out.old + length
        (request_body request.now)) }
{
    match request {
        Request::Reserve {
            id,
            txn,
            moment,
            login,
            count,
        } => {
            put_transaction(out, RESERVE, id, *txn, *moment, login)?;
            put_u32(out, *count)
        }
        Request::Settle {
            id,
            txn,
            moment,
            login,
            count,
        } => {
            put_transaction(out, SETTLE, id, *txn, *moment, login)?;
            put_u32(out, *count)
        }
        Request::Release {
            id,
            txn,
            moment,
            login,
        } => { put_transaction(out, RELEASE, id, *txn, *moment, login) }
        Request::Limit {
            id,
            from_day,
            cap,
            login,
        } => {
            put_numbered(out, LIMIT, id, &[*from_day, *cap])?;
            put_login(out, login)
        }
        Request::Usage { login, day } => put_named(out, USAGE, login, &[*day]),
        Request::List { day, after } => {
            put_dated(out, LIST, *day)?;
            put_login(out, after)
        }
        Request::Retire { id } => put_numbered(out, RETIRE, id, &[]),
    }
}

/// The kind, the id and the numbers after it.
fn put_numbered(out: &mut Vec<u8>, kind: u8, id: &Id, numbers: &[u32]) -> Result<(), AllocError>
    requires { IsId id.now }
    ensures ok { OnOk result (out.new.items
        ≡ out.old.items ++ kind ∷ (id_bytes id.now ++ flat_map in_4_bytes numbers.now)) }
    ensures room { vec_capacity out.old ≤ vec_capacity out.new }
    ensures full { OnErr result (vec_capacity out.old < vec_len out.old + length
        (kind ∷ (id_bytes id.now ++ flat_map in_4_bytes numbers.now))) }
{
    out.push(kind)?;
    put_id(out, id)?;
    put_numbers(out, numbers)?;
    Ok(())
}

/// The kind, the login and the numbers after it.
fn put_named(out: &mut Vec<u8>, kind: u8, login: &Login, numbers: &[u32]) -> Result<(), AllocError>
    requires { IsLogin login.now }
    ensures ok { OnOk result (out.new.items
        ≡ out.old.items ++ kind ∷ (with_length login.now ++ flat_map in_4_bytes numbers.now)) }
    ensures room { vec_capacity out.old ≤ vec_capacity out.new }
    ensures full { OnErr result (vec_capacity out.old < vec_len out.old + length
        (kind ∷ (with_length login.now ++ flat_map in_4_bytes numbers.now))) }
{
    out.push(kind)?;
    put_login(out, login)?;
    put_numbers(out, numbers)?;
    Ok(())
}

/// The kind and the day.
fn put_dated(out: &mut Vec<u8>, kind: u8, day: u32) -> Result<(), AllocError>
    ensures ok { OnOk result (out.new.items ≡ out.old.items ++ kind ∷ in_4_bytes day) }
    ensures room { vec_capacity out.old ≤ vec_capacity out.new }
    ensures full { OnErr result (vec_capacity out.old < vec_len out.old + length
        (kind ∷ in_4_bytes day)) }
{
    out.push(kind)?;
    put_u32(out, day)
}

/// The kind alone.
fn put_kind(out: &mut Vec<u8>, kind: u8) -> Result<(), AllocError>
    ensures ok { OnOk result (out.new.items ≡ out.old.items ++ kind ∷ []) }
    ensures room { vec_capacity out.old ≤ vec_capacity out.new }
    ensures full { OnErr result (vec_capacity out.old < vec_len out.old + length (kind ∷ [])) }
{
    out.push(kind)?;
    Ok(())
}

fn put_reply(out: &mut Vec<u8>, reply: &Reply) -> Result<(), AllocError>
    requires { IsReply reply.now }
    ensures ok { OnOk result (out.new.items ≡ out.old.items ++ reply_body reply.now) }
    ensures room { vec_capacity out.old ≤ vec_capacity out.new }
    ensures full { OnErr result (vec_capacity out.old < vec_len out.old + length
        (reply_body reply.now)) }
{
    match reply {
        Reply::Granted { id, used } => put_numbered(out, GRANTED, id, &[*used]),
        Reply::Full { id, used, cap } => put_numbered(out, FULL, id, &[*used, *cap]),
        Reply::Settled { id, count } => put_numbered(out, SETTLED, id, &[*count]),
        Reply::Released { id, held } => put_numbered(out, RELEASED, id, &[*held]),
        Reply::LimitSet { id } => put_numbered(out, LIMIT_SET, id, &[]),
        Reply::Over { id, day, used } => put_numbered(out, OVER, id, &[*day, *used]),
        Reply::Closed { id } => put_numbered(out, CLOSED, id, &[]),
        Reply::Mismatch { id } => put_numbered(out, MISMATCH, id, &[]),
        Reply::TooMany { id, held } => put_numbered(out, TOO_MANY, id, &[*held]),
        Reply::Conflict { id } => put_numbered(out, CONFLICT, id, &[]),
        Reply::Usage {
            login,
            day,
            settled,
            reserved,
            cap,
        } => put_named(out, USAGE_REPLY, login, &[*day, *settled, *reserved, *cap]),
        Reply::List { day, rows } => {
            put_dated(out, LIST_REPLY, *day)?;
            put_page(out, rows)
        }
        Reply::Retry => put_kind(out, RETRY),
        Reply::Bad => put_kind(out, BAD),
        Reply::Retired { id } => put_numbered(out, RETIRED, id, &[]),
        Reply::Old { id } => put_numbered(out, OLD, id, &[]),
    }
}

/// How many bytes an id takes.
fn id_length(id: &Id) -> usize
    requires { IsId id.now }
    ensures { result ≡ length (id_bytes id.now) }
{
    id.host.as_slice().len() + 13
}

/// How many bytes a login takes, with the byte of its length.
fn login_length(login: &Login) -> usize
    requires { IsAfter login.now }
    ensures exact { result ≡ length (with_length login.now) }
    ensures few { result ≤ 256 }
{
    login.as_slice().len() + 1
}

/// How many bytes the rows of a page take.
fn rows_length(rows: &[UsageRow]) -> usize
    requires { IsPage rows.now }
    ensures exact { result ≡ length (flat_map row_bytes rows.now) }
    ensures few { result ≤ 26800 }
{
    let mut length = 0;
    for row in rows {
        length += login_length(&row.login) + 12;
    }
    length
}

/// How many bytes the request's body has.
fn request_length(request: &Request) -> usize
    requires { IsRequest request.now }
    ensures { result ≡ length (request_body request.now) }
{
    match request {
        Request::Reserve { id, login, .. } => id_length(id) + login_length(login) + 17,
        Request::Settle { id, login, .. } => id_length(id) + login_length(login) + 17,
        Request::Release { id, login, .. } => id_length(id) + login_length(login) + 13,
        Request::Limit { id, login, .. } => id_length(id) + login_length(login) + 9,
        Request::Usage { login, .. } => login_length(login) + 5,
        Request::List { after, .. } => login_length(after) + 5,
        Request::Retire { id } => id_length(id) + 1,
    }
}

/// How many bytes the reply's body has.
fn reply_length(reply: &Reply) -> usize
    requires { IsReply reply.now }
    ensures { result ≡ length (reply_body reply.now) }
{
    match reply {
        Reply::Granted { id, .. } => id_length(id) + 5,
        Reply::Full { id, .. } => id_length(id) + 9,
        Reply::Settled { id, .. } => id_length(id) + 5,
        Reply::Released { id, .. } => id_length(id) + 5,
        Reply::LimitSet { id } => id_length(id) + 1,
        Reply::Over { id, .. } => id_length(id) + 9,
        Reply::Closed { id } => id_length(id) + 1,
        Reply::Mismatch { id } => id_length(id) + 1,
        Reply::TooMany { id, .. } => id_length(id) + 5,
        Reply::Conflict { id } => id_length(id) + 1,
        Reply::Usage { login, .. } => login_length(login) + 17,
        Reply::List { rows, .. } => rows_length(rows.as_slice()) + 6,
        Reply::Retry => 1,
        Reply::Bad => 1,
        Reply::Retired { id } => id_length(id) + 1,
        Reply::Old { id } => id_length(id) + 1,
    }
}

/// Appends the length of a body, the head of its frame.
fn put_head(out: &mut Vec<u8>, length: usize) -> Result<(), AllocError>
    requires { length ≤ 65535 }
    ensures ok { OnOk result (out.new.items ≡ out.old.items ++ in_2_bytes length) }
    ensures room { vec_capacity out.old ≤ vec_capacity out.new }
    ensures full { OnErr result (vec_capacity out.old < vec_len out.old + 2) }
{
    let length = length as u16;
    out.extend_from_slice(&length.to_be_bytes())
}

/// Appends the request's frame: the length of its body in two bytes, and its body.
///
/// The format is in `docs/FRAMES.md`; `is_request` tests whether the request is in range. After an
/// `Err` nothing was appended.
pub fn encode_request(request: &Request, out: &mut Vec<u8>) -> Result<(), AllocError>
    requires { IsRequest request.now }
    ensures ok { OnOk result (out.new.items ≡ out.old.items ++ frame (request_body request.now)) }
    ensures err { OnErr result (out.new.items ≡ out.old.items) }
    // Memory is wanted only where the vector had to grow.
    ensures full { OnErr result
        (vec_capacity out.old < vec_len out.old + length (frame (request_body request.now))) }
{
    let request_bytes = request_length(request);
    // The one growth comes before anything is appended: a frame is there whole or not at all.
    out.reserve(HEAD_BYTES + request_bytes)?;
    put_head(out, request_bytes)?;
    put_request(out, request)?;
    Ok(())
}

/// Appends the reply's frame: the length of its body in two bytes, and its body.
///
/// The format is in `docs/FRAMES.md`; `is_reply` tests whether the reply is in range. After an
/// `Err` nothing was appended.
pub fn encode_reply(reply: &Reply, out: &mut Vec<u8>) -> Result<(), AllocError>
    requires { IsReply reply.now }
    ensures ok { OnOk result (out.new.items ≡ out.old.items ++ frame (reply_body reply.now)) }
    ensures err { OnErr result (out.new.items ≡ out.old.items) }
    // Memory is wanted only where the vector had to grow.
    ensures full { OnErr result
        (vec_capacity out.old < vec_len out.old + length (frame (reply_body reply.now))) }
{
    let reply_bytes = reply_length(reply);
    // (as of a request)
    out.reserve(HEAD_BYTES + reply_bytes)?;
    put_head(out, reply_bytes)?;
    put_reply(out, reply)?;
    Ok(())
}
