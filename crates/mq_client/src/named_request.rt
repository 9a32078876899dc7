//! How a warning names a request.
use crate::session::SessionName;
use crate::tries::FramedRequest;
use mq_request::{EscapedText, Id, Login, Request};
use std::fmt;

fn write_name<W: fmt::Write>(
    f: &mut fmt::Formatter<W>,
    kind: &str,
    session: SessionName,
    id: &Id,
    txn: u32,
    login: &Login,
) -> fmt::Result {
    let host = EscapedText(id.host.as_slice());
    let login = EscapedText(login.as_slice());
    write!(
        f,
        "{kind} {} of transaction {txn} (host {host}{session}, login {login})",
        id.number
    )
}

/// A request of a client by its kind and number, with the transaction, the host, smtpd's session
/// where there is one, and the login, so that one line of a log says whose recipients it is about.
/// A login has at most 255 bytes, and so 1,020 characters.
#[derive(Clone, Copy)]
pub struct NamedRequest<'a>(pub &'a FramedRequest);

impl fmt::Display for NamedRequest<'_> {
    fn fmt<W: fmt::Write>(&self, f: &mut fmt::Formatter<W>) -> fmt::Result {
        let session = self.0.session;
        let (kind, id, txn, login) = match &self.0.request {
            Request::Reserve { id, txn, login, .. } => ("reserve", id, *txn, login),
            Request::Settle { id, txn, login, .. } => ("settle", id, *txn, login),
            Request::Release { id, txn, login, .. } => ("release", id, *txn, login),
            _ => return Ok(()),
        };
        write_name(f, kind, session, id, txn, login)
    }
}
