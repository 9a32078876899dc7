//! What a filter writes to smtpd.
ghost use Rattle.std.specs.Prelude.{◌≡◌, ◌+◌, ◌<◌, ◌++◌, OnOk, OnErr, length, vec_capacity};
ghost use Rattle.std.specs.Prelude.{vec_len, take};
ghost use Rattle.mq_line.specs.Results.{registration, answer as answer_spec, in_a_row, result_text};

use std::alloc::AllocError;

/// What smtpd is to do with a request of a filter line.
#[derive(Clone, Copy, Debug, PartialEq, Eq)]
pub enum Decision {
    /// Let it through.
    Proceed,
    /// Refuse it for good: 550, rejected for policy reasons (RFC 5321).
    RejectLimit,
    /// Refuse it for now: 451, aborted by a local error (RFC 5321).
    RejectService,
}

/// The field of a result line that says so.
fn answer_of(decision: Decision) -> &'static [u8]
    ensures { result.now ≡ answer_spec decision }
{
    match decision {
        Decision::Proceed => b"proceed",
        Decision::RejectLimit => b"reject|550 daily recipient limit reached",
        Decision::RejectService => b"reject|451 quota service unavailable",
    }
}

/// The six reports and the one request that a quota filter asks for.
const REGISTRATION: &[u8] = b"register|report|smtp-in|link-auth
register|report|smtp-in|link-disconnect
register|report|smtp-in|tx-begin
register|report|smtp-in|tx-commit
register|report|smtp-in|tx-rollback
register|report|smtp-in|tx-reset
register|filter|smtp-in|rcpt-to
register|ready
";

/// Appends the registration, the first that a filter writes, after `config|ready`. After an `Err`
/// nothing is appended.
pub fn write_registration(out: &mut Vec<u8>) -> Result<(), AllocError>
    ensures ok { OnOk result (out.new.items ≡ out.old.items ++ registration) }
    ensures err { OnErr result (out.new.items ≡ out.old.items) }
    // Memory is wanted only where the vector had to grow.
    ensures full { OnErr result (vec_capacity out.old < vec_len out.old + length registration) }
{
    out.extend_from_slice(REGISTRATION)?;
    Ok(())
}

/// Appends these parts in a row, or a prefix of them where memory runs out.
fn push_parts(out: &mut Vec<u8>, parts: &[&[u8]]) -> Result<(), AllocError>
    ensures ok { OnOk result (out.new.items ≡ out.old.items ++ in_a_row parts.now) }
    ensures front { take (vec_len out.old) out.new.items ≡ out.old.items }
    ensures full { OnErr result (vec_capacity out.old < vec_len out.old + length
        (in_a_row parts.now)) }
{
    for part in parts {
        out.extend_from_slice(part)?;
    }
    Ok(())
}

/// Appends a result line, or a prefix of it where memory runs out.
fn push_result<'a>(
    out: &mut Vec<u8>,
    session: &'a [u8],
    token: &'a [u8],
    decision: Decision,
) -> Result<(), AllocError>
    ensures ok { OnOk result (out.new.items ≡ out.old.items
        ++ result_text session.now token.now decision) }
    ensures front { take (vec_len out.old) out.new.items ≡ out.old.items }
    ensures full { OnErr result
        (vec_capacity out.old < vec_len out.old + length
        (result_text session.now token.now decision)) }
{
    let answer: &'a [u8] = answer_of(decision);
    push_parts(
        out,
        &[b"filter-result|", session, b"|", token, b"|", answer, b"\n"],
    )
}

/// Appends the answer to the filter line with this session and this token, `filter-result` in
/// protocol 0.7. After an `Err` nothing is appended.
pub fn write_result(
    session: &[u8],
    token: &[u8],
    decision: Decision,
    out: &mut Vec<u8>,
) -> Result<(), AllocError>
    ensures ok { OnOk result (out.new.items ≡ out.old.items
        ++ result_text session.now token.now decision) }
    ensures err { OnErr result (out.new.items ≡ out.old.items) }
    // Memory is wanted only where the vector had to grow.
    ensures full { OnErr result
        (vec_capacity out.old < vec_len out.old + length
        (result_text session.now token.now decision)) }
{
    let before = out.len();
    match push_result(out, session, token, decision) {
        Ok(()) => Ok(()),
        Err(refused) => {
            // All or nothing: smtpd would read a cut line together with the next one.
            out.truncate(before);
            Err(refused)
        }
    }
}
