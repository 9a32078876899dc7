//! The parameters of reports.
ghost use Rattle.std.specs.Prelude.{◌≡◌, Option};
ghost use Rattle.std.specs.Option.{option_map, option_copied};
ghost use Rattle.mq_line.specs.Pieces.{fields};
ghost use Rattle.mq_line.specs.Parameters.{result_of as result_of_spec};
ghost use Rattle.mq_line.specs.Parameters.{auth_at_end as auth_at_end_spec, auth, message};

use crate::fields::{first_field, last_field, rest_of};

/// The result of an authentication, as a link-auth report has it.
#[derive(Clone, Copy, Debug, PartialEq, Eq)]
pub enum AuthResult {
    Pass,
    Fail,
    Error,
}

/// The result that a word stands for.
fn result_of(word: &[u8]) -> Option<AuthResult>
    ensures { result ≡ result_of_spec word.now }
{
    if word == b"pass".as_slice() {
        Some(AuthResult::Pass)
    } else if word == b"fail".as_slice() {
        Some(AuthResult::Fail)
    } else if word == b"error".as_slice() {
        Some(AuthResult::Error)
    } else {
        None
    }
}

/// The result and the user name where the result stands last.
fn auth_at_end<'a>(params: &'a [u8]) -> Option<(AuthResult, &'a [u8])>
    ensures { option_map (λ found. (found.0, found.1.now)) result
        ≡ auth_at_end_spec (fields params.now) }
{
    let (name, last) = last_field(params);
    match result_of(last) {
        Some(outcome) => Some((outcome, name)),
        None => None,
    }
}

/// The result and the user name in the parameters of a link-auth, which may stand in either order.
///
/// The result is the first field where that is `pass`, `fail` or `error`, and then the rest is the
/// name. Else it is the last field where that is one of these, and the name is what stands before
/// its bar. The name may be empty and may have bars in it. With neither, there is no answer.
pub fn auth_of<'a>(params: &'a [u8]) -> Option<(AuthResult, &'a [u8])>
    ensures { option_map (λ found. (found.0, found.1.now)) result ≡ auth params.now }
{
    let (first, left) = first_field(params);
    match result_of(first) {
        Some(outcome) => Some((outcome, rest_of(left))),
        None => auth_at_end(params),
    }
}

/// The message id in the parameters of a report on a transaction: the first field, where it isn't
/// empty.
pub fn message_of<'a>(params: &'a [u8]) -> Option<&'a [u8]>
    ensures { option_copied result ≡ message params.now }
{
    let (id, _) = first_field(params);
    if id.is_empty() { None } else { Some(id) }
}
