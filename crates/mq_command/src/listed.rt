//! What `limits` and `audit` print as JSON.
ghost use Rattle.std.specs.Prelude.{◌≡◌, ◌++◌, IfOk, OnOk, option_map, string_bytes};
ghost use Rattle.std.specs.Fmt.{signed_decimal};
ghost use Rattle.mq_command.specs.Listed.{Adds, IsDateAt, IsLimitObject, IsWrongObject};
ghost use Rattle.mq_command.specs.Listed.{json_date, json_limit, json_sound, json_wrong};
ghost use Rattle.mq_command.specs.Forms.{json_login};

use crate::form::push_json_string;
use crate::printed::login_text;
use mq_dates::date_of_day;
use mq_request::bounds::LAST_DAY;
use std::alloc::{AllocError, Global};

/// The date of a day; none where the day is none of a ledger's, which no sound one has.
fn date_at(alloc: Global, day: i64) -> Result<Option<String>, AllocError>
    ensures { IfOk result (λ date. IsDateAt day (option_map (λ text. string_bytes text) date)) }
{
    match u32::try_from(day) {
        Ok(day) if day <= LAST_DAY => Ok(Some(date_of_day(alloc, day)?)),
        _ => Ok(None),
    }
}

/// Appends a key, with what stands around it, and its login.
fn push_login(alloc: Global, text: &mut Vec<u8>, key: &[u8], login: &[u8]) -> Result<(), AllocError>
    ensures { OnOk result (text.new.items ≡ text.old.items ++ (key.now ++ json_login login.now)) }
{
    text.extend_from_slice(key)?;
    push_json_string(text, login_text(alloc, login)?.as_bytes())?;
    Ok(())
}

/// Appends a key, with what stands around it, and its number.
fn push_figure(alloc: Global, text: &mut Vec<u8>, key: &[u8], figure: i64) -> Result<(), AllocError>
    ensures { OnOk result (text.new.items
        ≡ text.old.items ++ (key.now ++ signed_decimal figure)) }
{
    text.extend_from_slice(key)?;
    text.extend_from_slice(figure.to_string(alloc)?.as_bytes())
}

/// Appends a key, with what stands around it, and its date, or null where there is none.
fn push_date(text: &mut Vec<u8>, key: &[u8], date: Option<&str>) -> Result<(), AllocError>
    ensures { OnOk result (text.new.items
        ≡ text.old.items ++ (key.now ++ json_date (option_map (λ d. d.now) date.entry))) }
{
    text.extend_from_slice(key)?;
    match date {
        Some(date) => push_json_string(text, date.as_bytes()),
        None => text.extend_from_slice(b"null"),
    }
}

/// Appends the JSON object of a limit from a day on that has this date.
fn push_limit(
    alloc: Global,
    text: &mut Vec<u8>,
    login: &[u8],
    day: i64,
    date: Option<&str>,
    cap: i64,
) -> Result<(), AllocError>
    ensures { OnOk result (text.new.items ≡ text.old.items
        ++ json_limit login.now day (option_map (λ d. d.now) date.entry) cap) }
{
    push_login(alloc, text, b"{\"login\":", login)?;
    push_figure(alloc, text, b",\"from_day\":", day)?;
    push_date(text, b",\"from_date\":", date)?;
    push_figure(alloc, text, b",\"limit\":", cap)?;
    text.extend_from_slice(b"}")?;
    Ok(())
}

/// Appends the JSON object of a limit: its login, the day from which it governs, with the date, and
/// recipients a day. The date is null where the day isn't 0 to 376,200.
pub fn push_json_limit(
    alloc: Global,
    text: &mut Vec<u8>,
    login: &[u8],
    day: i64,
    cap: i64,
) -> Result<(), AllocError>
    ensures { OnOk result (Adds (IsLimitObject login.now day cap) text.old.items text.new.items) }
{
    let date = date_at(alloc, day)?;
    push_limit(alloc, text, login, day, date.as_deref(), cap)
}

/// The JSON object of books that are right, and a line's end: how many days of logins and how many
/// transactions they have.
pub fn json_of_sound(alloc: Global, days: u64, transactions: u64) -> Result<String, AllocError>
    ensures { IfOk result (λ text. string_bytes text ≡ json_sound days transactions) }
{
    let mut text = String::from_str(alloc, "{\"sound\":true,\"days\":")?;
    text.push_str(days.to_string(alloc)?.as_str())?;
    text.push_str(",\"transactions\":")?;
    text.push_str(transactions.to_string(alloc)?.as_str())?;
    text.push_str("}\n")?;
    Ok(text)
}

/// Appends the JSON object of books that are wrong at this login and a day that has this date.
fn push_wrong(
    alloc: Global,
    text: &mut Vec<u8>,
    login: &[u8],
    day: i64,
    date: Option<&str>,
) -> Result<(), AllocError>
    ensures { OnOk result (text.new.items ≡ text.old.items
        ++ json_wrong login.now day (option_map (λ d. d.now) date.entry)) }
{
    push_login(alloc, text, b"{\"sound\":false,\"login\":", login)?;
    push_figure(alloc, text, b",\"day\":", day)?;
    push_date(text, b",\"date\":", date)?;
    text.extend_from_slice(b"}\n")?;
    Ok(())
}

/// The JSON object of books that are wrong, and a line's end: the least login and day that are. The
/// date is null where the day isn't 0 to 376,200.
pub fn json_of_wrong(alloc: Global, login: &[u8], day: i64) -> Result<Vec<u8>, AllocError>
    ensures { IfOk result (λ text. IsWrongObject login.now day text.items) }
{
    let date = date_at(alloc, day)?;
    let mut text = Vec::new(alloc);
    push_wrong(alloc, &mut text, login, day, date.as_deref())?;
    Ok(text)
}
