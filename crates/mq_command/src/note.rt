//! What is noted of a login that smtpd doesn't report so.
ghost use Rattle.std.specs.Prelude.{◌≡◌, ◌≤◌, ◌<◌, ◌++◌, IfOk, List, OnOk, ℕ, map, option_map};
ghost use Rattle.std.specs.Prelude.{string_bytes};
ghost use Rattle.std.specs.List.{list_all, list_any};
ghost use Rattle.mq_command.specs.Vis.{capital_text, is_capital, is_reported, low_text, lower};
ghost use Rattle.mq_command.specs.Vis.{note_of, vis, vis_byte, vis_text};

use mq_request::EscapedText;
use std::alloc::{AllocError, Global};

/// Whether smtpd reports a byte of a login as it is; it encodes each other one.
fn is_reported(byte: u8) -> bool
    ensures { result ≡ is_reported byte }
{
    byte >= 0x21 && byte <= 0x7e || byte == 7 || byte == 8 || byte == 13
}

fn is_capital(byte: u8) -> bool
    ensures { result ≡ is_capital byte }
{
    byte >= b'A' && byte <= b'Z'
}

fn lower(byte: u8) -> u8
    ensures { result ≡ lower byte }
{
    if is_capital(byte) { byte + 32 } else { byte }
}

fn are_reported(login: &[u8]) -> bool
    ensures { result ≡ list_all is_reported login.now }
{
    login.iter().all(|byte| is_reported(*byte))
}

fn has_capital(login: &[u8]) -> bool
    ensures { result ≡ list_any is_capital login.now }
{
    login.iter().any(|byte| is_capital(*byte))
}

/// Appends what vis(3) shows of a byte below 128 after the backslash.
fn push_low(shown: &mut Vec<u8>, low: u8) -> Result<(), AllocError>
    requires { low < 128 }
    ensures { OnOk result (shown.new.items ≡ shown.old.items ++ low_text low) }
{
    if low == 127 {
        shown.extend_from_slice(b"^?")
    } else if low < 32 {
        shown.extend_from_slice(&[b'^', low + 64])
    } else {
        shown.extend_from_slice(&[b'-', low])
    }
}

/// Appends a byte as smtpd reports it.
fn push_vis(shown: &mut Vec<u8>, byte: u8) -> Result<(), AllocError>
    ensures { OnOk result (shown.new.items ≡ shown.old.items ++ vis_byte byte) }
{
    if byte == b'\\' {
        return shown.extend_from_slice(b"\\\\");
    }
    if is_reported(byte) {
        return shown.extend_from_slice(&[byte]);
    }
    if byte % 128 == 32 {
        return shown.extend_from_slice(&[
            b'\\',
            b'0' + byte / 64,
            b'0' + byte / 8 % 8,
            b'0' + byte % 8,
        ]);
    }
    if byte < 128 {
        shown.extend_from_slice(b"\\")?;
        return push_low(shown, byte);
    }
    shown.extend_from_slice(b"\\M")?;
    push_low(shown, byte % 128)
}

/// A login as smtpd reports it.
fn vis(alloc: Global, login: &[u8]) -> Result<Vec<u8>, AllocError>
    ensures { IfOk result (λ shown. shown.items ≡ vis login.now) }
{
    let mut shown = Vec::new(alloc);
    for byte in login {
        push_vis(&mut shown, *byte)?;
    }
    Ok(shown)
}

/// A login in lower case.
fn lowered(alloc: Global, login: &[u8]) -> Result<Vec<u8>, AllocError>
    ensures { IfOk result (λ shown. shown.items ≡ map lower login.now) }
{
    let mut shown = Vec::new(alloc);
    for byte in login {
        shown.push(lower(*byte))?;
    }
    Ok(shown)
}

/// What is noted of a login with bytes that smtpd encodes.
fn vis_text(alloc: Global, login: &[u8]) -> Result<String, AllocError>
    ensures { IfOk result (λ text. string_bytes text ≡ vis_text login.now) }
{
    let mut text = String::from_str(
        alloc,
        "smtpd reports this login, in the form of --login-text, as ",
    )?;
    let shown = vis(alloc, login)?;
    text.push_str(EscapedText(shown.as_slice()).to_string(alloc)?.as_str())?;
    Ok(text)
}

/// What is noted of a login with capitals.
fn capital_text(alloc: Global, login: &[u8]) -> Result<String, AllocError>
    ensures { IfOk result (λ text. string_bytes text ≡ capital_text login.now) }
{
    let mut text = String::from_str(
        alloc,
        "filter-one-spelling refuses capitals, and lets only ",
    )?;
    let shown = lowered(alloc, login)?;
    text.push_str(EscapedText(shown.as_slice()).to_string(alloc)?.as_str())?;
    text.push_str(" send")?;
    Ok(text)
}

/// What is to be noted of a login that smtpd doesn't report so, if anything is: how it reports one
/// with bytes that it encodes by vis(3), and which login `filter-one-spelling` lets
/// send of one with capitals.
pub fn note_of(alloc: Global, login: &[u8]) -> Result<Option<String>, AllocError>
    ensures { IfOk result (λ note. option_map (λ text. string_bytes text) note
        ≡ note_of login.now) }
{
    if !are_reported(login) {
        return Ok(Some(vis_text(alloc, login)?));
    }
    if has_capital(login) {
        return Ok(Some(capital_text(alloc, login)?));
    }
    Ok(None)
}
