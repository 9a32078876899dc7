//! What a text lacks that is no numeric address with a port.

use thiserror::Error;

/// What a text lacks that is no numeric address with a port.
#[derive(Clone, Copy, Debug, PartialEq, Error)]
pub enum AddressFlaw {
    /// What stands after its last colon isn't digits alone, or it has no colon.
    #[error("no port")]
    NoPort,
    #[error("port above 65535")]
    PortTooLarge,
    /// What stands before the port is a name, an IPv6 address without brackets, or another text.
    #[error("no numeric address before the port; an IPv6 address stands in brackets")]
    NoAddress,
}

/// The number that digits spell, or the greatest there is.
fn number_of(digits: &[u8]) -> u32 {
    let mut number = 0u32;
    for digit in digits {
        number = number
            .saturating_mul(10)
            .saturating_add(u32::from(digit.wrapping_sub(b'0')));
    }
    number
}

/// What a text lacks that is no numeric address with a port.
pub fn address_flaw(text: &str) -> AddressFlaw {
    let bytes = text.as_bytes();
    let Some(colon) = bytes.iter().rposition(|byte| *byte == b':') else {
        return AddressFlaw::NoPort;
    };
    let port = &bytes[colon + 1..];
    if port.is_empty() || !port.iter().all(|byte| byte.is_ascii_digit()) {
        return AddressFlaw::NoPort;
    }
    if number_of(port) > u32::from(u16::MAX) {
        return AddressFlaw::PortTooLarge;
    }
    AddressFlaw::NoAddress
}
