//! What the text of an entry writes.
ghost use Rattle.std.specs.Prelude.{◌≡◌, IfOk, IfSome};
ghost use Rattle.mq_permits_file.specs.Texts.{IsNetworkText, IsOriginText, IsPrefixText, whole};

use crate::fault::OriginFlaw;
use mq_permits::{AddressNumber, Network, Origin, number_of};
use std::net::IpAddr;

/// What a text writes: an address, a network, or this machine itself.
pub fn read_origin(text: &str) -> Result<Origin, OriginFlaw>
    ensures { IfOk result (IsOriginText text.now) }
{
    if text == "local" {
        return Ok(Origin::ThisMachine);
    }
    match read_network(text) {
        Ok(network) => Ok(Origin::Network(network)),
        Err(flaw) => Err(flaw),
    }
}

/// What a text writes: an address, or one with the length of a prefix.
fn read_network(text: &str) -> Result<Network, OriginFlaw>
    ensures { IfOk result (IsNetworkText text.now) }
{
    let Some((address, prefix)) = text.split_once('/') else {
        return match text.parse::<IpAddr>() {
            Ok(address) => Ok(whole(number_of(address))),
            Err(_) => Err(OriginFlaw::Address),
        };
    };
    let start = match address.parse::<IpAddr>() {
        Ok(address) => number_of(address),
        Err(_) => return Err(OriginFlaw::Address),
    };
    match read_prefix(prefix) {
        Some(prefix) if prefix <= start.family.width() => Ok(Network { start, prefix }),
        _ => Err(OriginFlaw::Prefix),
    }
}

/// The network of one address alone.
fn whole(start: AddressNumber) -> Network
    ensures { result ≡ whole start }
{
    Network {
        start,
        prefix: start.family.width(),
    }
}

/// The number that digits write.
fn read_prefix(digits: &str) -> Option<u32>
    ensures { IfSome result (IsPrefixText digits.now) }
{
    if digits.starts_with('+') {
        return None;
    }
    digits.parse::<u32>().ok()
}
