//! Whose request comes.
ghost use Rattle.std.specs.Prelude.{◌≡◌};
ghost use Rattle.mq_permits.specs.Networks.{is_loopback, is_same_number};
ghost use Rattle.mq_permits.specs.Permits.{is_here, is_own};

use crate::network::{AddressNumber, Family, number_of};
use std::fmt;
use std::net::{IpAddr, SocketAddr};

/// Whose request comes: the address and port that a connection comes from, and the address of this
/// machine that it came to, where the system tells it.
#[derive(Clone, Copy)]
pub struct Peer {
    pub address: SocketAddr,
    pub here: Option<IpAddr>,
}

impl Peer {
    /// Whether this machine asks itself: from a loopback address, or from the very address that it
    /// is asked at.
    pub fn is_own(&self) -> bool
        ensures { result ≡ is_own self.now }
    {
        let number = number_of(self.address.ip());
        is_loopback(number) || self.is_here(number)
    }

    /// Whether it is asked at the address of this number.
    fn is_here(&self, number: AddressNumber) -> bool
        ensures { result ≡ is_here self.now.here number }
    {
        match self.here {
            Some(here) => is_same_number(number_of(here), number),
            None => false,
        }
    }
}

impl fmt::Display for Peer {
    fn fmt<W: fmt::Write>(&self, f: &mut fmt::Formatter<W>) -> fmt::Result {
        let address = self.address;
        write!(f, "{address}")
    }
}

/// Whether it is 127.0.0.0/8 or ::1.
fn is_loopback(number: AddressNumber) -> bool
    ensures { result ≡ is_loopback number }
{
    match number.family {
        Family::Four => number.value / 0x100_0000 == 127,
        Family::Six => number.value == 1,
    }
}

/// Whether they are the same address.
fn is_same_number(one: AddressNumber, other: AddressNumber) -> bool
    ensures { result ≡ is_same_number one other }
{
    match (one.family, other.family) {
        (Family::Four, Family::Four) | (Family::Six, Family::Six) => one.value == other.value,
        _ => false,
    }
}
