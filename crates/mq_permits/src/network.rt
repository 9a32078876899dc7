//! Networks: the addresses that begin with the same bits.
ghost use Rattle.std.specs.Prelude.{◌≡◌, ◌≤◌, ◌/◌, ◌^◌};
ghost use Rattle.mq_permits.specs.Networks.{is_of, is_same_family, numbered, numbered_v6, width};

use std::net::IpAddr;

/// The two families of addresses.
#[derive(Clone, Copy, Debug)]
pub enum Family {
    /// IPv4, of 32 bits.
    Four,
    /// IPv6, of 128 bits.
    Six,
}

impl Family {
    /// How many bits an address of it has.
    pub fn width(self) -> u32
        ensures { result ≡ width self }
    {
        match self {
            Family::Four => 32,
            Family::Six => 128,
        }
    }

    /// Whether it is the other one's too.
    fn is_same(self, other: Family) -> bool
        ensures { result ≡ is_same_family self other }
    {
        match (self, other) {
            (Family::Four, Family::Four) | (Family::Six, Family::Six) => true,
            _ => false,
        }
    }
}

/// An address as a number of its family's bits, the first of which counts most.
#[derive(Clone, Copy, Debug)]
pub struct AddressNumber {
    pub family: Family,
    pub value: u128,
}

/// The number of an address. One of IPv4 that is mapped into IPv6 counts as itself.
pub fn number_of(address: IpAddr) -> AddressNumber
    ensures { result ≡ numbered address }
{
    match address {
        IpAddr::V4(ip) => AddressNumber {
            family: Family::Four,
            value: u128::from(ip.to_bits()),
        },
        IpAddr::V6(ip) => number_of_v6(ip.to_bits()),
    }
}

/// The number of an IPv6 address of these bits, unless it is an IPv4 address, `::ffff:a.b.c.d`.
fn number_of_v6(bits: u128) -> AddressNumber
    ensures { result ≡ numbered_v6 bits }
{
    if bits / 0x1_0000_0000 == 0xffff {
        AddressNumber {
            family: Family::Four,
            value: bits % 0x1_0000_0000,
        }
    } else {
        AddressNumber {
            family: Family::Six,
            value: bits,
        }
    }
}

/// The addresses of a family that begin with the same bits as one does: as many as `prefix` says, 0
/// to the family's width.
#[derive(Clone, Copy, Debug)]
pub struct Network {
    pub start: AddressNumber,
    pub prefix: u32,
}

impl Network {
    /// Whether an address is of the network.
    pub fn has(&self, address: AddressNumber) -> bool
        ensures { result ≡ is_of self.now address }
    {
        let others = self.start.family.width().saturating_sub(self.prefix);
        self.start.family.is_same(address.family)
            && leading(address.value, others) == leading(self.start.value, others)
    }
}

/// The number of the bits that stand before the last ones, of which there are so many.
fn leading(value: u128, others: u32) -> u128
    requires { others ≤ 128 }
    ensures { result ≡ value / 2 ^ others }
{
    value.checked_shr(others).unwrap_or(0)
}
