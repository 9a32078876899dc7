//! The servers that a command asks.
ghost use Rattle.std.specs.Prelude.{◌≡◌, List, ℕ, length, map};

use std::marker::Model;

/// The servers that a command asks in turn: the numeric address and port of each, as the words give
/// them.
#[derive(Drop)]
pub struct Servers<'a> {
    addresses: Vec<&'a str>,
}

impl<'a> Model for Servers<'a> {
    ghost Value = { List (List ℕ) };

    ghost view = { λ servers. map (λ address. address.now) servers.addresses.items };
}

impl<'a> Servers<'a> {
    /// The servers at these addresses.
    pub fn new(addresses: Vec<&'a str>) -> Servers<'a>
        ensures { result ≡ map (λ address. address.now) addresses.entry.items }
    {
        Servers { addresses }
    }

    /// Their addresses, in the order in which they are asked.
    pub fn as_slice(&self) -> &[&'a str]
        ensures { map (λ address. address.now) result.now ≡ self.now }
    {
        self.addresses.as_slice()
    }
}
