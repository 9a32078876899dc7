//! Who may ask a quota server what, by the address that it asks from.
//!
//! [`Permits`] has the addresses of each host, those from which limits are set, and those that read
//! reports; [`may_ask`] says by them whether a request of a [`Peer`] is put to the ledger. From
//! `mq_watch/src/watch.rt`:
//!
//!     if !may_ask(permits, &peer, request) {
//!
//! It stands on `mq_request`: it knows requests and addresses, and neither the ledger nor the file
//! that lists the addresses. Begin with `specs/Permits.antt`, what each address may ask, and
//! `specs/Networks.antt`, when an address is of a network.
#![tactic(auto)]

mod hosts;
mod network;
mod peer;
mod permits;

pub use hosts::Hosts;
pub use network::{AddressNumber, Family, Network, number_of};
pub use peer::Peer;
pub use permits::{Origin, Permits, may_ask};
