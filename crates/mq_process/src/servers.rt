//! The servers that a command asks in turn.
ghost use Rattle.std.specs.Prelude.{◌≡◌, MatchResult, map, ◌==◌, length};
ghost use Rattle.mq_process.specs.Refusals.{HasNoAddress};
ghost use Rattle.mq_process.specs.Servers.{AsksEach};

use crate::asking::address_of;
use crate::fault::ProcessFault;
use mq_command::{print_heading, say_undone};
use std::io;
use std::io::Write;
use std::net::SocketAddr;

/// Refuses texts of which one is no numeric address with a port. What the first such text lacks is
/// logged.
pub fn check_addresses<R: Eprint>(rt: &R, servers: &[&str]) -> Result<(), ProcessFault>
    ensures { MatchResult result (λ _. ¬ HasNoAddress (map (λ s. s.now) servers.now))
        (λ fault. (fault ≡ ProcessFault.Address) × HasNoAddress (map (λ s. s.now) servers.now)) }
{
    for server in servers {
        address_of(rt, server)?;
    }
    Ok(())
}

/// Asks the server at each of these addresses in turn, whatever came of those before. Where there
/// is more than one, its address is printed above what it answers, and said again on `errors` where
/// it didn't do what was asked. The result is the exit status, 0 where each did.
pub fn ask_each<R: Print + Eprint + AllocGlobal, E: Write, F: FnMut(SocketAddr, &mut E) -> u8>(
    rt: &R,
    servers: &[&str],
    errors: &mut E,
    ask: F,
) -> u8
    requires callable { F.IsAlwaysCallable ask }
    requires addresses { ¬ HasNoAddress (map (λ s. s.now) servers.now) }
    ensures { (last : F) × AsksEach (λ f address said g. (old new : _)
        × F.step f address old said new g)
        (length servers.now == 1) last result ask (map (λ s. s.now) servers.now) 0 }
{
    ask_in_turn(rt, servers, servers.len() == 1, errors, ask)
}

/// Asks the server at each of these addresses in turn, whatever came of those before. Unless that is
/// left out, its address is printed above what it answers, and said again on `errors` where it
/// didn't do what was asked. The result is the exit status, 0 where each did.
pub fn ask_in_turn<R: Print + Eprint + AllocGlobal, E: Write, F: FnMut(SocketAddr, &mut E) -> u8>(
    rt: &R,
    servers: &[&str],
    is_bare: bool,
    errors: &mut E,
    mut ask: F,
) -> u8
    requires callable { F.IsAlwaysCallable ask }
    requires addresses { ¬ HasNoAddress (map (λ s. s.now) servers.now) }
    ensures { (last : F) × AsksEach (λ f address said g. (old new : _)
        × F.step f address old said new g)
        is_bare last result ask (map (λ s. s.now) servers.now) 0 }
{
    let mut status = 0;
    for server in servers {
        let Ok(address) = address_of(rt, server) else {
            unreachable!();
        };
        let told = if is_bare {
            0
        } else {
            tell_server(rt, server, errors)
        };
        let said = ask(address, errors);
        let ended = told.max(said);
        if !is_bare {
            say_undone(server, ended, errors);
        }
        status = status.max(ended);
    }
    status
}

/// Prints the line above what is printed of a server. The result is the status.
pub fn tell_server<R: Print + AllocGlobal, E: Write>(rt: &R, server: &str, errors: &mut E) -> u8 {
    print_heading(rt.alloc(), server, &mut io::writer(rt), errors)
}
