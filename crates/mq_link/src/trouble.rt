//! Why an exchange brought no reply, for those who look after the link.
ghost use Rattle.std.specs.Prelude.{◌≡◌};
ghost use Rattle.std.specs.IoError.{error_kind};
ghost use Rattle.mq_link.specs.Exchange.{body_trouble, fault_of, is_gone, trouble_fault};

use crate::body::BodyFault;
use crate::link::LinkFault;
use std::io::ErrorKind;
use std::{fmt, io};

/// Why an exchange brought no reply.
#[derive(Debug, Drop)]
pub enum Trouble {
    /// A call of the system failed, or took too long.
    System(io::Error),
    /// The reply has no bytes.
    Empty,
    /// The reply found no memory.
    Memory,
}

/// A call that took too long is `TimedOut`, whatever else went wrong is `Down`.
fn fault_of(error: &io::Error) -> LinkFault
    ensures { result ≡ fault_of (error_kind error.now) }
{
    match error.kind() {
        ErrorKind::TimedOut | ErrorKind::WouldBlock => LinkFault::TimedOut,
        _ => LinkFault::Down,
    }
}

impl From<BodyFault> for Trouble {
    ghost from_gives = { λ fault trouble. trouble ≡ body_trouble fault };

    fn from(fault: BodyFault) -> Trouble {
        match fault {
            BodyFault::Read(error) => Trouble::System(error),
            BodyFault::Empty => Trouble::Empty,
            BodyFault::Memory => Trouble::Memory,
        }
    }
}

impl From<io::Error> for Trouble {
    ghost use Rattle.mq_link.specs.declared.trouble.Trouble.TheVariants.{System};

    ghost from_gives = { λ error trouble. trouble ≡ System error };

    fn from(error: io::Error) -> Trouble {
        Trouble::System(error)
    }
}

impl Trouble {
    /// The same, as a link reports it.
    pub fn fault(&self) -> LinkFault
        ensures fault { result ≡ trouble_fault self.now }
        ensures memory { result ≡ LinkFault.Memory → self.now ≡ Trouble.Memory }
    {
        match self {
            Trouble::System(error) => fault_of(error),
            Trouble::Empty => LinkFault::Down,
            Trouble::Memory => LinkFault::Memory,
        }
    }

    /// Whether a connection that was kept is gone: a call over it failed, and not for want of time.
    pub fn is_gone(&self) -> bool
        ensures { result ≡ is_gone self.now }
    {
        match self {
            Trouble::System(error) => fault_of(error) == LinkFault::Down,
            Trouble::Empty | Trouble::Memory => false,
        }
    }
}

impl fmt::Display for Trouble {
    fn fmt<W: fmt::Write>(&self, f: &mut fmt::Formatter<W>) -> fmt::Result {
        match self {
            Trouble::System(error) => match error.kind() {
                ErrorKind::TimedOut | ErrorKind::WouldBlock => f.write_str("no answer in time"),
                ErrorKind::UnexpectedEof => f.write_str("closed before its reply was whole"),
                _ => error.fmt(f),
            },
            Trouble::Empty => f.write_str("a reply of no bytes"),
            Trouble::Memory => f.write_str("no memory for its reply"),
        }
    }
}
