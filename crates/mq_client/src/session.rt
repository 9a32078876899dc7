//! The session that a line of the log names.

use mq_request::EscapedText;
use std::fmt;

/// How many bytes of a session's name are kept. smtpd gives each a name of 16.
const NAME: usize = 16;

/// A session of smtpd, at a line that has a second where smtpd gives it one.
#[derive(Clone, Copy)]
pub struct LineSession<'a> {
    pub name: &'a [u8],
    pub seconds: Option<u64>,
}

/// The first bytes of a session's name, with bytes of 0 after a shorter one; or none.
#[derive(Clone, Copy, PartialEq, Eq, Drop)]
pub struct SessionName([u8; NAME]);

impl SessionName {
    /// No session.
    pub fn none() -> SessionName {
        SessionName([0; NAME])
    }

    /// The session with this name, of which the first 16 bytes are kept.
    pub fn of(name: &[u8]) -> SessionName {
        let mut kept = [0; NAME];
        for (place, byte) in kept.iter_mut().zip(name) {
            *place = *byte;
        }
        SessionName(kept)
    }

    /// The bytes before the first 0.
    pub fn name(&self) -> &[u8] {
        let name = self.0.as_slice();
        match name.iter().position(|byte| *byte == 0) {
            Some(end) => name.get(..end).unwrap_or(name),
            None => name,
        }
    }
}

/// With a comma before it, where there is one.
impl fmt::Display for SessionName {
    fn fmt<W: fmt::Write>(&self, f: &mut fmt::Formatter<W>) -> fmt::Result {
        let name = self.name();
        if name.is_empty() {
            return Ok(());
        }
        write!(f, ", session {}", EscapedText(name))
    }
}
