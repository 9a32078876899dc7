//! What the log says of pauses.

use log::{Log, info, warn};

/// What the log has of the pauses since the server last answered: one warning where the first
/// begins, and one where an answer comes again. Further pauses of the same outage are logged at
/// level `info`.
#[derive(Drop)]
pub struct Pauses {
    is_logged: bool,
    /// How many recipients were held back.
    held_back: u32,
}

impl Pauses {
    /// None so far.
    pub fn new() -> Pauses {
        Pauses {
            is_logged: false,
            held_back: 0,
        }
    }

    /// A pause of so many seconds begins.
    pub fn begin<R: Log>(&mut self, rt: &R, seconds: u64) {
        if self.is_logged {
            info!(rt; "no answer in time: nothing is asked for {seconds} seconds");
        } else {
            warn!(rt; "no answer in time: nothing is asked for {seconds} seconds, recipients are answered 451");
        }
        self.is_logged = true;
    }

    /// A recipient is answered 451 in a pause.
    pub fn hold_back(&mut self) {
        self.held_back = self.held_back.saturating_add(1);
    }

    /// An answer came.
    pub fn end<R: Log>(&mut self, rt: &R) {
        if self.is_logged {
            let held_back = self.held_back;
            warn!(rt; "asks again, recipients answered 451 without asking: {held_back}");
        }
        self.is_logged = false;
        self.held_back = 0;
    }
}
