//! How long the filter holds back.

/// For how many seconds of smtpd's lines the filter asks nothing; with 0 it always asks.
#[derive(Clone, Copy, Debug, PartialEq, Eq, Drop)]
pub struct Spans {
    /// After a request of which no try decided and one ran out of time: no request is sent, 0 to
    /// 3,600.
    pub pause: u64,
    /// After a recipient that the login's limit doesn't allow: none of that login is asked for, in
    /// messages of the same minute and until some of its recipients are given back, 0 to 60.
    pub hold: u64,
}
