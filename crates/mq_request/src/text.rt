//! Texts of bytes, whose kinds aren't mixed up.
ghost use Rattle.std.specs.Prelude.{◌≡◌, ◌<◌, List, ℕ, IfOk, OnErr, length, nat_eq};
ghost use Rattle.std.specs.Cmp.Lexicographic.{pointwise, lists_per};
ghost use Rattle.std.specs.Cmp.{partial_equiv_from_equiv, nat_eq_equiv};

use std::alloc::{AllocError, Global};
use std::marker::{Model, PhantomData};

/// Bytes of any value, compared byte for byte. `K` keeps texts of one kind apart from those of
/// another.
#[derive(Debug, Drop)]
pub struct Text<K> {
    bytes: Vec<u8>,
    kind: PhantomData<K>,
}

/// Marks the name of a host.
#[derive(Debug, Drop)]
pub struct OfHost;

/// Marks a login.
#[derive(Debug, Drop)]
pub struct OfLogin;

/// Marks bytes of no kind of their own.
#[derive(Debug, Drop)]
pub struct OfAny;

/// The name of a mail host, as bytes.
///
/// One of 1 to 64 bytes, each an ASCII letter, a digit, `.` or `-`, has a place in a frame;
/// `is_host` tests that.
pub type Host = Text<OfHost>;

/// The name that a user logged in by, as smtpd reports it.
///
/// One of 1 to 255 bytes has a place in a frame; `is_login` tests that.
pub type Login = Text<OfLogin>;

/// Other bytes that are kept: of a frame, of its body, or of a zone's rule.
pub type Bytes = Text<OfAny>;

impl<K> Model for Text<K> {
    ghost Value = { List ℕ };

    ghost view = { λ text. text.bytes.items };
}

impl<K> Text<K> {
    /// These bytes, whatever they are.
    pub fn new(bytes: Vec<u8>) -> Text<K>
        ensures { result ≡ bytes.items }
    {
        Text {
            bytes,
            kind: PhantomData,
        }
    }

    /// A copy of these bytes.
    pub fn from_slice(alloc: Global, bytes: &[u8]) -> Result<Text<K>, AllocError>
        ensures ok { IfOk result (λ text. text ≡ bytes.now) }
        // No memory is asked for where there is no byte.
        ensures full { OnErr result (0 < length bytes.now) }
    {
        let mut copy = Vec::with_capacity(alloc, bytes.len())?;
        copy.extend_from_slice(bytes)?;
        Ok(Text::new(copy))
    }

    /// The bytes, out of the text.
    pub fn into_bytes(self) -> Vec<u8>
        ensures { result.items ≡ self }
    {
        let Text { bytes, kind: _ } = self;
        bytes
    }

    /// The bytes.
    pub fn as_slice(&self) -> &[u8]
        ensures { result.now ≡ self.now }
    {
        self.bytes.as_slice()
    }
}

impl<K> Clone for Text<K> {
    ghost is_clone = { λ a b. b ≡ a };

    fn clone(&self) -> Result<Text<K>, AllocError> {
        Ok(Text::new(self.bytes.clone()?))
    }
}

impl<K> PartialEq for Text<K> {
    ghost eq = { pointwise nat_eq };

    ghost laws = { lists_per (partial_equiv_from_equiv nat_eq_equiv) };

    fn eq(&self, other: &Text<K>) -> bool {
        self.bytes == other.bytes
    }
}
