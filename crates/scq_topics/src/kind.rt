ghost use Rattle.std.specs.Prelude.{◌≡◌};

/// What is computed from a payload to answer it.
#[derive(Clone, Copy, Debug, Default, PartialEq, Eq)]
pub enum Kind {
    /// The number of bytes, in decimal. Topics that nobody declared have this kind.
    #[default]
    Len,
    /// The number of maximal runs of bytes other than space and tab, in decimal.
    Words,
    /// The sum of the tokens between spaces, in decimal: `bad` where a token is not 1 to 20 ASCII
    /// digits with a value below 2^64, or where the sum is not below 2^64.
    Sum,
    /// The SHA-256 digest (FIPS 180-4), as 64 hexadecimal digits in lower case.
    Sha256,
    /// The payload itself.
    Echo,
}

impl Kind {
    ghost use Rattle.scq_topics.specs.Kind.{kind_named};

    /// The kind that a word names: `len`, `words`, `sum`, `sha256` or `echo`.
    pub(crate) fn named(word: &[u8]) -> Option<Kind>
        ensures { result ≡ kind_named word.now }
    {
        if word == b"len".as_slice() {
            Some(Kind::Len)
        } else if word == b"words".as_slice() {
            Some(Kind::Words)
        } else if word == b"sum".as_slice() {
            Some(Kind::Sum)
        } else if word == b"sha256".as_slice() {
            Some(Kind::Sha256)
        } else if word == b"echo".as_slice() {
            Some(Kind::Echo)
        } else {
            None
        }
    }
}
