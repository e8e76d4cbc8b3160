//! What is listed of a book.

ghost use Rattle.std.specs.Prelude.{◌≡◌};
ghost use Rattle.acq_directory.specs.Listings.{header_of, listing_named};

/// What is listed of a book.
#[derive(Clone, Copy, Debug)]
pub enum Listing {
    Merchants,
    /// The terminals of all merchants.
    Terminals,
    /// The ranges of cards.
    Ranges,
}

impl Listing {
    /// The listing of this name: `merchants`, `terminals` or `ranges`.
    pub fn named(name: &[u8]) -> Option<Listing>
        ensures { result ≡ listing_named name.now }
    {
        if name == b"merchants".as_slice() {
            Some(Listing::Merchants)
        } else if name == b"terminals".as_slice() {
            Some(Listing::Terminals)
        } else if name == b"ranges".as_slice() {
            Some(Listing::Ranges)
        } else {
            None
        }
    }

    /// The names of a record's fields.
    pub(crate) fn header(self) -> &'static [u8]
        ensures { result.now ≡ header_of self }
    {
        match self {
            Listing::Merchants => b"merchant,currency,first_reference\n",
            Listing::Terminals => b"merchant,terminal\n",
            Listing::Ranges => b"low,high,issuer,hold_days\n",
        }
    }
}
