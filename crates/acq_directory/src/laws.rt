//! Listings, computed.

ghost use Rattle.std.specs.Prelude.{◌≡◌, ◌++◌, codes};
ghost use Rattle.acq_directory.specs.Listings.{listing_text};
ghost use Rattle.acq_directory.specs.Worked.{listed_tables};
ghost use Rattle.acq_directory.specs.declared.listing.Listing.TheVariants.{Merchants, Ranges};
ghost use Rattle.acq_directory.specs.declared.listing.Listing.TheVariants.{Terminals};

/// Listings of tables whose rows came in another order, computed.
pub fn worked_listings()
    ensures merchants { listing_text Merchants listed_tables
        ≡ codes "merchant,currency,first_reference\n"
        ++ codes "MERCHANT0000001,978,1\nMERCHANT0000002,978,1\n" }
    ensures terminals { listing_text Terminals listed_tables
        ≡ codes "merchant,terminal\nMERCHANT0000001,TERM0001\n"
        ++ codes "MERCHANT0000001,TERM0002\nMERCHANT0000002,TERM0002\n" }
    ensures ranges { listing_text Ranges listed_tables
        ≡ codes "low,high,issuer,hold_days\n00001000,49999999,012345,7\n" }
{}
