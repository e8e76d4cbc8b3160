//! Ranges of card prefixes, which belong to all parties.

ghost use Rattle.std.specs.Prelude.{◌∷◌, [], codes};
ghost use Rattle.acq_core.specs.declared.event.Event.TheVariants.{AddRange, DropRange};
ghost use Rattle.acq_core.specs.declared.output.Output.TheVariants.{Done, BadRange, Overlap};
ghost use Rattle.acq_core.specs.declared.output.Output.TheVariants.{NoSuchRange};
ghost use Rattle.acq_examples.specs.Messages.{merchant_a, sale, sale_refused};
ghost use Rattle.acq_examples.specs.Scripts.{GivesAllFrom, Gives, GivesAll, may_1, sent, asked};
ghost use Rattle.acq_examples.specs.Scripts.{replied};

/// A range with bad values is refused as such, also where it overlaps another.
#[tactic(auto, unfolding(crate::proofs::Computing::on_literals))]
pub fn bad()
    ensures low_above_high { GivesAll
        (AddRange
        (record { low = 50000000; high = 40000000; issuer = codes "12345"; hold_days = 7 })
        ∷ []) (BadRange ∷ []) }
    ensures high_of_nine_digits { GivesAll
        (AddRange
        (record { low = 99999999; high = 100000000; issuer = codes "12345"; hold_days = 7 })
        ∷ []) (BadRange ∷ []) }
    ensures no_hold_days { GivesAll
        (AddRange
        (record { low = 45000000; high = 45000000; issuer = codes "12345"; hold_days = 0 })
        ∷ []) (BadRange ∷ []) }
    ensures more_than_31_hold_days { GivesAll
        (AddRange
        (record { low = 60000000; high = 60000000; issuer = codes "12345"; hold_days = 32 })
        ∷ AddRange
        (record { low = 60000000; high = 60000000; issuer = codes "12345"; hold_days = 31 })
        ∷ [])
        (BadRange ∷ Done ∷ []) }
    ensures issuers { GivesAll
        (AddRange
        (record { low = 60000000; high = 60000000; issuer = codes "123456789012"; hold_days = 7 })
        ∷ AddRange
        (record { low = 60000000; high = 60000000; issuer = codes "1234A"; hold_days = 7 })
        ∷ AddRange
        (record { low = 60000000; high = 60000000; issuer = codes "01234567890"; hold_days = 1 })
        ∷ [])
        (BadRange
        ∷ BadRange
        ∷ Done
        ∷ []) }
    ensures no_issuer { GivesAll
        (AddRange (record { low = 60000000; high = 60000000; issuer = []; hold_days = 7 }) ∷ [])
        (BadRange ∷ []) }
{}

/// Where a range overlaps others, the one of them with the least low is reported. Ranges may touch.
#[tactic(auto, unfolding(crate::proofs::Computing::on_literals))]
pub fn overlaps()
    ensures inside { GivesAll
        (AddRange
        (record { low = 45000000; high = 45000000; issuer = codes "11111"; hold_days = 3 })
        ∷ [])
        (Overlap (record { low = 40000000; high = 49999999; issuer = codes "12345"; hold_days = 7 })
        ∷ []) }
    ensures across_both { GivesAll
        (AddRange
        (record { low = 39999999; high = 50000000; issuer = codes "11111"; hold_days = 3 })
        ∷ [])
        (Overlap (record { low = 40000000; high = 49999999; issuer = codes "12345"; hold_days = 7 })
        ∷ []) }
    ensures least_low_added_last { GivesAllFrom may_1
        (AddRange
        (record { low = 70000000; high = 79999999; issuer = codes "67890"; hold_days = 1 })
        ∷ AddRange
        (record { low = 60000000; high = 69999999; issuer = codes "12345"; hold_days = 7 })
        ∷ AddRange
        (record { low = 65000000; high = 75000000; issuer = codes "11111"; hold_days = 3 })
        ∷ [])
        (Done ∷ Done ∷ Overlap
        (record { low = 60000000; high = 69999999; issuer = codes "12345"; hold_days = 7 }) ∷ [])
        may_1 }
    ensures touching { GivesAll
        (AddRange
        (record { low = 60000000; high = 99999999; issuer = codes "11111"; hold_days = 3 })
        ∷ AddRange
        (record { low = 0; high = 39999999; issuer = codes "11111"; hold_days = 3 }) ∷ [])
        (Done ∷ Done ∷ []) }
{}

/// A range is dropped by its own two ends alone. Its cards then have no issuer, until a range holds
/// them again.
#[tactic(auto, unfolding(crate::proofs::Computing::on_literals))]
pub fn dropped()
    ensures other_high { GivesAll (DropRange 40000000 49999998 ∷ []) (NoSuchRange ∷ []) }
    ensures other_low { GivesAll (DropRange 40000001 49999999 ∷ []) (NoSuchRange ∷ []) }
    ensures ends_swapped { GivesAll (DropRange 49999999 40000000 ∷ []) (NoSuchRange ∷ []) }
    ensures dropped_twice { GivesAll
        (DropRange 40000000 49999999 ∷ DropRange 40000000 49999999 ∷ [])
        (Done ∷ NoSuchRange ∷ []) }
    ensures added_again { GivesAll
        (DropRange 40000000 49999999
        ∷ AddRange
        (record { low = 45000000; high = 45000000; issuer = codes "11111"; hold_days = 3 })
        ∷ [])
        (Done ∷ Done ∷ []) }
    ensures split { GivesAll
        (DropRange 40000000 49999999
        ∷ AddRange
        (record { low = 45000000; high = 45000049; issuer = codes "12345"; hold_days = 7 })
        ∷ AddRange
        (record { low = 45000050; high = 45000099; issuer = codes "11111"; hold_days = 3 })
        ∷ [])
        (Done ∷ Done ∷ Done ∷ []) }
    ensures cards { Gives 999999 merchant_a
        (DropRange 40000000 49999999 ∷ sent (sale "000001" "000000001000" merchant_a)
        ∷ AddRange
        (record { low = 41111111; high = 41111111; issuer = codes "12345"; hold_days = 7 })
        ∷ sent (sale "000002" "000000001000" merchant_a) ∷ [])
        (replied merchant_a (sale_refused "000001" "000000001000" "0501" "15" merchant_a)
        ∷ asked merchant_a 1 1000 ∷ []) }
{}
