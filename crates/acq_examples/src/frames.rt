//! Frames that are no requests of an enrolled merchant's terminal, or that the first check refuses.

ghost use Rattle.std.specs.Prelude.{◌++◌, ◌∷◌, [], codes, Some, None};
ghost use Rattle.iso_codec.specs.declared.decode_fault.DecodeFault.TheVariants.{BadBitmap};
ghost use Rattle.iso_codec.specs.declared.decode_fault.DecodeFault.TheVariants.{UnknownElement};
ghost use Rattle.iso_codec.specs.declared.decode_fault.DecodeFault.TheVariants.{Truncated};
ghost use Rattle.iso_codec.specs.declared.decode_fault.DecodeFault.TheVariants.{BadLength};
ghost use Rattle.iso_codec.specs.declared.decode_fault.DecodeFault.TheVariants.{Trailing};
ghost use Rattle.acq_core.specs.declared.event.Event.TheVariants.{Frame};
ghost use Rattle.acq_core.specs.declared.output.Output.TheVariants.{Reply, Undecodable};
ghost use Rattle.acq_core.specs.declared.output.Output.TheVariants.{UnservedType};
ghost use Rattle.acq_examples.specs.Messages.{merchant_a, merchant_c, terminal, sale, sale_refused};
ghost use Rattle.acq_examples.specs.Messages.{original, no_totals, sale_approved};
ghost use Rattle.acq_examples.specs.Scripts.{book_opening, GivesParty, Gives, GivesNobody, may_1};
ghost use Rattle.acq_examples.specs.Scripts.{morning, setup, sent, asked, cutover, replied};
ghost use Rattle.acq_examples.specs.Scripts.{declines, approves};

/// A frame that spells no message is nobody's.
#[tactic(auto, unfolding(crate::proofs::Computing::on_literals))]
pub fn undecodable()
    ensures bitmap { GivesNobody 999999
        (Frame morning
        (codes "0200" ++ codes "722000000GC08000" ++ codes "16" ++ codes "4111111111111111"
        ++ codes "000000" ++ codes "000000001000" ++ codes "0501093000" ++ codes "000001"
        ++ terminal ++ merchant_a ++ codes "978") ∷ [])
        (Undecodable BadBitmap ∷ []) }
    ensures unknown_element { GivesNobody 999999
        (Frame morning
        (codes "0800" ++ codes "8220000000000000" ++ codes "8400000000000000" ++ codes "0101120000"
        ++ codes "000001" ++ codes "301") ∷ [])
        (Undecodable (UnknownElement 65) ∷ []) }
    ensures length { GivesNobody 999999
        (Frame morning
        (codes "0200" ++ codes "7220000000C08000" ++ codes "20" ++ codes "4111111111111111"
        ++ codes "000000" ++ codes "000000001000" ++ codes "0501093000" ++ codes "000001"
        ++ terminal ++ merchant_a ++ codes "978") ∷ [])
        (Undecodable (BadLength 2) ∷ []) }
    ensures cut_off { GivesNobody 999999
        (Frame morning
        (codes "0200" ++ codes "7220000000C08000" ++ codes "16" ++ codes "4111111111111111"
        ++ codes "000000" ++ codes "000000001000" ++ codes "0501093000" ++ codes "000001"
        ++ terminal ++ codes "MERCH") ∷ [])
        (Undecodable (Truncated 42) ∷ []) }
    ensures one_byte_more { GivesNobody 999999
        (Frame morning
        (codes "0800" ++ codes "8220000000000000" ++ codes "0400000000000000" ++ codes "0101120000"
        ++ codes "000001" ++ codes "301" ++ codes " ") ∷ [])
        (Undecodable Trailing ∷ []) }
    ensures no_bytes { GivesNobody 999999 (Frame morning [] ∷ []) (Undecodable (Truncated 0) ∷ []) }
    ensures the_merchant_gets_nothing { Gives 999999 merchant_a
        (Frame morning
        (codes "0200" ++ codes "7220000000C08000" ++ codes "20" ++ codes "4111111111111111"
        ++ codes "000000" ++ codes "000000001000" ++ codes "0501093000" ++ codes "000001"
        ++ terminal ++ merchant_a ++ codes "978")
        ∷ sent (sale "000001" "000000001000" merchant_a) ∷ [])
        (asked merchant_a 1 1000 ∷ []) }
{}

/// The output for a type that isn't served goes to the merchant that the frame names, if it names
/// one. A frame of such a type that spells no message is undecodable.
#[tactic(auto, unfolding(crate::proofs::Computing::on_literals))]
pub fn unserved()
    ensures of_a_merchant { Gives 999999 merchant_a
        (Frame morning
        (codes "0120" ++ codes "7220000000C08000" ++ codes "16" ++ codes "4111111111111111"
        ++ codes "000000" ++ codes "000000001000" ++ codes "0501093000" ++ codes "000001"
        ++ terminal ++ merchant_a ++ codes "978") ∷ [])
        (UnservedType (codes "0120") ∷ []) }
    ensures of_nobody { GivesNobody 999999
        (Frame morning
        (codes "0600" ++ codes "0220000000000000" ++ codes "0101120000" ++ codes "000001") ∷ [])
        (UnservedType (codes "0600") ∷ []) }
    ensures other_types { GivesNobody 999999
        (Frame morning
        (codes "0102" ++ codes "0220000000000000" ++ codes "0101120000" ++ codes "000001")
        ∷ Frame morning
        (codes "0110" ++ codes "0220000000000000" ++ codes "0101120000" ++ codes "000001")
        ∷ Frame morning
        (codes "0202" ++ codes "0220000000000000" ++ codes "0101120000" ++ codes "000001")
        ∷ Frame morning
        (codes "0320" ++ codes "0220000000000000" ++ codes "0101120000" ++ codes "000001")
        ∷ Frame morning
        (codes "0520" ++ codes "0220000000000000" ++ codes "0101120000" ++ codes "000001")
        ∷ Frame morning
        (codes "0802" ++ codes "0220000000000000" ++ codes "0101120000" ++ codes "000001")
        ∷ [])
        (UnservedType (codes "0102")
        ∷ UnservedType (codes "0110")
        ∷ UnservedType (codes "0202")
        ∷ UnservedType (codes "0320")
        ∷ UnservedType (codes "0520")
        ∷ UnservedType (codes "0802")
        ∷ []) }
    ensures undecodable { GivesNobody 999999
        (Frame morning
        (codes "0600" ++ codes "0220000000000000" ++ codes "0101120000" ++ codes "00000") ∷ [])
        (Undecodable (Truncated 11) ∷ []) }
{}

/// Network management needs no merchant, and is the merchant's that it names, enrolled or not. Its
/// reply has no day.
#[tactic(auto, unfolding(crate::proofs::Computing::on_literals))]
pub fn network_management()
    ensures echo_test { GivesNobody 999999
        (Frame morning
        (codes "0800" ++ codes "8220000000000000" ++ codes "0400000000000000" ++ codes "0101120000"
        ++ codes "000001" ++ codes "301") ∷ [])
        (Reply None (codes "0810" ++ codes "8220000002000000" ++ codes "0400000000000000"
        ++ codes "0101120000" ++ codes "000001" ++ codes "00" ++ codes "301") ∷ []) }
    ensures not_recorded { GivesNobody 999999
        (Frame morning
        (codes "0800" ++ codes "8220000000000000" ++ codes "0400000000000000" ++ codes "0101120000"
        ++ codes "000001" ++ codes "301")
        ∷ Frame morning
        (codes "0800" ++ codes "8220000000000000" ++ codes "0400000000000000" ++ codes "0101120000"
        ++ codes "000001" ++ codes "302") ∷ [])
        (Reply None (codes "0810" ++ codes "8220000002000000" ++ codes "0400000000000000"
        ++ codes "0101120000" ++ codes "000001" ++ codes "00" ++ codes "301")
        ∷ Reply None (codes "0810" ++ codes "8220000002000000" ++ codes "0400000000000000"
        ++ codes "0101120000" ++ codes "000001" ++ codes "12" ++ codes "302") ∷ []) }
    ensures neither_day_nor_reference { GivesNobody 999999
        (Frame morning
        (codes "0800" ++ codes "8222000008000000" ++ codes "0400000000000000"
        ++ codes "0101120000" ++ codes "000001" ++ codes "0101" ++ codes "000000000001"
        ++ codes "301") ∷ [])
        (Reply None
        (codes "0810" ++ codes "8220000002000000" ++ codes "0400000000000000"
        ++ codes "0101120000" ++ codes "000001" ++ codes "00" ++ codes "301") ∷ []) }
    ensures repeat_and_sign_off { GivesNobody 999999
        (Frame morning
        (codes "0801" ++ codes "8220000000000000" ++ codes "0400000000000000"
        ++ codes "0101120000" ++ codes "000001" ++ codes "301")
        ∷ Frame morning
        (codes "0800" ++ codes "8220000000000000" ++ codes "0400000000000000"
        ++ codes "0101120000" ++ codes "000001" ++ codes "002")
        ∷ Frame morning
        (codes "0800" ++ codes "8220000000000000" ++ codes "0400000000000000"
        ++ codes "0101120000" ++ codes "000001" ++ codes "003")
        ∷ [])
        (Reply None
        (codes "0810" ++ codes "8220000002000000" ++ codes "0400000000000000"
        ++ codes "0101120000" ++ codes "000001" ++ codes "00" ++ codes "301")
        ∷ Reply None
        (codes "0810" ++ codes "8220000002000000" ++ codes "0400000000000000"
        ++ codes "0101120000" ++ codes "000001" ++ codes "00" ++ codes "002")
        ∷ Reply None
        (codes "0810" ++ codes "8220000002000000" ++ codes "0400000000000000"
        ++ codes "0101120000" ++ codes "000001" ++ codes "12" ++ codes "003")
        ∷ []) }
    ensures no_code { GivesNobody 999999
        (Frame morning
        (codes "0800" ++ codes "0220000000000000" ++ codes "0101120000" ++ codes "000001") ∷ [])
        (Reply None (codes "0810" ++ codes "0220000002000000" ++ codes "0101120000"
        ++ codes "000001" ++ codes "30") ∷ []) }
    ensures of_a_merchant { GivesParty (book_opening 999999 may_1) (Some merchant_c)
        (setup ++ Frame morning
        (codes "0800" ++ codes "8220000000C00000" ++ codes "0400000000000000" ++ codes "0101120000"
        ++ codes "000001" ++ terminal ++ merchant_c ++ codes "001") ∷ [])
        (Reply (Some merchant_c)
        (codes "0810" ++ codes "8220000002C00000" ++ codes "0400000000000000" ++ codes "0101120000"
        ++ codes "000001" ++ codes "00" ++ terminal ++ merchant_c ++ codes "001") ∷ []) }
{}

/// A request that lacks an element that it needs, or has one that the host can't check, or two
/// cards, is refused before anything else, and not recorded.
#[tactic(auto, unfolding(crate::proofs::Computing::on_literals))]
pub fn malformed()
    ensures no_merchant { GivesNobody 999999
        (Frame morning
        (codes "0200" ++ codes "7220000000808000" ++ codes "16" ++ codes "4111111111111111"
        ++ codes "000000" ++ codes "000000001000" ++ codes "0501093000" ++ codes "000001"
        ++ terminal ++ codes "978") ∷ [])
        (Reply None (codes "0210" ++ codes "7222000002808000" ++ codes "16"
        ++ codes "4111111111111111" ++ codes "000000" ++ codes "000000001000" ++ codes "0501093000"
        ++ codes "000001" ++ codes "0501" ++ codes "30" ++ terminal ++ codes "978") ∷ []) }
    ensures no_card { Gives 999999 merchant_a
        (Frame morning
        (codes "0200" ++ codes "3220000000C08000" ++ codes "000000" ++ codes "000000001000"
        ++ codes "0501093000" ++ codes "000001" ++ terminal ++ merchant_a ++ codes "978")
        ∷ cutover ∷ sent (sale "000001" "000000001000" merchant_a) ∷ [])
        (Reply (Some merchant_a)
        (codes "0210" ++ codes "3222000002C08000" ++ codes "000000" ++ codes "000000001000"
        ++ codes "0501093000" ++ codes "000001" ++ codes "0501" ++ codes "30" ++ terminal
        ++ merchant_a ++ codes "978")
        ∷ asked merchant_a 1 1000 ∷ []) }
    ensures pin_block { Gives 999999 merchant_a
        (Frame morning
        (codes "0200" ++ codes "7220000000C09000" ++ codes "16" ++ codes "4111111111111111"
        ++ codes "000000" ++ codes "000000001000" ++ codes "0501093000" ++ codes "000001"
        ++ terminal ++ merchant_a ++ codes "978" ++ codes "0000000000000000") ∷ [])
        (replied merchant_a (sale_refused "000001" "000000001000" "0501" "30" merchant_a) ∷ []) }
    ensures of_a_recorded_request { Gives 999999 merchant_a
        (sent (sale "000001" "000000001000" merchant_a)
        ∷ Frame morning
        (codes "0200" ++ codes "7220000000C09000" ++ codes "16" ++ codes "4111111111111111"
        ++ codes "000000" ++ codes "000000001000" ++ codes "0501093000" ++ codes "000001"
        ++ terminal ++ merchant_a ++ codes "978" ++ codes "0000000000000000")
        ∷ approves "A1B2C3" merchant_a 1
        ∷ Frame morning
        (codes "0200" ++ codes "7220000000C09000" ++ codes "16" ++ codes "4111111111111111"
        ++ codes "000000" ++ codes "000000001000" ++ codes "0501093000" ++ codes "000001"
        ++ terminal ++ merchant_a ++ codes "978" ++ codes "0000000000000000")
        ∷ sent (sale "000001" "000000001000" merchant_a)
        ∷ [])
        (asked merchant_a 1 1000
        ∷ replied merchant_a (sale_refused "000001" "000000001000" "0501" "30" merchant_a)
        ∷ replied merchant_a
        (sale_approved "000001" "000000001000" "0501" "000000000001" merchant_a)
        ∷ replied merchant_a (sale_refused "000001" "000000001000" "0501" "30" merchant_a)
        ∷ replied merchant_a
        (sale_approved "000001" "000000001000" "0501" "000000000001" merchant_a)
        ∷ []) }
    ensures authentication_codes { Gives 999999 merchant_a
        (Frame morning
        (codes "0200" ++ codes "7220000000C08001" ++ codes "16" ++ codes "4111111111111111"
        ++ codes "000000" ++ codes "000000001000" ++ codes "0501093000" ++ codes "000001"
        ++ terminal ++ merchant_a ++ codes "978" ++ codes "0123456789ABCDEF")
        ∷ Frame morning
        (codes "0200" ++ codes "F220000000C08000" ++ codes "0000000000000001" ++ codes "16"
        ++ codes "4111111111111111" ++ codes "000000" ++ codes "000000001000"
        ++ codes "0501093000" ++ codes "000001" ++ terminal ++ merchant_a ++ codes "978"
        ++ codes "0123456789ABCDEF")
        ∷ sent (sale "000001" "000000001000" merchant_a) ∷ [])
        (replied merchant_a (sale_refused "000001" "000000001000" "0501" "30" merchant_a)
        ∷ replied merchant_a (sale_refused "000001" "000000001000" "0501" "30" merchant_a)
        ∷ asked merchant_a 1 1000 ∷ []) }
    ensures two_cards { Gives 999999 merchant_a
        (Frame morning
        (codes "0200" ++ codes "7220000020C08000" ++ codes "16" ++ codes "4111111111111111"
        ++ codes "000000" ++ codes "000000001000" ++ codes "0501093000" ++ codes "000001"
        ++ codes "21" ++ codes "5500005555555559=2912" ++ terminal ++ merchant_a ++ codes "978")
        ∷ [])
        (replied merchant_a (sale_refused "000001" "000000001000" "0501" "30" merchant_a) ∷ []) }
    ensures bad_track { Gives 999999 merchant_a
        (Frame morning
        (codes "0200" ++ codes "3220000020C08000" ++ codes "000000" ++ codes "000000001000"
        ++ codes "0501093000" ++ codes "000001" ++ codes "16" ++ codes "4111111111111111"
        ++ terminal ++ merchant_a ++ codes "978")
        ∷ Frame morning
        (codes "0200" ++ codes "3220000020C08000" ++ codes "000000" ++ codes "000000001000"
        ++ codes "0501093000" ++ codes "000001" ++ codes "21" ++ codes "41111111111111111111="
        ++ terminal ++ merchant_a ++ codes "978")
        ∷ Frame morning
        (codes "0200" ++ codes "3220000020C08000" ++ codes "000000" ++ codes "000000001000"
        ++ codes "0501093000" ++ codes "000001" ++ codes "21" ++ codes "411111111111111:=2912"
        ++ terminal ++ merchant_a ++ codes "978") ∷ [])
        (Reply (Some merchant_a)
        (codes "0210" ++ codes "3222000002C08000" ++ codes "000000" ++ codes "000000001000"
        ++ codes "0501093000" ++ codes "000001" ++ codes "0501" ++ codes "30" ++ terminal
        ++ merchant_a ++ codes "978")
        ∷ Reply (Some merchant_a)
        (codes "0210" ++ codes "3222000002C08000" ++ codes "000000" ++ codes "000000001000"
        ++ codes "0501093000" ++ codes "000001" ++ codes "0501" ++ codes "30" ++ terminal
        ++ merchant_a ++ codes "978")
        ∷ Reply (Some merchant_a)
        (codes "0210" ++ codes "3222000002C08000" ++ codes "000000" ++ codes "000000001000"
        ++ codes "0501093000" ++ codes "000001" ++ codes "0501" ++ codes "30" ++ terminal
        ++ merchant_a ++ codes "978") ∷ []) }
    ensures merchant_not_enrolled { GivesParty (book_opening 999999 may_1) (Some merchant_c)
        (setup ++ Frame morning
        (codes "0200" ++ codes "7220000000C09000" ++ codes "16" ++ codes "4111111111111111"
        ++ codes "000000" ++ codes "000000001000" ++ codes "0501093000" ++ codes "000001"
        ++ terminal ++ merchant_c ++ codes "978" ++ codes "0000000000000000") ∷ [])
        (replied merchant_c (sale_refused "000001" "000000001000" "0501" "30" merchant_c) ∷ []) }
{}

/// Each element that a request needs is needed: without it the reply has code 30, what there was is
/// echoed, and nothing is recorded.
#[tactic(auto, unfolding(crate::proofs::Computing::on_literals))]
pub fn needed_elements()
    ensures of_a_sale { Gives 999999 merchant_a
        (Frame morning
        (codes "0200" ++ codes "5220000000C08000" ++ codes "16" ++ codes "4111111111111111"
        ++ codes "000000001000" ++ codes "0501093000" ++ codes "000001" ++ terminal ++ merchant_a
        ++ codes "978")
        ∷ Frame morning
        (codes "0200" ++ codes "6220000000C08000" ++ codes "16" ++ codes "4111111111111111"
        ++ codes "000000" ++ codes "0501093000" ++ codes "000001" ++ terminal ++ merchant_a
        ++ codes "978")
        ∷ Frame morning
        (codes "0200" ++ codes "7020000000C08000" ++ codes "16" ++ codes "4111111111111111"
        ++ codes "000000" ++ codes "000000001000" ++ codes "000001" ++ terminal ++ merchant_a
        ++ codes "978")
        ∷ Frame morning
        (codes "0200" ++ codes "7200000000C08000" ++ codes "16" ++ codes "4111111111111111"
        ++ codes "000000" ++ codes "000000001000" ++ codes "0501093000" ++ terminal ++ merchant_a
        ++ codes "978")
        ∷ Frame morning
        (codes "0200" ++ codes "7220000000408000" ++ codes "16" ++ codes "4111111111111111"
        ++ codes "000000" ++ codes "000000001000" ++ codes "0501093000" ++ codes "000001"
        ++ merchant_a ++ codes "978")
        ∷ Frame morning
        (codes "0200" ++ codes "7220000000C00000" ++ codes "16" ++ codes "4111111111111111"
        ++ codes "000000" ++ codes "000000001000" ++ codes "0501093000" ++ codes "000001"
        ++ terminal ++ merchant_a) ∷ [])
        (Reply (Some merchant_a)
        (codes "0210" ++ codes "5222000002C08000" ++ codes "16" ++ codes "4111111111111111"
        ++ codes "000000001000" ++ codes "0501093000" ++ codes "000001" ++ codes "0501"
        ++ codes "30" ++ terminal ++ merchant_a ++ codes "978")
        ∷ Reply (Some merchant_a)
        (codes "0210" ++ codes "6222000002C08000" ++ codes "16" ++ codes "4111111111111111"
        ++ codes "000000" ++ codes "0501093000" ++ codes "000001" ++ codes "0501" ++ codes "30"
        ++ terminal ++ merchant_a ++ codes "978")
        ∷ Reply (Some merchant_a)
        (codes "0210" ++ codes "7022000002C08000" ++ codes "16" ++ codes "4111111111111111"
        ++ codes "000000" ++ codes "000000001000" ++ codes "000001" ++ codes "0501" ++ codes "30"
        ++ terminal ++ merchant_a ++ codes "978")
        ∷ Reply (Some merchant_a)
        (codes "0210" ++ codes "7202000002C08000" ++ codes "16" ++ codes "4111111111111111"
        ++ codes "000000" ++ codes "000000001000" ++ codes "0501093000" ++ codes "0501"
        ++ codes "30" ++ terminal ++ merchant_a ++ codes "978")
        ∷ Reply (Some merchant_a)
        (codes "0210" ++ codes "7222000002408000" ++ codes "16" ++ codes "4111111111111111"
        ++ codes "000000" ++ codes "000000001000" ++ codes "0501093000" ++ codes "000001"
        ++ codes "0501" ++ codes "30" ++ merchant_a ++ codes "978")
        ∷ Reply (Some merchant_a)
        (codes "0210" ++ codes "7222000002C00000" ++ codes "16" ++ codes "4111111111111111"
        ++ codes "000000" ++ codes "000000001000" ++ codes "0501093000" ++ codes "000001"
        ++ codes "0501" ++ codes "30" ++ terminal ++ merchant_a) ∷ []) }
    ensures of_an_authorization { Gives 999999 merchant_a
        (Frame morning
        (codes "0100" ++ codes "5220000000C08000" ++ codes "16" ++ codes "5500005555555559"
        ++ codes "000000001000" ++ codes "0501093000" ++ codes "000001" ++ terminal ++ merchant_a
        ++ codes "978")
        ∷ Frame morning
        (codes "0100" ++ codes "6220000000C08000" ++ codes "16" ++ codes "5500005555555559"
        ++ codes "000000" ++ codes "0501093000" ++ codes "000001" ++ terminal ++ merchant_a
        ++ codes "978")
        ∷ Frame morning
        (codes "0100" ++ codes "7020000000C08000" ++ codes "16" ++ codes "5500005555555559"
        ++ codes "000000" ++ codes "000000001000" ++ codes "000001" ++ terminal ++ merchant_a
        ++ codes "978")
        ∷ Frame morning
        (codes "0100" ++ codes "7200000000C08000" ++ codes "16" ++ codes "5500005555555559"
        ++ codes "000000" ++ codes "000000001000" ++ codes "0501093000" ++ terminal ++ merchant_a
        ++ codes "978")
        ∷ Frame morning
        (codes "0100" ++ codes "7220000000408000" ++ codes "16" ++ codes "5500005555555559"
        ++ codes "000000" ++ codes "000000001000" ++ codes "0501093000" ++ codes "000001"
        ++ merchant_a ++ codes "978")
        ∷ Frame morning
        (codes "0100" ++ codes "7220000000C00000" ++ codes "16" ++ codes "5500005555555559"
        ++ codes "000000" ++ codes "000000001000" ++ codes "0501093000" ++ codes "000001"
        ++ terminal ++ merchant_a) ∷ [])
        (Reply (Some merchant_a)
        (codes "0110" ++ codes "5222000002C08000" ++ codes "16" ++ codes "5500005555555559"
        ++ codes "000000001000" ++ codes "0501093000" ++ codes "000001" ++ codes "0501"
        ++ codes "30" ++ terminal ++ merchant_a ++ codes "978")
        ∷ Reply (Some merchant_a)
        (codes "0110" ++ codes "6222000002C08000" ++ codes "16" ++ codes "5500005555555559"
        ++ codes "000000" ++ codes "0501093000" ++ codes "000001" ++ codes "0501" ++ codes "30"
        ++ terminal ++ merchant_a ++ codes "978")
        ∷ Reply (Some merchant_a)
        (codes "0110" ++ codes "7022000002C08000" ++ codes "16" ++ codes "5500005555555559"
        ++ codes "000000" ++ codes "000000001000" ++ codes "000001" ++ codes "0501" ++ codes "30"
        ++ terminal ++ merchant_a ++ codes "978")
        ∷ Reply (Some merchant_a)
        (codes "0110" ++ codes "7202000002C08000" ++ codes "16" ++ codes "5500005555555559"
        ++ codes "000000" ++ codes "000000001000" ++ codes "0501093000" ++ codes "0501"
        ++ codes "30" ++ terminal ++ merchant_a ++ codes "978")
        ∷ Reply (Some merchant_a)
        (codes "0110" ++ codes "7222000002408000" ++ codes "16" ++ codes "5500005555555559"
        ++ codes "000000" ++ codes "000000001000" ++ codes "0501093000" ++ codes "000001"
        ++ codes "0501" ++ codes "30" ++ merchant_a ++ codes "978")
        ∷ Reply (Some merchant_a)
        (codes "0110" ++ codes "7222000002C00000" ++ codes "16" ++ codes "5500005555555559"
        ++ codes "000000" ++ codes "000000001000" ++ codes "0501093000" ++ codes "000001"
        ++ codes "0501" ++ codes "30" ++ terminal ++ merchant_a) ∷ []) }
    ensures of_a_completion { Gives 999999 merchant_a
        (Frame morning
        (codes "0220" ++ codes "1220000008C08000" ++ codes "000000005000" ++ codes "0502093000"
        ++ codes "000021" ++ codes "000000000001" ++ terminal ++ merchant_a ++ codes "978")
        ∷ Frame morning
        (codes "0220" ++ codes "2220000008C08000" ++ codes "000000" ++ codes "0502093000"
        ++ codes "000021" ++ codes "000000000001" ++ terminal ++ merchant_a ++ codes "978")
        ∷ Frame morning
        (codes "0220" ++ codes "3020000008C08000" ++ codes "000000" ++ codes "000000005000"
        ++ codes "000021" ++ codes "000000000001" ++ terminal ++ merchant_a ++ codes "978")
        ∷ Frame morning
        (codes "0220" ++ codes "3200000008C08000" ++ codes "000000" ++ codes "000000005000"
        ++ codes "0502093000" ++ codes "000000000001" ++ terminal ++ merchant_a ++ codes "978")
        ∷ Frame morning
        (codes "0220" ++ codes "3220000000C08000" ++ codes "000000" ++ codes "000000005000"
        ++ codes "0502093000" ++ codes "000021" ++ terminal ++ merchant_a ++ codes "978")
        ∷ Frame morning
        (codes "0220" ++ codes "3220000008408000" ++ codes "000000" ++ codes "000000005000"
        ++ codes "0502093000" ++ codes "000021" ++ codes "000000000001" ++ merchant_a
        ++ codes "978")
        ∷ Frame morning
        (codes "0220" ++ codes "3220000008C00000" ++ codes "000000" ++ codes "000000005000"
        ++ codes "0502093000" ++ codes "000021" ++ codes "000000000001" ++ terminal ++ merchant_a)
        ∷ [])
        (Reply (Some merchant_a)
        (codes "0230" ++ codes "122200000AC08000" ++ codes "000000005000" ++ codes "0502093000"
        ++ codes "000021" ++ codes "0501" ++ codes "000000000001" ++ codes "30" ++ terminal
        ++ merchant_a ++ codes "978")
        ∷ Reply (Some merchant_a)
        (codes "0230" ++ codes "222200000AC08000" ++ codes "000000" ++ codes "0502093000"
        ++ codes "000021" ++ codes "0501" ++ codes "000000000001" ++ codes "30" ++ terminal
        ++ merchant_a ++ codes "978")
        ∷ Reply (Some merchant_a)
        (codes "0230" ++ codes "302200000AC08000" ++ codes "000000" ++ codes "000000005000"
        ++ codes "000021" ++ codes "0501" ++ codes "000000000001" ++ codes "30" ++ terminal
        ++ merchant_a ++ codes "978")
        ∷ Reply (Some merchant_a)
        (codes "0230" ++ codes "320200000AC08000" ++ codes "000000" ++ codes "000000005000"
        ++ codes "0502093000" ++ codes "0501" ++ codes "000000000001" ++ codes "30" ++ terminal
        ++ merchant_a ++ codes "978")
        ∷ Reply (Some merchant_a)
        (codes "0230" ++ codes "3222000002C08000" ++ codes "000000" ++ codes "000000005000"
        ++ codes "0502093000" ++ codes "000021" ++ codes "0501" ++ codes "30" ++ terminal
        ++ merchant_a ++ codes "978")
        ∷ Reply (Some merchant_a)
        (codes "0230" ++ codes "322200000A408000" ++ codes "000000" ++ codes "000000005000"
        ++ codes "0502093000" ++ codes "000021" ++ codes "0501" ++ codes "000000000001"
        ++ codes "30" ++ merchant_a ++ codes "978")
        ∷ Reply (Some merchant_a)
        (codes "0230" ++ codes "322200000AC00000" ++ codes "000000" ++ codes "000000005000"
        ++ codes "0502093000" ++ codes "000021" ++ codes "0501" ++ codes "000000000001"
        ++ codes "30" ++ terminal ++ merchant_a) ∷ []) }
    ensures of_a_reversal { Gives 999999 merchant_a
        (Frame morning
        (codes "0400" ++ codes "8220000000C00000" ++ codes "0000004000000000"
        ++ codes "0501093100" ++ codes "000003" ++ terminal ++ merchant_a
        ++ original "0200" "000001" "0501093000")
        ∷ Frame morning
        (codes "0400" ++ codes "9020000000C00000" ++ codes "0000004000000000"
        ++ codes "000000001000" ++ codes "000003" ++ terminal ++ merchant_a
        ++ original "0200" "000001" "0501093000")
        ∷ Frame morning
        (codes "0400" ++ codes "9200000000C00000" ++ codes "0000004000000000"
        ++ codes "000000001000" ++ codes "0501093100" ++ terminal ++ merchant_a
        ++ original "0200" "000001" "0501093000")
        ∷ Frame morning
        (codes "0400" ++ codes "9220000000400000" ++ codes "0000004000000000"
        ++ codes "000000001000" ++ codes "0501093100" ++ codes "000003" ++ merchant_a
        ++ original "0200" "000001" "0501093000")
        ∷ Frame morning
        (codes "0400" ++ codes "1220000000C00000" ++ codes "000000001000" ++ codes "0501093100"
        ++ codes "000003" ++ terminal ++ merchant_a) ∷ [])
        (Reply (Some merchant_a)
        (codes "0410" ++ codes "0222000002C00000" ++ codes "0501093100" ++ codes "000003"
        ++ codes "0501" ++ codes "30" ++ terminal ++ merchant_a)
        ∷ Reply (Some merchant_a)
        (codes "0410" ++ codes "1022000002C00000" ++ codes "000000001000" ++ codes "000003"
        ++ codes "0501" ++ codes "30" ++ terminal ++ merchant_a)
        ∷ Reply (Some merchant_a)
        (codes "0410" ++ codes "1202000002C00000" ++ codes "000000001000" ++ codes "0501093100"
        ++ codes "0501" ++ codes "30" ++ terminal ++ merchant_a)
        ∷ Reply (Some merchant_a)
        (codes "0410" ++ codes "1222000002400000" ++ codes "000000001000" ++ codes "0501093100"
        ++ codes "000003" ++ codes "0501" ++ codes "30" ++ merchant_a)
        ∷ Reply (Some merchant_a)
        (codes "0410" ++ codes "1222000002C00000" ++ codes "000000001000" ++ codes "0501093100"
        ++ codes "000003" ++ codes "0501" ++ codes "30" ++ terminal ++ merchant_a) ∷ []) }
    ensures of_a_reversal_advice { Gives 999999 merchant_a
        (Frame morning
        (codes "0420" ++ codes "8220000000C00000" ++ codes "0000004000000000"
        ++ codes "0501093100" ++ codes "000003" ++ terminal ++ merchant_a
        ++ original "0200" "000001" "0501093000")
        ∷ Frame morning
        (codes "0420" ++ codes "9020000000C00000" ++ codes "0000004000000000"
        ++ codes "000000001000" ++ codes "000003" ++ terminal ++ merchant_a
        ++ original "0200" "000001" "0501093000")
        ∷ Frame morning
        (codes "0420" ++ codes "9200000000C00000" ++ codes "0000004000000000"
        ++ codes "000000001000" ++ codes "0501093100" ++ terminal ++ merchant_a
        ++ original "0200" "000001" "0501093000")
        ∷ Frame morning
        (codes "0420" ++ codes "9220000000400000" ++ codes "0000004000000000"
        ++ codes "000000001000" ++ codes "0501093100" ++ codes "000003" ++ merchant_a
        ++ original "0200" "000001" "0501093000")
        ∷ Frame morning
        (codes "0420" ++ codes "1220000000C00000" ++ codes "000000001000" ++ codes "0501093100"
        ++ codes "000003" ++ terminal ++ merchant_a) ∷ [])
        (Reply (Some merchant_a)
        (codes "0430" ++ codes "0222000002C00000" ++ codes "0501093100" ++ codes "000003"
        ++ codes "0501" ++ codes "30" ++ terminal ++ merchant_a)
        ∷ Reply (Some merchant_a)
        (codes "0430" ++ codes "1022000002C00000" ++ codes "000000001000" ++ codes "000003"
        ++ codes "0501" ++ codes "30" ++ terminal ++ merchant_a)
        ∷ Reply (Some merchant_a)
        (codes "0430" ++ codes "1202000002C00000" ++ codes "000000001000" ++ codes "0501093100"
        ++ codes "0501" ++ codes "30" ++ terminal ++ merchant_a)
        ∷ Reply (Some merchant_a)
        (codes "0430" ++ codes "1222000002400000" ++ codes "000000001000" ++ codes "0501093100"
        ++ codes "000003" ++ codes "0501" ++ codes "30" ++ merchant_a)
        ∷ Reply (Some merchant_a)
        (codes "0430" ++ codes "1222000002C00000" ++ codes "000000001000" ++ codes "0501093100"
        ++ codes "000003" ++ codes "0501" ++ codes "30" ++ terminal ++ merchant_a) ∷ []) }
    ensures of_a_reconciliation { Gives 999999 merchant_a
        (Frame morning
        (codes "0500" ++ codes "8020000000C00000" ++ codes "0078078080000000" ++ codes "000010"
        ++ terminal ++ merchant_a ++ codes "0000000000" ++ codes "0000000000"
        ++ codes "0000000000" ++ codes "0000000000" ++ codes "0000000000000000"
        ++ codes "0000000000000000" ++ codes "0000000000000000" ++ codes "0000000000000000"
        ++ codes "C0000000000000000")
        ∷ Frame morning
        (codes "0500" ++ codes "8200000000C00000" ++ codes "0078078080000000"
        ++ codes "0501100000" ++ terminal ++ merchant_a ++ codes "0000000000"
        ++ codes "0000000000" ++ codes "0000000000" ++ codes "0000000000"
        ++ codes "0000000000000000" ++ codes "0000000000000000" ++ codes "0000000000000000"
        ++ codes "0000000000000000" ++ codes "C0000000000000000")
        ∷ Frame morning
        (codes "0500" ++ codes "8220000000400000" ++ codes "0078078080000000"
        ++ codes "0501100000" ++ codes "000010" ++ merchant_a ++ codes "0000000000"
        ++ codes "0000000000" ++ codes "0000000000" ++ codes "0000000000"
        ++ codes "0000000000000000" ++ codes "0000000000000000" ++ codes "0000000000000000"
        ++ codes "0000000000000000" ++ codes "C0000000000000000")
        ∷ Frame morning
        (codes "0500" ++ codes "8220000000C00000" ++ codes "0038078080000000"
        ++ codes "0501100000" ++ codes "000010" ++ terminal ++ merchant_a ++ codes "0000000000"
        ++ codes "0000000000" ++ codes "0000000000" ++ codes "0000000000000000"
        ++ codes "0000000000000000" ++ codes "0000000000000000" ++ codes "0000000000000000"
        ++ codes "C0000000000000000")
        ∷ Frame morning
        (codes "0500" ++ codes "8220000000C00000" ++ codes "0058078080000000"
        ++ codes "0501100000" ++ codes "000010" ++ terminal ++ merchant_a ++ codes "0000000000"
        ++ codes "0000000000" ++ codes "0000000000" ++ codes "0000000000000000"
        ++ codes "0000000000000000" ++ codes "0000000000000000" ++ codes "0000000000000000"
        ++ codes "C0000000000000000")
        ∷ Frame morning
        (codes "0500" ++ codes "8220000000C00000" ++ codes "0068078080000000"
        ++ codes "0501100000" ++ codes "000010" ++ terminal ++ merchant_a ++ codes "0000000000"
        ++ codes "0000000000" ++ codes "0000000000" ++ codes "0000000000000000"
        ++ codes "0000000000000000" ++ codes "0000000000000000" ++ codes "0000000000000000"
        ++ codes "C0000000000000000")
        ∷ Frame morning
        (codes "0500" ++ codes "8220000000C00000" ++ codes "0070078080000000"
        ++ codes "0501100000" ++ codes "000010" ++ terminal ++ merchant_a ++ codes "0000000000"
        ++ codes "0000000000" ++ codes "0000000000" ++ codes "0000000000000000"
        ++ codes "0000000000000000" ++ codes "0000000000000000" ++ codes "0000000000000000"
        ++ codes "C0000000000000000")
        ∷ Frame morning
        (codes "0500" ++ codes "8220000000C00000" ++ codes "0078038080000000"
        ++ codes "0501100000" ++ codes "000010" ++ terminal ++ merchant_a ++ codes "0000000000"
        ++ codes "0000000000" ++ codes "0000000000" ++ codes "0000000000"
        ++ codes "0000000000000000" ++ codes "0000000000000000" ++ codes "0000000000000000"
        ++ codes "C0000000000000000")
        ∷ Frame morning
        (codes "0500" ++ codes "8220000000C00000" ++ codes "0078058080000000"
        ++ codes "0501100000" ++ codes "000010" ++ terminal ++ merchant_a ++ codes "0000000000"
        ++ codes "0000000000" ++ codes "0000000000" ++ codes "0000000000"
        ++ codes "0000000000000000" ++ codes "0000000000000000" ++ codes "0000000000000000"
        ++ codes "C0000000000000000")
        ∷ Frame morning
        (codes "0500" ++ codes "8220000000C00000" ++ codes "0078068080000000"
        ++ codes "0501100000" ++ codes "000010" ++ terminal ++ merchant_a ++ codes "0000000000"
        ++ codes "0000000000" ++ codes "0000000000" ++ codes "0000000000"
        ++ codes "0000000000000000" ++ codes "0000000000000000" ++ codes "0000000000000000"
        ++ codes "C0000000000000000")
        ∷ Frame morning
        (codes "0500" ++ codes "8220000000C00000" ++ codes "0078070080000000"
        ++ codes "0501100000" ++ codes "000010" ++ terminal ++ merchant_a ++ codes "0000000000"
        ++ codes "0000000000" ++ codes "0000000000" ++ codes "0000000000"
        ++ codes "0000000000000000" ++ codes "0000000000000000" ++ codes "0000000000000000"
        ++ codes "C0000000000000000")
        ∷ Frame morning
        (codes "0500" ++ codes "8220000000C00000" ++ codes "0078078000000000"
        ++ codes "0501100000" ++ codes "000010" ++ terminal ++ merchant_a ++ codes "0000000000"
        ++ codes "0000000000" ++ codes "0000000000" ++ codes "0000000000"
        ++ codes "0000000000000000" ++ codes "0000000000000000" ++ codes "0000000000000000"
        ++ codes "0000000000000000") ∷ [])
        (Reply (Some merchant_a)
        (codes "0510" ++ codes "0022000002C00000" ++ codes "000010" ++ codes "0501" ++ codes "30"
        ++ terminal ++ merchant_a)
        ∷ Reply (Some merchant_a)
        (codes "0510" ++ codes "0202000002C00000" ++ codes "0501100000" ++ codes "0501"
        ++ codes "30" ++ terminal ++ merchant_a)
        ∷ Reply (Some merchant_a)
        (codes "0510" ++ codes "0222000002400000" ++ codes "0501100000" ++ codes "000010"
        ++ codes "0501" ++ codes "30" ++ merchant_a)
        ∷ Reply (Some merchant_a)
        (codes "0510" ++ codes "0222000002C00000" ++ codes "0501100000" ++ codes "000010"
        ++ codes "0501" ++ codes "30" ++ terminal ++ merchant_a)
        ∷ Reply (Some merchant_a)
        (codes "0510" ++ codes "0222000002C00000" ++ codes "0501100000" ++ codes "000010"
        ++ codes "0501" ++ codes "30" ++ terminal ++ merchant_a)
        ∷ Reply (Some merchant_a)
        (codes "0510" ++ codes "0222000002C00000" ++ codes "0501100000" ++ codes "000010"
        ++ codes "0501" ++ codes "30" ++ terminal ++ merchant_a)
        ∷ Reply (Some merchant_a)
        (codes "0510" ++ codes "0222000002C00000" ++ codes "0501100000" ++ codes "000010"
        ++ codes "0501" ++ codes "30" ++ terminal ++ merchant_a)
        ∷ Reply (Some merchant_a)
        (codes "0510" ++ codes "0222000002C00000" ++ codes "0501100000" ++ codes "000010"
        ++ codes "0501" ++ codes "30" ++ terminal ++ merchant_a)
        ∷ Reply (Some merchant_a)
        (codes "0510" ++ codes "0222000002C00000" ++ codes "0501100000" ++ codes "000010"
        ++ codes "0501" ++ codes "30" ++ terminal ++ merchant_a)
        ∷ Reply (Some merchant_a)
        (codes "0510" ++ codes "0222000002C00000" ++ codes "0501100000" ++ codes "000010"
        ++ codes "0501" ++ codes "30" ++ terminal ++ merchant_a)
        ∷ Reply (Some merchant_a)
        (codes "0510" ++ codes "0222000002C00000" ++ codes "0501100000" ++ codes "000010"
        ++ codes "0501" ++ codes "30" ++ terminal ++ merchant_a)
        ∷ Reply (Some merchant_a)
        (codes "0510" ++ codes "0222000002C00000" ++ codes "0501100000" ++ codes "000010"
        ++ codes "0501" ++ codes "30" ++ terminal ++ merchant_a) ∷ []) }
    ensures merchant_of_each { GivesNobody 999999
        (Frame morning
        (codes "0100" ++ codes "7220000000808000" ++ codes "16" ++ codes "5500005555555559"
        ++ codes "000000" ++ codes "000000005000" ++ codes "0501093000" ++ codes "000020"
        ++ terminal ++ codes "978")
        ∷ Frame morning
        (codes "0220" ++ codes "3220000008808000" ++ codes "000000" ++ codes "000000005000"
        ++ codes "0502093000" ++ codes "000021" ++ codes "000000000001" ++ terminal ++ codes "978")
        ∷ Frame morning
        (codes "0400" ++ codes "9220000000800000" ++ codes "0000004000000000"
        ++ codes "000000001000" ++ codes "0501093100" ++ codes "000003" ++ terminal
        ++ original "0200" "000001" "0501093000")
        ∷ Frame morning
        (codes "0420" ++ codes "9220000000800000" ++ codes "0000004000000000"
        ++ codes "000000001000" ++ codes "0501093100" ++ codes "000003" ++ terminal
        ++ original "0200" "000001" "0501093000")
        ∷ Frame morning
        (codes "0500" ++ codes "8220000000800000" ++ codes "0078078080000000"
        ++ codes "0501100000" ++ codes "000010" ++ terminal ++ no_totals "C0000000000000000") ∷ [])
        (Reply None
        (codes "0110" ++ codes "7222000002808000" ++ codes "16" ++ codes "5500005555555559"
        ++ codes "000000" ++ codes "000000005000" ++ codes "0501093000" ++ codes "000020"
        ++ codes "0501" ++ codes "30" ++ terminal ++ codes "978")
        ∷ Reply None
        (codes "0230" ++ codes "322200000A808000" ++ codes "000000" ++ codes "000000005000"
        ++ codes "0502093000" ++ codes "000021" ++ codes "0501" ++ codes "000000000001"
        ++ codes "30" ++ terminal ++ codes "978")
        ∷ Reply None
        (codes "0410" ++ codes "1222000002800000" ++ codes "000000001000" ++ codes "0501093100"
        ++ codes "000003" ++ codes "0501" ++ codes "30" ++ terminal)
        ∷ Reply None
        (codes "0430" ++ codes "1222000002800000" ++ codes "000000001000" ++ codes "0501093100"
        ++ codes "000003" ++ codes "0501" ++ codes "30" ++ terminal)
        ∷ Reply None
        (codes "0510" ++ codes "0222000002800000" ++ codes "0501100000" ++ codes "000010"
        ++ codes "0501" ++ codes "30" ++ terminal) ∷ []) }
    ensures of_network_management { GivesNobody 999999
        (Frame morning
        (codes "0800" ++ codes "8020000000000000" ++ codes "0400000000000000" ++ codes "000001"
        ++ codes "301")
        ∷ Frame morning
        (codes "0800" ++ codes "8200000000000000" ++ codes "0400000000000000"
        ++ codes "0101120000" ++ codes "301")
        ∷ Frame morning
        (codes "0800" ++ codes "8220000000000001" ++ codes "0400000000000000"
        ++ codes "0101120000" ++ codes "000001" ++ codes "0123456789ABCDEF" ++ codes "301")
        ∷ Frame morning
        (codes "0800" ++ codes "8220000000000000" ++ codes "0400000000000001"
        ++ codes "0101120000" ++ codes "000001" ++ codes "301" ++ codes "0123456789ABCDEF") ∷ [])
        (Reply None
        (codes "0810" ++ codes "8020000002000000" ++ codes "0400000000000000" ++ codes "000001"
        ++ codes "30" ++ codes "301")
        ∷ Reply None
        (codes "0810" ++ codes "8200000002000000" ++ codes "0400000000000000"
        ++ codes "0101120000" ++ codes "30" ++ codes "301")
        ∷ Reply None
        (codes "0810" ++ codes "8220000002000000" ++ codes "0400000000000000"
        ++ codes "0101120000" ++ codes "000001" ++ codes "30" ++ codes "301")
        ∷ Reply None
        (codes "0810" ++ codes "8220000002000000" ++ codes "0400000000000000"
        ++ codes "0101120000" ++ codes "000001" ++ codes "30" ++ codes "301") ∷ []) }
{}

/// A reply echoes the card, processing code, amount, date and time of transmission, trace, local
/// time and date, terminal, merchant and currency that its request had, and nothing else of it.
#[tactic(auto, unfolding(crate::proofs::Computing::on_literals))]
pub fn echoes()
    ensures of_a_sale { Gives 999999 merchant_a
        (Frame morning
        (codes "0200" ++ codes "723E44818EE18002" ++ codes "16" ++ codes "4111111111111111"
        ++ codes "000000" ++ codes "000000001000" ++ codes "0501093000" ++ codes "000001"
        ++ codes "113000" ++ codes "0501" ++ codes "2912" ++ codes "0430" ++ codes "5411"
        ++ codes "051" ++ codes "00" ++ codes "06" ++ codes "123456" ++ codes "03" ++ codes "777"
        ++ codes "RRN000000009" ++ codes "ZZZZZZ" ++ codes "99" ++ terminal ++ merchant_a
        ++ codes "CORNER SHOP            BERLIN         DE" ++ codes "003" ++ codes "ABC"
        ++ codes "978" ++ codes "002" ++ codes "XY")
        ∷ declines "51" merchant_a 1
        ∷ Frame morning
        (codes "0200" ++ codes "723E44818EE18002" ++ codes "16" ++ codes "4111111111111111"
        ++ codes "000000" ++ codes "000000000000" ++ codes "0501093000" ++ codes "000002"
        ++ codes "113000" ++ codes "0501" ++ codes "2912" ++ codes "0430" ++ codes "5411"
        ++ codes "051" ++ codes "00" ++ codes "06" ++ codes "123456" ++ codes "03" ++ codes "777"
        ++ codes "RRN000000009" ++ codes "ZZZZZZ" ++ codes "99" ++ terminal ++ merchant_a
        ++ codes "CORNER SHOP            BERLIN         DE" ++ codes "003" ++ codes "ABC"
        ++ codes "978" ++ codes "002" ++ codes "XY")
        ∷ [])
        (asked merchant_a 1 1000
        ∷ Reply (Some merchant_a)
        (codes "0210" ++ codes "723A00000AC08000" ++ codes "16" ++ codes "4111111111111111"
        ++ codes "000000" ++ codes "000000001000" ++ codes "0501093000" ++ codes "000001"
        ++ codes "113000" ++ codes "0501" ++ codes "0501" ++ codes "000000000001" ++ codes "51"
        ++ terminal ++ merchant_a ++ codes "978")
        ∷ Reply (Some merchant_a)
        (codes "0210" ++ codes "723A000002C08000" ++ codes "16" ++ codes "4111111111111111"
        ++ codes "000000" ++ codes "000000000000" ++ codes "0501093000" ++ codes "000002"
        ++ codes "113000" ++ codes "0501" ++ codes "0501" ++ codes "13" ++ terminal ++ merchant_a
        ++ codes "978")
        ∷ []) }
    ensures of_a_completion { Gives 999999 merchant_a
        (Frame morning
        (codes "0220" ++ codes "7238000008C08000" ++ codes "16" ++ codes "5500005555555559"
        ++ codes "000000" ++ codes "000000005000" ++ codes "0502093000" ++ codes "000021"
        ++ codes "113000" ++ codes "0502" ++ codes "000000000001" ++ terminal ++ merchant_a
        ++ codes "978")
        ∷ [])
        (Reply (Some merchant_a)
        (codes "0230" ++ codes "723A00000AC08000" ++ codes "16" ++ codes "5500005555555559"
        ++ codes "000000" ++ codes "000000005000" ++ codes "0502093000" ++ codes "000021"
        ++ codes "113000" ++ codes "0502" ++ codes "0501" ++ codes "000000000001" ++ codes "25"
        ++ terminal ++ merchant_a ++ codes "978")
        ∷ []) }
    ensures of_a_reversal { Gives 999999 merchant_a
        (Frame morning
        (codes "0400" ++ codes "F238000008C08000" ++ codes "0000004000000000" ++ codes "16"
        ++ codes "4111111111111111" ++ codes "000000" ++ codes "000000001000"
        ++ codes "0501093100" ++ codes "000003" ++ codes "113000" ++ codes "0501"
        ++ codes "000000000001" ++ terminal ++ merchant_a ++ codes "978"
        ++ original "0200" "000001" "0501093000")
        ∷ Frame morning
        (codes "0420" ++ codes "F238000008C08000" ++ codes "0000004000000000" ++ codes "16"
        ++ codes "4111111111111111" ++ codes "000000" ++ codes "000000001000"
        ++ codes "0501093100" ++ codes "000003" ++ codes "113000" ++ codes "0501"
        ++ codes "000000000001" ++ terminal ++ merchant_a ++ codes "978"
        ++ original "0200" "000001" "0501093000")
        ∷ [])
        (Reply (Some merchant_a)
        (codes "0410" ++ codes "723A000002C08000" ++ codes "16" ++ codes "4111111111111111"
        ++ codes "000000" ++ codes "000000001000" ++ codes "0501093100" ++ codes "000003"
        ++ codes "113000" ++ codes "0501" ++ codes "0501" ++ codes "25" ++ terminal ++ merchant_a
        ++ codes "978")
        ∷ Reply (Some merchant_a)
        (codes "0430" ++ codes "723A000002C08000" ++ codes "16" ++ codes "4111111111111111"
        ++ codes "000000" ++ codes "000000001000" ++ codes "0501093100" ++ codes "000003"
        ++ codes "113000" ++ codes "0501" ++ codes "0501" ++ codes "25" ++ terminal ++ merchant_a
        ++ codes "978")
        ∷ []) }
    ensures of_a_reconciliation { Gives 999999 merchant_a
        (Frame morning
        (codes "0500" ++ codes "F238000000C08000" ++ codes "0078078080000000" ++ codes "16"
        ++ codes "4111111111111111" ++ codes "000000" ++ codes "000000001000"
        ++ codes "0501100000" ++ codes "000010" ++ codes "113000" ++ codes "0501" ++ terminal
        ++ merchant_a ++ codes "978" ++ no_totals "D0000000000000000")
        ∷ [])
        (Reply (Some merchant_a)
        (codes "0510" ++ codes "F23A000002C08000" ++ codes "4078078080000000" ++ codes "16"
        ++ codes "4111111111111111" ++ codes "000000" ++ codes "000000001000"
        ++ codes "0501100000" ++ codes "000010" ++ codes "113000" ++ codes "0501" ++ codes "0501"
        ++ codes "00" ++ terminal ++ merchant_a ++ codes "978" ++ codes "1"
        ++ no_totals "C0000000000000000")
        ∷ []) }
    ensures of_network_management { Gives 999999 merchant_a
        (Frame morning
        (codes "0800" ++ codes "F23C000000C08000" ++ codes "0400000000000000" ++ codes "16"
        ++ codes "4111111111111111" ++ codes "000000" ++ codes "000000001000"
        ++ codes "0501100000" ++ codes "000010" ++ codes "113000" ++ codes "0501" ++ codes "2912"
        ++ terminal ++ merchant_a ++ codes "978" ++ codes "002")
        ∷ [])
        (Reply (Some merchant_a)
        (codes "0810" ++ codes "F238000002C08000" ++ codes "0400000000000000" ++ codes "16"
        ++ codes "4111111111111111" ++ codes "000000" ++ codes "000000001000"
        ++ codes "0501100000" ++ codes "000010" ++ codes "113000" ++ codes "0501" ++ codes "00"
        ++ terminal ++ merchant_a ++ codes "978" ++ codes "002")
        ∷ []) }
{}
