//! Worked examples of the definitions, computed by the checker: how texts read and messages are
//! spelled.

ghost use Rattle.std.specs.Prelude.{◌≡◌, ◌++◌, [], codes, take};
ghost use Rattle.iso_codec.specs.Reading.{reading_of, spelling};
ghost use Rattle.iso_codec.specs.FaultPlaces.{fault_place};
ghost use Rattle.iso_codec.specs.Examples.{echo_request, echo_request_text, echo_reply};
ghost use Rattle.iso_codec.specs.Examples.{echo_reply_text, purchase, purchase_body, purchase_text};
ghost use Rattle.iso_codec.specs.Examples.{purchase_text_lower, reconciliation};
ghost use Rattle.iso_codec.specs.Examples.{reconciliation_text, zeros, zeros_text, zeros_spelling};
ghost use Rattle.iso_codec.specs.declared.decode_fault.DecodeFault.TheVariants.{BadType, BadBitmap};
ghost use Rattle.iso_codec.specs.declared.decode_fault.DecodeFault.TheVariants.{UnknownElement};
ghost use Rattle.iso_codec.specs.declared.decode_fault.DecodeFault.TheVariants.{Truncated};
ghost use Rattle.iso_codec.specs.declared.decode_fault.DecodeFault.TheVariants.{BadLength};
ghost use Rattle.iso_codec.specs.declared.decode_fault.DecodeFault.TheVariants.{BadContent};
ghost use Rattle.iso_codec.specs.declared.decode_fault.DecodeFault.TheVariants.{Trailing};

/// Texts and the messages that they read as. Lower-case bitmaps are read too.
#[tactic(auto, unfolding(crate::proofs::Computing::on_literals))]
pub fn readings()
    ensures echo_request { reading_of echo_request_text ≡ Ok echo_request }
    ensures echo_reply { reading_of echo_reply_text ≡ Ok echo_reply }
    ensures purchase { reading_of purchase_text ≡ Ok purchase }
    ensures lower_case { reading_of purchase_text_lower ≡ Ok purchase }
    ensures reconciliation { reading_of reconciliation_text ≡ Ok reconciliation }
{}

/// Messages and their spellings.
#[tactic(auto, unfolding(crate::proofs::Computing::on_literals))]
pub fn spellings()
    ensures echo_request { spelling echo_request ≡ echo_request_text }
    ensures echo_reply { spelling echo_reply ≡ echo_reply_text }
    ensures purchase { spelling purchase ≡ purchase_text }
    ensures reconciliation { spelling reconciliation ≡ reconciliation_text }
{}

/// A second bitmap of zeros is read, and not written again.
#[tactic(auto, unfolding(crate::proofs::Computing::on_literals))]
pub fn second_bitmap_of_zeros()
    ensures read { reading_of zeros_text ≡ Ok zeros }
    ensures written { spelling zeros ≡ zeros_spelling }
{}

/// Texts that read as no message, and the first fault of each.
#[tactic(auto, unfolding(crate::proofs::Computing::on_literals))]
pub fn faults()
    ensures empty { reading_of [] ≡ Err (Truncated 0) }
    ensures kind { reading_of (codes "08A0" ++ codes "8220000000000000") ≡ Err BadType }
    ensures bitmap { reading_of (codes "0800" ++ codes "8220000G00000000"
        ++ codes "0400000000000000")
        ≡ Err BadBitmap }
    ensures no_second_bitmap { reading_of (codes "0800" ++ codes "8220000000000000"
        ++ codes "04000000000000G")
        ≡ Err (Truncated 0) }
    ensures bit_65 { reading_of (codes "0800" ++ codes "8220000000000000"
        ++ codes "8400000000000000" ++ codes "0101120000" ++ codes "000001" ++ codes "301")
        ≡ Err (UnknownElement 65) }
    ensures all_bits { reading_of (codes "0800" ++ codes "FFFFFFFFFFFFFFFF"
        ++ codes "FFFFFFFFFFFFFFFF")
        ≡ Err (UnknownElement 5) }
    ensures cut { reading_of (take 85 purchase_text) ≡ Err (Truncated 42) }
    ensures length { reading_of (codes "0200" ++ codes "7220000000C08000" ++ codes "20"
        ++ codes "41111111111111111111")
        ≡ Err (BadLength 2) }
    ensures content { reading_of (codes "0200" ++ codes "7220000000C08000" ++ codes "02"
        ++ codes "4A")
        ≡ Err (BadContent 2) }
    ensures trailing { reading_of (echo_request_text ++ codes " ") ≡ Err Trailing }
{}

/// How many bytes stand before the piece at fault.
#[tactic(auto, unfolding(crate::proofs::Computing::on_literals))]
pub fn places_of_faults()
    ensures short { fault_place (codes "08") (Truncated 0) ≡ 2 }
    ensures kind { fault_place (codes "08A0" ++ codes "8220000000000000") BadType ≡ 0 }
    ensures bitmap { fault_place (codes "0800" ++ codes "8220000G00000000"
        ++ codes "0400000000000000")
        BadBitmap ≡ 4 }
    ensures second_bitmap { fault_place (codes "0800" ++ codes "8220000000000000"
        ++ codes "0400000G00000000")
        BadBitmap ≡ 20 }
    ensures bit_65 { fault_place (codes "0800" ++ codes "8220000000000000"
        ++ codes "8400000000000000" ++ codes "0101120000" ++ codes "000001" ++ codes "301")
        (UnknownElement 65) ≡ 20 }
    ensures bit_5 { fault_place (codes "0800" ++ codes "0A20000000000000")
        (UnknownElement 5) ≡ 4 }
    ensures length { fault_place (codes "0200" ++ codes "7220000000C08000" ++ codes "20"
        ++ codes "41111111111111111111")
        (BadLength 2) ≡ 20 }
    ensures cut { fault_place (take 85 purchase_text) (Truncated 42) ≡ 80 }
    ensures trailing { fault_place (echo_request_text ++ codes " ") Trailing ≡ 55 }
{}
