//! Worked examples of the definitions, computed by the checker from a frame's bytes to its reply's.

ghost use Rattle.std.specs.Prelude.{◌≡◌, ◌++◌, ◌∷◌, [], codes};
ghost use Rattle.acq_message.specs.Cards.{card_of, expiry_of};
ghost use Rattle.acq_core.specs.NewBook.{output_to};
ghost use Rattle.acq_core.specs.declared.output.Output.TheVariants.{Reply, Undecodable};
ghost use Rattle.acq_core.specs.declared.output.Output.TheVariants.{UnservedType};
ghost use Rattle.iso_codec.specs.declared.decode_fault.DecodeFault.TheVariants.{Trailing};
ghost use Rattle.iso_codec.specs.declared.decode_fault.DecodeFault.TheVariants.{UnknownElement};

/// Echo tests, sign-ons and sign-offs.
#[tactic(auto, unfolding(iso_codec::proofs::Computing::on_literals))]
pub fn network_management()
    ensures echo_test { output_to (codes "0800" ++ codes "8220000000000000"
        ++ codes "0400000000000000" ++ codes "0101120000" ++ codes "000001"
        ++ codes "301") ≡ Reply None (codes "0810" ++ codes "8220000002000000"
        ++ codes "0400000000000000" ++ codes "0101120000" ++ codes "000001" ++ codes "00"
        ++ codes "301") }
    ensures repeated { output_to (codes "0801" ++ codes "8220000000000000"
        ++ codes "0400000000000000" ++ codes "0101120000" ++ codes "000001"
        ++ codes "301") ≡ Reply None (codes "0810" ++ codes "8220000002000000"
        ++ codes "0400000000000000" ++ codes "0101120000" ++ codes "000001" ++ codes "00"
        ++ codes "301") }
    ensures other_code { output_to (codes "0800" ++ codes "8220000000000000"
        ++ codes "0400000000000000" ++ codes "0101120000" ++ codes "000001"
        ++ codes "003") ≡ Reply None (codes "0810" ++ codes "8220000002000000"
        ++ codes "0400000000000000" ++ codes "0101120000" ++ codes "000001" ++ codes "12"
        ++ codes "003") }
    ensures of_a_merchant { output_to (codes "0800" ++ codes "8220000000C00000"
        ++ codes "0400000000000000" ++ codes "0101120000" ++ codes "000001" ++ codes "TERM0001"
        ++ codes "MERCHANT0000001" ++ codes "001")
        ≡ Reply (Some (codes "MERCHANT0000001")) (codes "0810" ++ codes "8220000002C00000"
        ++ codes "0400000000000000" ++ codes "0101120000" ++ codes "000001" ++ codes "00"
        ++ codes "TERM0001" ++ codes "MERCHANT0000001" ++ codes "001") }
{}

/// Requests that the first check refuses.
#[tactic(auto, unfolding(iso_codec::proofs::Computing::on_literals))]
pub fn malformed()
    ensures no_network_code { output_to (codes "0800" ++ codes "0220000000000000"
        ++ codes "0101120000" ++ codes "000001") ≡ Reply None (codes "0810"
        ++ codes "0220000002000000" ++ codes "0101120000" ++ codes "000001" ++ codes "30") }
    ensures second_bitmap_of_zeros { output_to (codes "0800" ++ codes "8220000000000000"
        ++ codes "0000000000000000" ++ codes "0101120000"
        ++ codes "000001") ≡ Reply None (codes "0810" ++ codes "0220000002000000"
        ++ codes "0101120000" ++ codes "000001" ++ codes "30") }
    ensures authentication_code { output_to (codes "0800" ++ codes "8220000000000001"
        ++ codes "0400000000000000" ++ codes "0101120000" ++ codes "000001"
        ++ codes "0000000000000000" ++ codes "301") ≡ Reply None (codes "0810"
        ++ codes "8220000002000000" ++ codes "0400000000000000" ++ codes "0101120000"
        ++ codes "000001" ++ codes "30" ++ codes "301") }
    ensures pin_block { output_to (codes "0800" ++ codes "8220000000001000"
        ++ codes "0400000000000000" ++ codes "0101120000" ++ codes "000001"
        ++ codes "0000000000000000" ++ codes "301") ≡ Reply None (codes "0810"
        ++ codes "8220000002000000" ++ codes "0400000000000000" ++ codes "0101120000"
        ++ codes "000001" ++ codes "30" ++ codes "301") }
{}

/// Frames without a reply.
#[tactic(auto, unfolding(iso_codec::proofs::Computing::on_literals))]
pub fn without_reply()
    ensures unserved { output_to (codes "0810" ++ codes "0220000002000000"
        ++ codes "0101120000" ++ codes "000001" ++ codes "30") ≡ UnservedType (codes "0810") }
    ensures undecodable { output_to (codes "0800" ++ codes "8220000000000000"
        ++ codes "8400000000000000") ≡ Undecodable (UnknownElement 65) }
    ensures undecodable_before_unserved { output_to (codes "0999" ++ codes "0000000000000000"
        ++ codes " ") ≡ Undecodable Trailing }
{}

/// Requests with a card, and the first check.
#[tactic(auto, unfolding(iso_codec::proofs::Computing::on_literals))]
pub fn cards()
    ensures short_track { output_to (codes "0800" ++ codes "8220000020000000"
        ++ codes "0400000000000000" ++ codes "0101120000" ++ codes "000001" ++ codes "03"
        ++ codes "123" ++ codes "301") ≡ Reply None (codes "0810" ++ codes "8220000002000000"
        ++ codes "0400000000000000" ++ codes "0101120000" ++ codes "000001" ++ codes "30"
        ++ codes "301") }
    ensures same_card { output_to (codes "0800" ++ codes "C220000020000000"
        ++ codes "0400000000000000" ++ codes "16" ++ codes "4111111111111111" ++ codes "0101120000"
        ++ codes "000001" ++ codes "21" ++ codes "4111111111111111=2912"
        ++ codes "301") ≡ Reply None (codes "0810" ++ codes "C220000002000000"
        ++ codes "0400000000000000" ++ codes "16" ++ codes "4111111111111111" ++ codes "0101120000"
        ++ codes "000001" ++ codes "00" ++ codes "301") }
    ensures other_card { output_to (codes "0800" ++ codes "C220000020000000"
        ++ codes "0400000000000000" ++ codes "16" ++ codes "4111111111111112" ++ codes "0101120000"
        ++ codes "000001" ++ codes "21" ++ codes "4111111111111111=2912"
        ++ codes "301") ≡ Reply None (codes "0810" ++ codes "C220000002000000"
        ++ codes "0400000000000000" ++ codes "16" ++ codes "4111111111111112" ++ codes "0101120000"
        ++ codes "000001" ++ codes "30" ++ codes "301") }
{}

/// The card number and the expiry of a message.
#[tactic(auto, unfolding(iso_codec::proofs::Computing::on_literals))]
pub fn cards_of_messages()
    ensures of_track { card_of (record {
      kind = codes "0200";
      elements =
          (35, codes "4111111111111111=2912") ∷ [];
    }) ≡ Some (codes "4111111111111111") }
    ensures of_element_2 { card_of (record {
      kind = codes "0200";
      elements =
          (2, codes "5500005555555559") ∷ (35, codes "4111111111111111D2912") ∷ [];
    })
        ≡ Some (codes "5500005555555559") }
    ensures empty { card_of (record { kind = codes "0200"; elements = (35, codes "=2912") ∷ [] })
        ≡ Some [] }
    ensures none { card_of (record {
      kind = codes "0200";
      elements =
          (35, codes "4111111111111111") ∷ [];
    }) ≡ None }
    ensures expiry_of_track { expiry_of (record {
      kind = codes "0200";
      elements =
          (35, codes "4111111111111111=2912") ∷ [];
    }) ≡ Some (codes "2912") }
    ensures expiry_of_element_14 { expiry_of (record {
      kind = codes "0200";
      elements =
          (14, codes "2404") ∷ (35, codes "4111111111111111=2912") ∷ [];
    }) ≡ Some (codes "2404") }
    ensures no_expiry { expiry_of (record {
      kind = codes "0200";
      elements =
          (35, codes "4111111111111111=29:2") ∷ [];
    }) ≡ None }
{}
