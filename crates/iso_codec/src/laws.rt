//! Laws of the spelling: each is the contract of a function that has no code.

ghost use Rattle.std.specs.Prelude.{◌≡◌, ◌↔◌, ◌+◌, ℕ, List, [], ◌++◌, length};
ghost use Rattle.iso_codec.specs.Message.{IsoMessage, IsMessage, Reads, Writes};
ghost use Rattle.iso_codec.specs.Faults.{FirstFault, AwaitsElement};
ghost use Rattle.iso_codec.specs.FaultPlaces.{element_place, fault_place};
ghost use Rattle.iso_codec.specs.Reading.{reading_of, spelling};
ghost use Rattle.iso_codec.specs.declared.decode_fault.DecodeFault.{DecodeFault};
ghost use Rattle.iso_codec.specs.declared.decode_fault.DecodeFault.TheVariants.{Trailing};
ghost use Rattle.iso_codec.specs.declared.element_format.ElementFormat.{ElementFormat};

/// At most one message is read from a text.
pub fn reads_one()
    ensures { (text : List ℕ) (m n : IsoMessage) → Reads text m → Reads text n → m ≡ n }
{}

/// What is written is read.
pub fn written_is_read()
    ensures { (text : List ℕ) (m : IsoMessage) → Writes text m → Reads text m }
{}

/// No spelling of a message begins another.
pub fn no_spelling_begins_another()
    ensures { (text more : List ℕ) (m n : IsoMessage)
        → Reads text m → Reads (text ++ more) n → more ≡ [] }
{}

/// A text with a fault spells no message.
pub fn faults_spell_nothing()
    ensures { (text : List ℕ) (fault : DecodeFault) (m : IsoMessage)
        → FirstFault text fault → Reads text m → ⊥ }
{}

/// At most one fault is the first.
pub fn one_first_fault()
    ensures { (text : List ℕ) (fault other : DecodeFault)
        → FirstFault text fault → FirstFault text other → fault ≡ other }
{}

/// What a text reads as, computed, is the message that it spells, or else its first fault.
pub fn reading_computes()
    ensures read { (text : List ℕ) (m : IsoMessage) → (reading_of text ≡ Ok m) ↔ Reads text m }
    ensures fault { (text : List ℕ) (fault : DecodeFault)
        → (reading_of text ≡ Err fault) ↔ FirstFault text fault }
{}

/// The spelling of a message, computed, is the one that is written.
pub fn spelling_computes()
    ensures written { (m : IsoMessage) → IsMessage m → Writes (spelling m) m }
    ensures only { (text : List ℕ) (m : IsoMessage) → Writes text m → text ≡ spelling m }
{}

/// The spelling of a message reads as that message.
pub fn spelling_is_read()
    ensures { (m : IsoMessage) → IsMessage m → reading_of (spelling m) ≡ Ok m }
{}

/// An element's place is where what has to be that element stands, and the place of trailing bytes
/// is behind the message.
pub fn faults_stand_at_their_places()
    ensures element { (text rest : List ℕ) (n : ℕ) (format : ElementFormat)
        → AwaitsElement text n format rest → element_place n text + length rest ≡ length text }
    ensures trailing { (front rest : List ℕ) (m : IsoMessage) → Reads front m
        → fault_place (front ++ rest) Trailing + length rest ≡ length (front ++ rest) }
{}
