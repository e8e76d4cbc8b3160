//! Laws of what is written and of what a search finds, and inquiries, computed.

ghost use Rattle.std.specs.Prelude.{◌≡◌, ◌++◌, ℕ, List, None, Some, codes};
ghost use Rattle.acq_core.specs.Tables.{Tables, tables_after};
ghost use Rattle.acq_core.specs.declared.event.Event.{Event};
ghost use Rattle.acq_core.specs.declared.request.Request.{Request};
ghost use Rattle.acq_reports.specs.Worked.{first_merchant, second_merchant};
ghost use Rattle.acq_show.specs.Hidden.{LookAlike};
ghost use Rattle.acq_inquiry.specs.InquiryTexts.{inquiry_text, request_text};
ghost use Rattle.acq_inquiry.specs.Searching.{IsSearched};
ghost use Rattle.acq_inquiry.specs.Worked.{asked_tables};
ghost use Rattle.acq_inquiry.specs.declared.inquiry.Inquiry.TheVariants.{CardEnds, Reference};
ghost use Rattle.acq_inquiry.specs.declared.inquiry.Inquiry.TheVariants.{Trace};
ghost use Rattle.acq_inquiry.specs.declared.search.Search.{Search};

/// What is written of a request depends on no more of its card number than its length, its first
/// six and its last four digits.
pub fn no_card_is_written()
    ensures { (t : Tables) (row : Request) (card other : List ℕ) → LookAlike card other
        → request_text t (record row { card = Some card })
        ≡ request_text t (record row { card = Some other }) }
{}

/// What a search found stays found, whatever events are taken.
pub fn what_is_found_stays_found()
    ensures { (t : Tables) (events : List Event) (search : Search) → IsSearched t search
        → IsSearched (tables_after t events) search }
{}

/// A sale that was reversed, by its reference, and by the trace number of its reversal; and a
/// request that no other is related to.
pub fn worked_relations()
    ensures sale { inquiry_text asked_tables first_merchant (Reference 5002) None
        ≡ codes "2024-05-01 PUMP0001 000004 sale of 3000, reference 000000005002, "
        ++ codes "card 411111******1111\n"
        ++ codes "2024-05-01 PUMP0001 000004 reply 00: approved, authorization id 000123\n"
        ++ codes "2024-05-01 PUMP0001 000004 reversed\n"
        ++ codes "2024-05-01 PUMP0001 000004 posted on 2024-05-01 as number 2: debit of 3000\n"
        ++ codes "2024-05-01 PUMP0001 000005 reversal advice of 3000, of 000000005002, "
        ++ codes "card 411111******1111\n"
        ++ codes "2024-05-01 PUMP0001 000005 reply 00: approved\n"
        ++ codes "2024-05-01 PUMP0001 000005 posted on 2024-05-01 as number 3: "
        ++ codes "debit reversal of 3000\n" }
    ensures reversal { inquiry_text asked_tables first_merchant
        (Trace (codes "PUMP0001") (codes "000005")) None
        ≡ inquiry_text asked_tables first_merchant (Reference 5002) None }
    ensures alone { inquiry_text asked_tables first_merchant
        (Trace (codes "PUMP0001") (codes "000008")) None
        ≡ codes "2024-05-01 PUMP0001 000008 reconciliation\n"
        ++ codes "2024-05-01 PUMP0001 000008 reply 00: approved\n" }
{}

/// Holds, a request that waits, none, and more than are to be told of.
pub fn worked_standings()
    ensures lowered { inquiry_text asked_tables first_merchant (CardEnds (codes "5559") 8887) None
        ≡ codes "2024-05-01 PUMP0001 000006 authorization of 3000, reference 000000005003, "
        ++ codes "card 550000******5559\n"
        ++ codes "2024-05-01 PUMP0001 000006 reply 00: approved\n"
        ++ codes "2024-05-01 PUMP0001 000006 lowered to 2000, "
        ++ codes "held until 2024-05-02 09:30:00\n" }
    ensures held { inquiry_text asked_tables second_merchant (Reference 5002) None
        ≡ codes "2024-05-01 PUMP0001 000006 authorization of 3000, reference 000000005002, "
        ++ codes "card 550000******5559\n"
        ++ codes "2024-05-01 PUMP0001 000006 reply 00: approved\n"
        ++ codes "2024-05-01 PUMP0001 000006 held until 2024-05-02 09:30:00\n" }
    ensures waits { inquiry_text asked_tables first_merchant (Reference 5004) None
        ≡ codes "2024-05-01 PUMP0001 000007 return of 3000, reference 000000005004, "
        ++ codes "card 411111******1111\n"
        ++ codes "2024-05-01 PUMP0001 000007 waits for its issuer\n" }
    ensures none { inquiry_text asked_tables first_merchant (CardEnds (codes "5559") 8888) None
        ≡ codes "nothing found\n" }
    ensures many { inquiry_text asked_tables first_merchant (Reference 5002) (Some 1)
        ≡ codes "more than 1 requests found, too many to tell of: ask for one by its reference or "
        ++ codes "trace number\n" }
    ensures enough { inquiry_text asked_tables first_merchant (Reference 5002) (Some 2)
        ≡ inquiry_text asked_tables first_merchant (Reference 5002) None }
{}

/// A hold whose completion was reversed, a request that was reversed while it waited, and one that
/// was refused.
pub fn worked_ends()
    ensures completed { inquiry_text asked_tables first_merchant (Reference 5005) None
        ≡ codes "2024-05-01 PUMP0001 000011 authorization of 3000, reference 000000005005, "
        ++ codes "card 411111******1111\n"
        ++ codes "2024-05-01 PUMP0001 000011 reply 00: approved\n"
        ++ codes "2024-05-01 PUMP0001 000011 completed\n"
        ++ codes "2024-05-01 PUMP0001 000012 completion of 3000, of 000000005005, "
        ++ codes "card 411111******1111\n"
        ++ codes "2024-05-01 PUMP0001 000012 reply 00: approved\n"
        ++ codes "2024-05-01 PUMP0001 000012 reversed\n"
        ++ codes "2024-05-01 PUMP0001 000012 posted on 2024-05-01 as number 4: debit of 3000\n"
        ++ codes "2024-05-01 PUMP0001 000013 reversal of 3000, of 000000005005, "
        ++ codes "card 411111******1111\n"
        ++ codes "2024-05-01 PUMP0001 000013 reply 00: approved\n"
        ++ codes "2024-05-01 PUMP0001 000013 posted on 2024-05-01 as number 5: "
        ++ codes "debit reversal of 3000\n" }
    ensures waited { inquiry_text asked_tables first_merchant
        (Trace (codes "PUMP0001") (codes "000014")) None
        ≡ codes "2024-05-01 PUMP0001 000014 financial request of 3000, reference 000000005006, "
        ++ codes "card 411111******1111\n"
        ++ codes "2024-05-01 PUMP0001 000014 reversed before its issuer answered\n"
        ++ codes "2024-05-01 PUMP0001 000014 reversal of 3000, of 000000005006, "
        ++ codes "card 411111******1111\n"
        ++ codes "2024-05-01 PUMP0001 000014 reply 00: approved\n" }
    ensures refused { inquiry_text asked_tables first_merchant
        (Trace (codes "PUMP0001") (codes "000015")) None
        ≡ codes "2024-05-01 PUMP0001 000015 authorization of 3000, card 411111******1111\n"
        ++ codes "2024-05-01 PUMP0001 000015 reply 14: invalid card number\n" }
{}
