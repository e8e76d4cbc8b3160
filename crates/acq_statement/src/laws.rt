//! Texts, computed, and what holds of them whatever comes.

ghost use Rattle.std.specs.Prelude.{◌≡◌, ◌++◌, ◌∷◌, [], ◌-ℤ◌, neg_ℤ, pos, List, None, Some};
ghost use Rattle.std.specs.Prelude.{codes};
ghost use Rattle.acq_core.specs.Tables.{Tables, tables_after};
ghost use Rattle.acq_core.specs.declared.event.Event.{Event};
ghost use Rattle.day_totals.specs.Totals.{DayTotals, net_of};
ghost use Rattle.acq_reports.specs.declared.report_fault.ReportFault.TheVariants.{NoSuchMerchant};
ghost use Rattle.acq_statement.specs.DaySums.{day_sums, sums_header};
ghost use Rattle.acq_statement.specs.Gathered.{IsGathered};
ghost use Rattle.acq_statement.specs.declared.gathering.Gathering.{Gathering};
ghost use Rattle.acq_statement.specs.LegTexts.{due_to_acquirer, due_to_merchant};
ghost use Rattle.acq_statement.specs.Span.{days_of, statement_refusal};
ghost use Rattle.acq_statement.specs.Sums.{owed_of};
ghost use Rattle.acq_statement.specs.declared.days.Days.{Days};
ghost use Rattle.acq_reports.specs.Worked.{first_merchant, second_merchant};
ghost use Rattle.acq_statement.specs.Lines.{statement_header};
ghost use Rattle.acq_statement.specs.ReportCsv.{report_csv, report_header};
ghost use Rattle.acq_statement.specs.Statement.{statement_text};
ghost use Rattle.acq_statement.specs.Worked.{foreign_merchant, stated_days, stated_tables};
ghost use Rattle.acq_statement.specs.declared.statement_form.StatementForm.TheVariants.{Csv, Text};

/// A settlement report as CSV, computed: two merchants of a currency, of which one owes the
/// acquirer, and one of another currency.
pub fn worked_report_csv()
    ensures text { report_csv stated_tables 8887
        ≡ report_header
        ++ codes "MERCHANT0000001,978,0,0,0,0,2,3500,1,400,3100,balanced\n"
        ++ codes "MERCHANT0000002,978,1,700,0,0,1,300,0,0,-400,none\n"
        ++ codes "MERCHANT0000003,840,0,0,0,0,0,0,0,0,0,none\n"
        ++ codes ",978,1,700,0,0,3,3800,1,400,2700,\n"
        ++ codes ",840,0,0,0,0,0,0,0,0,0,\n" }
{}

/// The sums of a day, computed: of two currencies, and of a day without postings.
pub fn worked_sums()
    ensures two { day_sums stated_tables 8887
        ≡ sums_header ++ codes "978,1,700,0,0,3,3800,1,400,2700\n"
        ++ codes "840,0,0,0,0,0,0,0,0,0\n" }
    ensures none { day_sums stated_tables 1
        ≡ sums_header ++ codes "978,0,0,0,0,0,0,0,0,0\n"
        ++ codes "840,0,0,0,0,0,0,0,0,0\n" }
{}

/// A statement of two merchants as text, computed.
pub fn worked_statement()
    ensures text { statement_text stated_tables (first_merchant ∷ second_merchant ∷ []) stated_days
        Text
        ≡ codes "MERCHANT0000001 2024-05-01, currency 978\n"
        ++ codes "  terminal TERM0001: debits 3500 (2), debit reversals 400 (1)\n"
        ++ codes "  terminal TERM0002: nothing\n"
        ++ codes "  merchant: debits 3500 (2), debit reversals 400 (1), net D0000000000003100\n"
        ++ codes "  claimed by TERM0001 in 000011: debits 3500 (2), net D0000000000003500\n"
        ++ codes "  found for TERM0001 in 000011: debits 3500 (2), debit reversals 400 (1),"
        ++ codes " net D0000000000003100, differs\n"
        ++ codes "  the acquirer owes the merchant 3100\n"
        ++ codes "MERCHANT0000002 2024-05-01, currency 978\n"
        ++ codes "  terminal TERM0001: credits 700 (1), debits 300 (1)\n"
        ++ codes "  merchant: credits 700 (1), debits 300 (1), net C0000000000000400\n"
        ++ codes "  the merchant owes the acquirer 400\n"
        ++ codes "currency 978: credits 700 (1), debits 3800 (3), debit reversals 400 (1)\n"
        ++ codes "  the acquirer owes the merchants 2700\n" }
    ensures idle { statement_text stated_tables (foreign_merchant.id ∷ []) stated_days Text
        ≡ codes "MERCHANT0000003 2024-05-01, currency 840\n"
        ++ codes "  merchant: nothing, net C0000000000000000\n"
        ++ codes "  nothing is owed\n"
        ++ codes "currency 840: nothing\n"
        ++ codes "  nothing is owed\n" }
{}

/// A statement of a merchant as CSV, computed.
pub fn worked_statement_csv()
    ensures text { statement_text stated_tables (first_merchant ∷ []) stated_days Csv
        ≡ statement_header Csv
        ++ codes "MERCHANT0000001,978,2024-05-01,terminal,TERM0001,,0,0,0,0,2,3500,1,400,3100\n"
        ++ codes "MERCHANT0000001,978,2024-05-01,terminal,TERM0002,,0,0,0,0,0,0,0,0,0\n"
        ++ codes "MERCHANT0000001,978,2024-05-01,merchant,,,0,0,0,0,2,3500,1,400,3100\n"
        ++ codes "MERCHANT0000001,978,2024-05-01,claimed,TERM0001,000011,0,0,0,0,2,3500,0,0,3500\n"
        ++ codes "MERCHANT0000001,978,2024-05-01,found,TERM0001,000011,0,0,0,0,2,3500,1,400,3100\n"
        ++ codes ",978,,currency,,,0,0,0,0,2,3500,1,400,3100\n" }
{}

/// What is gathered stays gathered, whatever events are taken.
pub fn what_is_gathered_stays_gathered()
    ensures { (t : Tables) (events : List Event) (gathering : Gathering) → IsGathered t gathering
        → IsGathered (tables_after t events) gathering }
{}

/// What is owed to a merchant is minus the net of its totals, and what is due to it less what is
/// due to the acquirer: the two forms of a statement, and the settlement report, tell the same.
pub fn owed_is_told_alike()
    ensures net { (t : DayTotals) → owed_of t ≡ neg_ℤ (net_of t) }
    ensures due { (t : DayTotals) → owed_of t
        ≡ pos (due_to_merchant t) -ℤ pos (due_to_acquirer t) }
{}

/// Refusals of statements, and days of them, computed.
pub fn worked_refusals()
    ensures unknown { statement_refusal stated_tables
        (first_merchant ∷ codes "MERCHANT0000009" ∷ []) ≡ Some NoSuchMerchant }
    ensures all { statement_refusal stated_tables [] ≡ None }
    ensures none { days_of (record { first = 8887; last = 8886 }) ≡ [] }
    ensures leap { days_of (record { first = 8824; last = 8826 }) ≡ 8824 ∷ 8825 ∷ 8826 ∷ [] }
{}
