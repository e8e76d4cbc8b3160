//! Worked texts of the definitions.

ghost use Rattle.std.specs.Prelude.{◌≡◌, ◌++◌, None, Some, codes};
ghost use Rattle.acq_reports.specs.Faults.{text_of};
ghost use Rattle.acq_reports.specs.Marks.{dotted, end_text};
ghost use Rattle.acq_reports.specs.OpenHolds.{holds_text};
ghost use Rattle.acq_reports.specs.Refusals.{day_refusal, merchant_refusal};
ghost use Rattle.acq_reports.specs.SettlementReport.{settlement_text, state_word};
ghost use Rattle.acq_reports.specs.Worked.{worked_tables, first_merchant, worked_reconciliation};
ghost use Rattle.acq_reports.specs.declared.report_fault.ReportFault.TheVariants as fault;

/// A settlement report, computed.
pub fn worked_settlement()
    ensures text { settlement_text worked_tables 8887
        ≡ codes "SETTLEMENT 2024-05-01\n"
        ++ codes "MERCHANT0000001 .....0 ...............0 .....0 ...............0"
        ++ codes " .....1 ............1000 .....1 ............1000 C0000000000000000 none\n"
        ++ codes "MERCHANT0000002 .....0 ...............0 .....0 ...............0"
        ++ codes " .....0 ...............0 .....0 ...............0 C0000000000000000 none\n"
        ++ codes "MERCHANTS 2\n" }
    ensures balanced { state_word (Some worked_reconciliation) ≡ codes "balanced" }
    ensures full { dotted 6 (codes "999999") ≡ codes "999999" }
{}

/// A merchant's open holds, computed.
pub fn worked_holds()
    ensures both { holds_text worked_tables first_merchant 1714555800
        ≡ codes "reference,card,amount,until\n"
        ++ codes "000000000001,550000******5559,5000,2024-05-02 09:30:00\n"
        ++ codes "000000000002,550000******5559,5000,2024-05-02 09:30:00\n" }
    ensures ended { holds_text worked_tables first_merchant 1714642201
        ≡ codes "reference,card,amount,until\n" }
    ensures last { end_text 4105123199 ≡ codes "2100-01-31 23:59:59" }
{}

/// Refusals, computed.
pub fn worked_refusals()
    ensures over { day_refusal worked_tables 8887 ≡ None }
    ensures today { day_refusal worked_tables 8888 ≡ Some fault.DayNotOver }
    ensures unknown { merchant_refusal worked_tables (codes "MERCHANT0000003")
        ≡ Some fault.NoSuchMerchant }
    ensures text { text_of (fault.StillPending 1) ≡ codes "61 StillPending 1" }
{}
