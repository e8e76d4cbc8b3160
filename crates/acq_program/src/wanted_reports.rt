//! The reports that the options of `replay` ask for.

ghost use Rattle.std.specs.Prelude.{◌≡◌, ◌++◌, List, IfErr, OnOk};
ghost use Rattle.acq_program.specs.Options.{GivesReports};
ghost use Rattle.acq_program.specs.WantedReports.{MayRefuse, each_text, texts_in};

use crate::option_name::OptionName;
use crate::usage_fault::UsageFault;
use acq_faults::{DayReport, ReportKind};
use day_totals::Day;

/// Puts the reports of a kind that an option's values ask for behind those that are there; an
/// option that isn't there has none.
pub(crate) fn add_reports(
    reports: &mut Vec<DayReport>,
    kind: ReportKind,
    texts: Option<&[&str]>,
) -> Result<(), UsageFault>
    ensures added { OnOk result ((more : List DayReport)
        × GivesReports kind (texts_in texts.entry) more
        × (reports.new.items ≡ reports.old.items ++ more)) }
    ensures refused { IfErr result (MayRefuse kind (texts_in texts.entry)) }
{
    match texts {
        Some(texts) => add_each(reports, kind, texts),
        None => Ok(()),
    }
}

/// Puts a report of a kind on each of these days behind those that are there.
fn add_each(
    reports: &mut Vec<DayReport>,
    kind: ReportKind,
    texts: &[&str],
) -> Result<(), UsageFault>
    ensures added { OnOk result ((more : List DayReport)
        × GivesReports kind (each_text texts.now) more
        × (reports.new.items ≡ reports.old.items ++ more)) }
    ensures refused { IfErr result (MayRefuse kind (each_text texts.now)) }
{
    for text in texts.iter() {
        let day = Day::read(text).ok_or(OptionName::Report(kind))?;
        reports.push(DayReport { kind, day })?;
    }
    Ok(())
}
