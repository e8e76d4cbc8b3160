//! Bars.

ghost use Rattle.std.specs.Prelude.{◌≤◌};

use crate::counted::Counted;
use crate::html::Html;
use std::alloc::AllocError;

/// Puts a row for each, with a bar as long as its share of the greatest.
pub(crate) fn put_bars<'a>(html: &mut Html<'a>, rows: &[Counted<'a>]) -> Result<(), AllocError> {
    let mut greatest = 0;
    for row in rows.iter() {
        greatest = greatest.max(row.count);
    }
    html.words("<table><tbody>")?;
    for row in rows.iter() {
        put_bar(html, *row, percent_of(row.count, greatest))?;
    }
    html.words("</tbody></table>")
}

fn put_bar<'a>(html: &mut Html<'a>, row: Counted<'a>, percent: u64) -> Result<(), AllocError> {
    html.words("<tr><th>")?;
    html.text(row.name)?;
    html.words("</th><td class=\"n\">")?;
    html.number(row.count)?;
    html.words("</td><td class=\"b\"><i style=\"width:")?;
    html.number(percent)?;
    html.words("%\"></i></td></tr>")
}

/// How much a part is of a whole, in percent.
fn percent_of(part: u64, whole: u64) -> u64
    ensures { result ≤ 100 }
{
    if whole == 0 {
        0
    } else {
        (part.saturating_mul(100) / whole).min(100)
    }
}
