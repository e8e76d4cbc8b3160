//! A day's sums.

use crate::html::Html;
use csv::ByteRecord;
use std::alloc::AllocError;

/// The most currencies that are shown, and the line above them.
pub(crate) const MOST_LINES: usize = 101;

/// What stands above the sums.
const HEADINGS: &str = "<h2>Sums of the day by currency, in minor units</h2>\
    <div class=\"wide\"><table><thead><tr><th class=\"n\">Currency</th>\
    <th class=\"n\">Credits</th><th class=\"n\">amount</th>\
    <th class=\"n\">reversed</th><th class=\"n\">amount</th>\
    <th class=\"n\">Debits</th><th class=\"n\">amount</th>\
    <th class=\"n\">reversed</th><th class=\"n\">amount</th>\
    <th class=\"n\">Owed to merchants</th></tr></thead><tbody>";

/// Puts the sums of each currency, in records behind one with the columns' names.
pub(crate) fn put_sums<'a>(html: &mut Html<'a>, rows: &'a [ByteRecord]) -> Result<(), AllocError> {
    if rows.len() < 2 {
        return Ok(());
    }
    html.words(HEADINGS)?;
    for row in rows[1..].iter() {
        html.words("<tr>")?;
        put_fields(html, row)?;
        html.words("</tr>")?;
    }
    html.words("</tbody></table></div>")
}

fn put_fields<'a>(html: &mut Html<'a>, row: &'a ByteRecord) -> Result<(), AllocError> {
    for field in row.iter() {
        html.words("<td class=\"n\">")?;
        html.text(field)?;
        html.words("</td>")?;
    }
    Ok(())
}
