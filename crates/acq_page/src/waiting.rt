//! What waits for its issuer.

use crate::figures::counted;
use crate::html::Html;
use csv::ByteRecord;
use std::alloc::{AllocError, Global};

/// Of how many requests that wait it is told which they are.
pub(crate) const MOST_NAMED: usize = 20;

/// Puts how many requests wait of each day, and which are the first of them.
pub(crate) fn put_waiting<'a>(
    alloc: Global,
    html: &mut Html<'a>,
    lines: &[&'a [u8]],
    rows: &'a [ByteRecord],
) -> Result<(), AllocError> {
    html.words("<h2>Waiting for their issuer</h2><table class=\"few\"><tbody>")?;
    for day in counted(alloc, lines, b"pending.", b" ")? {
        html.words("<tr><th>")?;
        html.text(day.name)?;
        html.words("</th><td class=\"n\">")?;
        html.number(day.count)?;
        html.words("</td></tr>")?;
    }
    html.words("</tbody></table>")?;
    put_named(html, rows)
}

/// Puts which requests wait, out of the lines that would end them.
fn put_named<'a>(html: &mut Html<'a>, rows: &'a [ByteRecord]) -> Result<(), AllocError> {
    if rows.is_empty() {
        return Ok(());
    }
    html.words("<p class=\"soft\">The first of them</p><table class=\"few\"><thead>")?;
    html.words("<tr><th>Merchant</th><th>Reference</th></tr></thead><tbody>")?;
    for row in rows.iter() {
        html.words("<tr><td>")?;
        html.text(row.get(2).unwrap_or(b""))?;
        html.words("</td><td>")?;
        html.text(row.get(3).unwrap_or(b""))?;
        html.words("</td></tr>")?;
    }
    html.words("</tbody></table>")
}
