//! The page.

ghost use Rattle.std.specs.Prelude.{◌≡◌, IfOk};
ghost use Rattle.acq_page.specs.Answers.{IsPage};
ghost use Rattle.acq_page.specs.declared.content_kind.ContentKind.TheVariants as kind;
ghost use Rattle.acq_page.specs.declared.status.Status.TheVariants as outcome;

use crate::alarms::put_alarms;
use crate::bars::put_bars;
use crate::content::Content;
use crate::figure_table::put_figures;
use crate::figures::{counted, first_behind, lines_of};
use crate::frame::{put_foot, put_top};
use crate::host_said::HostSaid;
use crate::html::Html;
use crate::rows::rows_of;
use crate::status::Status;
use crate::sums::{MOST_LINES, put_sums};
use crate::times::put_times;
use crate::waiting::{MOST_NAMED, put_waiting};
use csv::ByteRecord;
use std::alloc::{AllocError, Global};

/// The page about a host that said this.
pub(crate) fn page(alloc: Global, status: &[u8], said: &HostSaid) -> Result<Content, AllocError>
    ensures status { IfOk result (λ content. content.status ≡ outcome.Done) }
    ensures kind { IfOk result (λ content. content.kind ≡ kind.Html) }
    ensures body { IfOk result (λ content. IsPage content.body.items) }
{
    let lines = lines_of(alloc, status)?;
    let metrics = lines_of(alloc, text_of(&said.metrics))?;
    let waiting = rows_of(alloc, said.pending.as_slice(), MOST_NAMED)?;
    let sums = rows_of(alloc, text_of(&said.sums), MOST_LINES)?;
    let mut html = Html::new(alloc);
    put_top(&mut html)?;
    put_summary(alloc, &mut html, lines.as_slice())?;
    put_tables(
        alloc,
        &mut html,
        lines.as_slice(),
        waiting.as_slice(),
        sums.as_slice(),
    )?;
    put_replies(alloc, &mut html, lines.as_slice(), metrics.as_slice())?;
    put_figures(&mut html, lines.as_slice())?;
    html.words("</main>")?;
    put_foot(&mut html)?;
    Content::page(alloc, Status::Done, html.pieces())
}

/// A text, which is empty if there is none.
fn text_of(text: &Option<Vec<u8>>) -> &[u8] {
    match text {
        Some(text) => text.as_slice(),
        None => b"",
    }
}

/// Puts which day it is, and what needs a person.
fn put_summary<'a>(
    alloc: Global,
    html: &mut Html<'a>,
    lines: &[&'a [u8]],
) -> Result<(), AllocError> {
    html.words("<main><h1>Acquirer host</h1><p class=\"soft\">Business day ")?;
    html.text(first_behind(lines, b"day ").unwrap_or(b"?"))?;
    html.words(" &middot; places free: ")?;
    html.text(first_behind(lines, b"open_places ").unwrap_or(b"?"))?;
    html.words(" of ")?;
    html.text(first_behind(lines, b"places ").unwrap_or(b"?"))?;
    html.words("</p>")?;
    put_alarms(alloc, html, lines)
}

fn put_tables<'a>(
    alloc: Global,
    html: &mut Html<'a>,
    lines: &[&'a [u8]],
    waiting: &'a [ByteRecord],
    sums: &'a [ByteRecord],
) -> Result<(), AllocError> {
    put_waiting(alloc, html, lines, waiting)?;
    put_sums(html, sums)
}

/// Puts which replies there were, and how long they took.
fn put_replies<'a>(
    alloc: Global,
    html: &mut Html<'a>,
    lines: &[&'a [u8]],
    metrics: &[&'a [u8]],
) -> Result<(), AllocError> {
    let replies = counted(alloc, lines, b"replies_total.", b" ")?;
    html.words("<div class=\"two\"><section><h2>Replies by response code</h2>")?;
    put_bars(html, replies.as_slice())?;
    html.words("</section>")?;
    put_times(alloc, html, metrics)?;
    html.words("</div>")
}
