//! How long replies took.

use crate::bars::put_bars;
use crate::counted::Counted;
use crate::figures::counted;
use crate::html::Html;
use std::alloc::{AllocError, Global};

/// Puts how many replies took how long, out of the lines of metrics.
pub(crate) fn put_times<'a>(
    alloc: Global,
    html: &mut Html<'a>,
    lines: &[&'a [u8]],
) -> Result<(), AllocError> {
    let buckets = counted(alloc, lines, b"acqd_reply_seconds_bucket{le=\"", b"\"} ")?;
    if buckets.is_empty() {
        return Ok(());
    }
    html.words("<section><h2>Replies by time, in seconds up to</h2>")?;
    let apart = apart(alloc, buckets.as_slice())?;
    put_bars(html, apart.as_slice())?;
    html.words("</section>")
}

/// Buckets, each without what the one before it has, too.
fn apart<'a>(alloc: Global, buckets: &[Counted<'a>]) -> Result<Vec<Counted<'a>>, AllocError> {
    let mut apart = Vec::new(alloc);
    let mut before = 0;
    for bucket in buckets.iter() {
        apart.push(Counted {
            name: bucket.name,
            count: bucket.count.saturating_sub(before),
        })?;
        before = bucket.count;
    }
    Ok(apart)
}
