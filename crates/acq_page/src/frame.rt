//! What stands around each page.

use crate::html::Html;
use std::alloc::AllocError;

/// The head of a page, which renews itself every five seconds.
const TOP: &str = "<!DOCTYPE html>\n<html lang=\"en\"><head><meta charset=\"utf-8\">\
    <meta name=\"viewport\" content=\"width=device-width, initial-scale=1\">\
    <meta http-equiv=\"refresh\" content=\"5\"><title>Acquirer host</title>";

/// How it looks: plain, and dark where the reader's screen is.
const STYLE: &str = "<style>\
    :root{color-scheme:light dark;--line:#d8dcd9;--soft:#5d6661;--bar:#7fa08f;--alarm:#a8401f}\
    @media(prefers-color-scheme:dark){\
    :root{--line:#3a403d;--soft:#a3aca7;--bar:#5f8070;--alarm:#ec9a7c}}\
    body{margin:0;font:15px/1.5 system-ui,sans-serif}\
    main{max-width:64rem;margin:0 auto;padding:1.5rem}\
    h1{font-size:1.4rem;font-weight:600;margin:0}\
    h2{font-size:1rem;font-weight:600;margin:2rem 0 .5rem}\
    p{margin:.25rem 0}.soft{color:var(--soft)}\
    .calm,.alarm{margin:1rem 0;padding:.5rem 1rem;border-left:4px solid var(--bar)}\
    .alarm{border-color:var(--alarm)}ul.alarm{list-style:none}\
    table{border-collapse:collapse;width:100%}\
    th,td{padding:.25rem .75rem .25rem 0;border-bottom:1px solid var(--line);\
    text-align:left;font-weight:400;vertical-align:baseline}\
    thead th{color:var(--soft);font-size:.85rem}\
    .n{text-align:right;font-variant-numeric:tabular-nums;white-space:nowrap}\
    .b{width:45%}.b i{display:block;height:.7rem;background:var(--bar)}\
    .two{display:grid;grid-template-columns:repeat(auto-fit,minmax(20rem,1fr));gap:0 2.5rem}\
    .wide{overflow-x:auto}.few{max-width:32rem}</style></head><body>";

pub(crate) fn put_top(html: &mut Html<'_>) -> Result<(), AllocError> {
    html.words(TOP)?;
    html.words(STYLE)
}

pub(crate) fn put_foot(html: &mut Html<'_>) -> Result<(), AllocError> {
    html.words("</body></html>\n")
}
