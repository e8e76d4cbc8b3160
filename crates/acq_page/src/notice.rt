//! Pages that say why there is nothing to see.

ghost use Rattle.std.specs.Prelude.{◌≡◌, IfOk};
ghost use Rattle.acq_page.specs.Answers.{IsPage};
ghost use Rattle.acq_page.specs.declared.content_kind.ContentKind.TheVariants as kind;

use crate::content::Content;
use crate::frame::{put_foot, put_top};
use crate::html::Html;
use crate::status::Status;
use std::alloc::{AllocError, Global};

/// A page that says why there is nothing to see.
pub(crate) fn notice(alloc: Global, status: Status) -> Result<Content, AllocError>
    ensures status { IfOk result (λ content. content.status ≡ status) }
    ensures kind { IfOk result (λ content. content.kind ≡ kind.Html) }
    ensures body { IfOk result (λ content. IsPage content.body.items) }
{
    let mut html = Html::new(alloc);
    put_top(&mut html)?;
    html.words("<main><h1>Acquirer host</h1><p class=\"alarm\">")?;
    html.words(said(status))?;
    html.words("</p></main>")?;
    put_foot(&mut html)?;
    Content::page(alloc, status, html.pieces())
}

fn said(status: Status) -> &'static str {
    match status {
        Status::Done => "",
        Status::BadHead => "That was no request of HTTP.",
        Status::NotFound => "There is nothing here. The page is at <a href=\"/\">/</a>.",
        Status::OtherMethod => "Nothing can be changed here: ask by GET or HEAD.",
        Status::OtherHost => {
            "This page is for this machine alone: ask for it as 127.0.0.1 or localhost."
        }
        Status::HeadTooLong => "The head of that request is too long.",
        Status::NoHost => "The host doesn't answer. See that it runs, and read its log.",
    }
}
