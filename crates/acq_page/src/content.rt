//! What is said to a request.

ghost use Rattle.std.specs.Prelude.{◌≡◌, IfOk};
ghost use Rattle.acq_page.specs.Answers.{IsPage};
ghost use Rattle.acq_page.specs.Pages.{page_of};
ghost use Rattle.acq_page.specs.declared.content_kind.ContentKind.TheVariants as kind;
ghost use Rattle.acq_page.specs.declared.status.Status.TheVariants as outcome;

use crate::content_kind::ContentKind;
use crate::piece::Piece;
use crate::spelling::spell;
use crate::status::Status;
use std::alloc::{AllocError, Global};

/// What is said to a request: how it fared, and what the reply's body is.
#[derive(Drop)]
pub(crate) struct Content {
    pub(crate) status: Status,
    pub(crate) kind: ContentKind,
    pub(crate) body: Vec<u8>,
}

impl Content {
    /// The page of these pieces.
    pub(crate) fn page(
        alloc: Global,
        status: Status,
        pieces: &[Piece<'_>],
    ) -> Result<Content, AllocError>
        ensures status { IfOk result (λ content. content.status ≡ status) }
        ensures kind { IfOk result (λ content. content.kind ≡ kind.Html) }
        ensures body { IfOk result (λ content. content.body.items ≡ page_of pieces.now) }
    {
        Ok(Content {
            status,
            kind: ContentKind::Html,
            body: spell(alloc, pieces)?,
        })
    }

    /// The metrics of a host.
    pub(crate) fn metrics(alloc: Global, metrics: &[u8]) -> Result<Content, AllocError>
        ensures status { IfOk result (λ content. content.status ≡ outcome.Done) }
        ensures kind { IfOk result (λ content. content.kind ≡ kind.Metrics) }
        ensures body { IfOk result (λ content. content.body.items ≡ metrics.now) }
    {
        Ok(Content {
            status: Status::Done,
            kind: ContentKind::Metrics,
            body: Vec::from_slice(alloc, metrics)?,
        })
    }
}
