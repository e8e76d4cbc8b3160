//! What a repeat must have alike.

ghost use Rattle.std.specs.Prelude.{◌≡◌, IfOk};
ghost use Rattle.acq_message.specs.Elements.{essential, essence_of};

use crate::card::card_number_of;
use crate::message_text::MessageText;
use crate::reply::spelled;
use crate::service::Service;
use crate::with_content::with_content;
use iso_codec::Message;
use std::alloc::{AllocError, Global};

/// What a repeat must have alike: the spelling of a message of the request's kind with just its
/// card number, as element 2, and its essential elements (own profile).
pub fn essence_of(
    alloc: Global,
    service: Service,
    message: &Message,
) -> Result<MessageText, AllocError>
    ensures { IfOk result (λ text. text ≡ essence_of service message.now) }
{
    let [a, b, c] = service.digits();
    let selected = message.select(alloc, [a, b, c, b'0'], essential(service))?;
    let essence = match card_number_of(message) {
        Some(number) => with_content(selected, alloc, 2, number)?,
        None => selected,
    };
    spelled(alloc, &essence)
}

/// The elements that a repeat must have alike, beside the card number.
fn essential(service: Service) -> &'static [u8]
    ensures { result.now ≡ essential service }
{
    match service {
        Service::Reversal | Service::ReversalAdvice => {
            &[3, 4, 15, 37, 49, 74, 75, 76, 77, 86, 87, 88, 89, 90, 95, 97]
        }
        _ => &[3, 4, 15, 37, 49, 74, 75, 76, 77, 86, 87, 88, 89, 90, 97],
    }
}
