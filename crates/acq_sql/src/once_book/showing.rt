//! What a request that is held back adds to what was looked up.

ghost use Rattle.std.specs.Prelude.{◌≡◌, ◌==◌, ◌&&◌, OnOk, Some, is_some, option_and_then};
ghost use Rattle.std.specs.Str.{bytes_eq};
ghost use Rattle.acq_message.specs.Elements.{or_empty};
ghost use Rattle.acq_message.specs.Numbers.{is_number};
ghost use Rattle.acq_core.specs.declared.change.Change.TheVariants as change;
ghost use Rattle.acq_core.specs.Known.{number_if, used_if};
ghost use Rattle.acq_core.specs.Tables.{Tables, after};
ghost use Rattle.acq_book.specs.Fits.{IsNew};
ghost use Rattle.acq_book.specs.Looked.{IsLooked};
ghost use Rattle.acq_book.specs.Lookups.{admitted_at, referred_at, request_at, used_at};
ghost use Rattle.acq_sql.specs.Holding.{CanRecord, with_held};

use acq_core::{
    AdmittedCount, Looked, MerchantId, Reference, Request, RequestKey, UsedCount, Wanted,
};
use day_totals::Day;
use std::alloc::{AllocError, Global};

/// Adds to what was looked up of the tables what a request adds that is held back.
pub(crate) fn show_held(
    alloc: Global,
    held: &Option<Request>,
    wanted: &Wanted,
    looked: &mut Looked,
) -> Result<(), AllocError>
    ensures { OnOk result ((t : Tables) → CanRecord held.now t
        → IsLooked t wanted.now looked.old
        → IsLooked (with_held held.now t) wanted.now looked.new) }
{
    match held {
        Some(request) => show_request(alloc, request, wanted, looked),
        None => Ok(()),
    }
}

/// Adds what one more request adds.
fn show_request(
    alloc: Global,
    request: &Request,
    wanted: &Wanted,
    looked: &mut Looked,
) -> Result<(), AllocError>
    ensures { OnOk result ((t : Tables) → IsNew t request.now → IsLooked t wanted.now looked.old
        → IsLooked (after t (change.AddRequest request.now)) wanted.now looked.new) }
{
    show_under_key(alloc, request, wanted.key, &mut looked.recorded)?;
    show_under_key(alloc, request, wanted.original, &mut looked.original)?;
    show_referred(
        alloc,
        request,
        wanted.merchant,
        wanted.reference,
        &mut looked.referred,
    )?;
    looked.admitted = admitted_with(request, wanted.merchant, wanted.admitted, looked.admitted);
    looked.used = used_with(request, wanted.merchant, wanted.used_day, looked.used);
    Ok(())
}

/// Puts the request in its place, if its key is wanted and none was found.
fn show_under_key(
    alloc: Global,
    request: &Request,
    key: Option<RequestKey>,
    place: &mut Option<Request>,
) -> Result<(), AllocError>
    ensures { OnOk result ((t : Tables) → place.old ≡ option_and_then (request_at t) key
        → place.new
        ≡ option_and_then (request_at (after t (change.AddRequest request.now))) key) }
{
    let Some(key) = key else {
        return Ok(());
    };
    if place.is_some() {
        return Ok(());
    }
    if !(key == request.key) {
        return Ok(());
    }
    put(place, request.copied(alloc)?);
    Ok(())
}

/// Puts the request in its place, if its merchant and reference are wanted and none was found.
fn show_referred(
    alloc: Global,
    request: &Request,
    merchant: Option<MerchantId>,
    reference: Option<Reference>,
    place: &mut Option<Request>,
) -> Result<(), AllocError>
    ensures { OnOk result ((t : Tables) → place.old
        ≡ option_and_then (referred_at t (or_empty merchant))
        (option_and_then (λ m. reference) merchant) → place.new
        ≡ option_and_then
        (referred_at (after t (change.AddRequest request.now)) (or_empty merchant))
        (option_and_then (λ m. reference) merchant)) }
{
    let (Some(merchant), Some(reference)) = (merchant, reference) else {
        return Ok(());
    };
    if place.is_some() {
        return Ok(());
    }
    if !is_referred(request, merchant, reference) {
        return Ok(());
    }
    put(place, request.copied(alloc)?);
    Ok(())
}

/// Whether a request is the merchant's with this reference.
fn is_referred(request: &Request, merchant: MerchantId, reference: Reference) -> bool
    ensures { result ≡ (bytes_eq request.now.key.merchant merchant
        && is_number reference request.now.reference) }
{
    request.key.merchant == merchant && has_reference(request, reference)
}

/// Whether a request has this reference.
fn has_reference(request: &Request, reference: Reference) -> bool
    ensures { result ≡ is_number reference request.now.reference }
{
    match request.reference {
        Some(own) => own == reference,
        None => false,
    }
}

/// Puts a request in its place. What stood there is let go in this one function.
fn put(place: &mut Option<Request>, request: Request)
    ensures { place.new ≡ Some request }
{
    *place = Some(request);
}

/// How many of the merchant's requests were admitted with this one, if they are counted.
fn admitted_with(
    request: &Request,
    merchant: Option<MerchantId>,
    is_wanted: bool,
    count: AdmittedCount,
) -> AdmittedCount
    ensures { (t : Tables) → IsNew t request.now
        → count ≡ number_if is_wanted (admitted_at t (or_empty merchant)) merchant → result
        ≡ number_if is_wanted
        (admitted_at (after t (change.AddRequest request.now)) (or_empty merchant)) merchant }
{
    let Some(merchant) = merchant else {
        return count;
    };
    if !is_wanted {
        return count;
    }
    if !is_admitted_of(request, merchant) {
        return count;
    }
    match AdmittedCount::from_number(count.number() + 1) {
        Some(more) => more,
        None => count,
    }
}

/// How many of the merchant's messages count on the day that is wanted, with this one.
fn used_with(
    request: &Request,
    merchant: Option<MerchantId>,
    day: Option<Day>,
    count: UsedCount,
) -> UsedCount
    ensures { (t : Tables) → IsNew t request.now
        → count ≡ used_if (used_at t (or_empty merchant)) (option_and_then (λ m. day) merchant)
        → result ≡ used_if (used_at (after t (change.AddRequest request.now)) (or_empty merchant))
        (option_and_then (λ m. day) merchant) }
{
    let (Some(merchant), Some(day)) = (merchant, day) else {
        return count;
    };
    if !counts_on(request, merchant, day) {
        return count;
    }
    match UsedCount::from_number(count.number() + 1) {
        Some(more) => more,
        None => count,
    }
}

/// Whether a request is one of the merchant's that were admitted.
fn is_admitted_of(request: &Request, merchant: MerchantId) -> bool
    ensures { result ≡ (bytes_eq request.now.key.merchant merchant
        && is_some request.now.reference) }
{
    request.key.merchant == merchant && request.reference.is_some()
}

/// Whether it is one of the merchant's that count on a day.
fn counts_on(request: &Request, merchant: MerchantId, day: Day) -> bool
    ensures { result ≡ (bytes_eq request.now.key.merchant merchant
        && (request.now.admitted && (request.now.day == day))) }
{
    request.key.merchant == merchant && request.admitted && request.day == day
}
