//! What a host recalls of its book's tables, so that an event needs few looks at them.
//!
//! A [`RecallingBook`] stands in front of any other book. It keeps in memory what control events
//! alone change (merchants, terminals, ranges), how many requests were admitted and count, and
//! those that wait for their issuer's answer, each up to a bound; and how many terminals and ranges
//! there are. It asks the book for the rest.
#![tactic(auto)]

mod bounded_map;
mod collecting;
mod counts;
mod enrolled_counts;
mod known;
mod lenient;
mod recalling_book;
mod recollection;
mod waiting;

pub use lenient::Lenient;
pub use recalling_book::RecallingBook;
