//! What became of a merchant's requests: of those with a reference, with a trace number, or of a
//! card whose last digits are known, and of those that share a reference with them, as a sale's
//! reversal or a hold's completion does.
//!
//! [`write_inquiry`] finds them in two walks over the requests, one for the references and one for
//! the places, goes once over the postings of their days, and writes a few lines of each: what it
//! was, its reply, where it stands, and what it posted. The text is defined over the tables in
//! `specs/InquiryTexts.antt`. No card number is in it, but for its mask.
//!
//! A [`Search`] comes to the same text slice by slice, while events are taken between the slices.
#![tactic(auto)]

mod asked_words;
mod inquiry;
mod inquiry_text;
mod keeping;
mod kept_postings;
pub mod laws;
mod line_parts;
mod looking;
mod posted_day;
mod posting_lines;
mod reply_words;
mod request_lines;
mod rows_at;
mod search;
mod seeing;
mod standing_line;
mod writing;

pub use inquiry::Inquiry;
pub use search::{MOST_TOLD, Search};
pub use writing::write_inquiry;
