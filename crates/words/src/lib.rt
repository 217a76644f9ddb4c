// Words for people: a book of phrases, put into a lent buffer with their holes filled, and the phrases for document 01's numbers. Nothing here
// asks for room: what has none is not put.
#![tactic(auto)]

pub mod book; // book.rt: the phrases
pub mod fill; // fill.rt: a phrase with its holes filled
pub mod names; // names.rt: the phrases for refusals and codes
pub mod put; // put.rt: words, numbers and bytes
