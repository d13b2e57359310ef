// A writing book that keeps its links as bits, in memory that its caller lends.
//
// The pair u < v is bit v(v - 1)/2 + u, the lowest bit of each byte first, so n cards need a bit for
// each of their n(n - 1)/2 pairs, and that is also how many places there are.
//
// Making a book clears the bytes that it needs. Every other call takes the same short time in a book of
// any size, but for `next_partner`, which reads at most one bit for each card.
#![tactic(auto)]

mod book;
mod layout;

pub use book::{BitBook, check};
