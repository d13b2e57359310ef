// The closed book: a book that only reads, on a list of links that someone else keeps.
#![tactic(auto)]

mod book;
mod list;

pub use book::ClosedBook;
pub use list::check;
