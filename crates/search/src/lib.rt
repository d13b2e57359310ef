// The search for a dense group of cards, on any book that can be read.
//
// No book has more than 1,024 cards, and it is a rule of the project that a library asks for no memory. So tables and
// sets are arrays of 1,024 rows, by number of card, and the group's cards go to the start of the caller's list.
#![tactic(auto)]

mod best;
mod found;
mod group;
mod partners;
mod peeling;
mod round;
mod searched;
mod searching;
mod setting;

pub use found::Group;
pub use group::search;
pub use searched::Searched;
pub use searching::search_from;
