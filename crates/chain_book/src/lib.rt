// A writing book that keeps its links in chains of records, in memory that its caller lends.
//
// The first n records are the heads of the n cards. On each head hangs the chain of that card's partners, in
// ascending order, a record for each; a link takes two records, one in the chain of each end. The records that are
// free are chained too, and wait to be used. So the memory grows with the links, and not with the pairs of cards.
// Two for each place are needed beside the heads, and a record past the needed ones is never touched.
//
// Making a book writes each needed record once. A question about a card walks along its chain, at most to the end.
// A put or a take walks so along the chain of the card that is named first twice, the first time to see whether the
// link is held, and along the other's once. What is asked for in number is kept, not counted.
#![tactic(auto)]

mod book;
mod chain;
mod layout;
mod record;

pub use book::ChainBook;
pub use layout::check;
pub use record::Record;
