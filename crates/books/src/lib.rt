// What a book of cards and links is, for whoever asks one and for whoever makes a new kind.
#![tactic(auto)]

mod reading;
mod refusal;
mod rules;
mod writing;

pub use reading::ReadingBook;
pub use refusal::Refusal;
pub use rules::{cards_suit, may_put, may_take};
pub use writing::WritingBook;
