// Why a call refuses its input. Every layer answers with this one type.
ghost use Rattle.std.specs.Prelude.{◌≡◌, Some};
ghost use Rattle.books.specs.Refusals.{refusal_number, refusal_words};

use std::error::Error;
use std::fmt;

#[derive(Clone, Copy, PartialEq, Eq, Debug)]
pub enum Refusal {
    // a card number is not below the number of cards
    NoSuchCard = 1,
    // both ends are one card
    SameCard = 2,
    // a tolerance p/q without 1 ≤ p ≤ q ≤ 100
    BadTolerance = 6,
    // the number of cards, or the memory, does not suit the book
    Unsuitable = 7,
    // a list of links that is not in order, or names a card that is not there
    BadList = 8,
    // the link is held already
    LinkHeld = 11,
    // the link is not held
    LinkMissing = 12,
    // every place is taken
    Full = 13,
    // the list has fewer places than the group has cards
    ListTooShort = 14,
}

impl Refusal {
    // The number by which documents and reports know the refusal. As a conversion, `u8::from`, it would not say so.
    pub fn number(self) -> u8
        ensures { result ≡ refusal_number self }
    {
        self as u8
    }

    // What it means, in words.
    pub fn words(self) -> &'static str
        ensures { result.now ≡ refusal_words self }
    {
        match self {
            Refusal::NoSuchCard => "a card number is not below the number of cards",
            Refusal::SameCard => "both ends are one card",
            Refusal::BadTolerance => "a tolerance p/q needs 1 <= p <= q <= 100",
            Refusal::Unsuitable =>
                "the number of cards is not from 1 to 1024, or the memory is too short",
            Refusal::BadList =>
                "a list of links is not in order, or names a card that is not there",
            Refusal::LinkHeld => "the link is held already",
            Refusal::LinkMissing => "the link is not held",
            Refusal::Full => "every place is taken",
            Refusal::ListTooShort => "the list has fewer places than the group has cards",
        }
    }
}

// Shown in words.
impl fmt::Display for Refusal {
    ghost output = { λ refusal. Some (refusal_words refusal) };

    fn fmt<W: fmt::Write>(&self, f: &mut fmt::Formatter<W>) -> fmt::Result {
        f.write_str(self.words())
    }
}

impl Error for Refusal {}
