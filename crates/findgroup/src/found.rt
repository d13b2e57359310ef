// The group that is found, and how its cards are shown.
ghost use Rattle.std.specs.Prelude.{◌≤◌, Ok, Some};
ghost use Rattle.search.specs.Answers.{Answered};
ghost use Rattle.findgroup.specs.Steps.{cards_text};

use books::ReadingBook;
use peel::Tolerance;
use search::{Group, search};
use std::fmt;

// What the search from all cards finds. No book has more than 1,024 cards, so the list has room for
// every group, and nothing is refused.
pub fn group_of<B: ReadingBook>(book: &B, tolerance: Tolerance, list: &mut [u16; 1024]) -> Group
    ensures answer { Answered (B.graph book.now) tolerance.p tolerance.q list.old (Ok result) list.new }
    ensures most { result.cards ≤ 1024 }
{
    search(book, tolerance, list).unwrap()
}

// Cards with one space between two.
#[derive(Drop)]
pub struct Cards<'a>(pub &'a [u16]);

impl fmt::Display for Cards<'_> {
    ghost output = { λ cards. Some (cards_text cards.0.now) };

    fn fmt<W: fmt::Write>(&self, f: &mut fmt::Formatter<W>) -> fmt::Result {
        if let Some((first, others)) = self.0.split_first() {
            write!(f, "{first}")?;
            for card in others {
                write!(f, " {card}")?;
            }
        }
        Ok(())
    }
}
