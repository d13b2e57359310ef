// Steps on a book and questions to it, in a form that a test can write down as a table.
use books::{ReadingBook, Refusal, WritingBook};
use chain_book::Record;
use std::process::Abort;

// What each record of the memory holds before there is a chain book.
pub(crate) const OLD: Record = Record {
    partner: 7777,
    next: 7777,
};

// In a book of four cards: a number that is no card comes before equal ends, and both before what the book holds.
pub(crate) const REFUSED_IN_ORDER: [(Step, Result<(), Refusal>); 7] = [
    (Step::Put(4, 4), Err(Refusal::NoSuchCard)),
    (Step::Put(0, 4), Err(Refusal::NoSuchCard)),
    (Step::Take(65535, 0), Err(Refusal::NoSuchCard)),
    (Step::Take(3, 3), Err(Refusal::SameCard)),
    (Step::Put(3, 3), Err(Refusal::SameCard)),
    (Step::Take(1, 3), Err(Refusal::LinkMissing)),
    (Step::Put(1, 3), Ok(())),
];

// Of ten cards, where 4 has the partners 2 and 9: questions from anywhere, and their answers.
pub(crate) const FROM_ANYWHERE: [(u16, u16, Option<u16>); 10] = [
    (4, 0, Some(2)),
    (4, 2, Some(2)),
    (4, 3, Some(9)),
    (4, 9, Some(9)),
    (4, 10, None),
    (4, 65535, None),
    (9, 0, Some(4)),
    (9, 5, None),
    (10, 0, None),
    (65535, 0, None),
];

// A step is data, not a closure: tests write steps down in tables, each beside what it comes to.
#[derive(Clone, Copy)]
pub(crate) enum Step {
    Put(u16, u16),
    Take(u16, u16),
}

impl Step {
    pub(crate) fn apply<B: WritingBook>(self, book: &mut B) -> Result<(), Refusal> {
        match self {
            Step::Put(u, v) => book.put(u, v),
            Step::Take(u, v) => book.take(u, v),
        }
    }
}

// Does each step, and sees that it comes to what stands beside it. (Elsewhere `steps` are an iterator, or how many.)
pub(crate) fn follow<B: WritingBook>(
    rt: &impl Abort,
    book: &mut B,
    steps: &[(Step, Result<(), Refusal>)],
) {
    for (step, outcome) in steps {
        assert_eq!(rt; step.apply(book), *outcome);
    }
}

// Asks for the next partner of the first number from the second on, and sees that it is what stands beside them.
pub(crate) fn ask<B: ReadingBook>(
    rt: &impl Abort,
    book: &B,
    questions: &[(u16, u16, Option<u16>)],
) {
    for (u, w, answer) in questions {
        assert_eq!(rt; book.next_partner(*u, *w), *answer);
    }
}

// Cards, links and places.
pub(crate) fn sizes<B: WritingBook>(book: &B) -> (u16, u32, u32) {
    (book.cards(), book.links(), book.places())
}
