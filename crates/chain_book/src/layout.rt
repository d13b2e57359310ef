// Which memory suits a chain book, and how a new book lays it out.
ghost use Rattle.std.specs.Prelude.{◌≡◌, ◌<◌, ◌≤◌, ◌++◌, length, drop};
ghost use Rattle.std.specs.Result.{result_err};
ghost use Rattle.chain_book.specs.Layout.{suits, check_refusal, cards_made, records_made, new_next, laid, first_free};

use super::chain::END;
use super::record::Record;
use books::{Refusal, cards_suit};

// the most records that a chain book takes
const MOST_RECORDS: usize = 61_024;

// Whether a book of so many cards can stand on this memory: `Unsuitable` where the number of cards is
// not from 1 to 1,024, or there are fewer records than cards or more than 61,024. Reads no record. The bit book's
// `check` asks another rule, of bytes; one function over both would take the rule as a parameter, and be no plainer.
pub fn check(cards: u16, records: &[Record]) -> Result<(), Refusal>
    ensures { result_err result ≡ check_refusal cards (length records.now) }
{
    if suitable(cards, records.len()) {
        Ok(())
    } else {
        Err(Refusal::Unsuitable)
    }
}

// Whether a book of so many cards can stand on so many records. The two numbers are what a caller asks for, so they stay
// two until a `Layout` is made of them.
fn suitable(cards: u16, records: usize) -> bool
    ensures { result ≡ suits cards records }
{
    cards_suit(cards) && usize::from(cards) <= records && records <= MOST_RECORDS
}

// How a new book lays out its records: how many cards it has, and how many records it stands on.
#[derive(Clone, Copy)]
pub(crate) struct Layout {
    pub(crate) cards: u16,
    pub(crate) needed: u16,
}

impl Layout {
    // The layout for so many cards on so many records; one card on no record, where they do not suit.
    pub(crate) fn of(cards: u16, records: usize) -> Layout
        ensures cards { result.cards ≡ cards_made cards records }
        ensures needed { result.needed ≡ records_made cards records }
        ensures fits { result.needed ≤ records }
    {
        if !suitable(cards, records) {
            return Layout {
                cards: 1,
                needed: 0,
            };
        }
        let places = (records as u16 - cards) / 2;
        Layout {
            cards,
            needed: cards + 2 * places,
        }
    }

    // Makes the needed records, from the first on, those of a book without links, and leaves the others.
    pub(crate) fn lay_out(self, records: &mut [Record])
        requires { self.needed ≤ length records.old }
        ensures { records.new ≡ laid self.cards self.needed ++ drop self.needed records.old }
    {
        for (i, record) in records[..usize::from(self.needed)].iter_mut().enumerate() {
            *record = Record {
                partner: 0,
                next: self.next(i as u16),
            };
        }
    }

    // What comes after the record i: after a head and after the last record nothing, else the next one.
    fn next(self, i: u16) -> u16
        requires { i < self.needed }
        ensures { result ≡ new_next self.cards self.needed i }
    {
        if i < self.cards || i + 1 == self.needed {
            END
        } else {
            i + 1
        }
    }

    // The first free record.
    pub(crate) fn first_free(self) -> u16
        ensures { result ≡ first_free self.cards self.needed }
    {
        if self.cards < self.needed {
            self.cards
        } else {
            END
        }
    }
}
