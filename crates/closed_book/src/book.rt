// A reading book on a borrowed list of links, which it never changes.
// `new` reads the list once; `cards` and `links` read none of it; `linked` halves the list, so it
// reads at most 20 pairs; `next_partner` asks `linked` of each card from w on, up to its answer.
ghost use Rattle.std.specs.Prelude.{◌≡◌, true, []};
ghost use Rattle.std.specs.Simd.{first_chunks};
ghost use Rattle.books.specs.Refusals.{unless_refused};
ghost use Rattle.closed_book.specs.Lists.{pair_count, suits, list_refusal};
ghost use Rattle.closed_book.specs.Meaning.{closed_graph, closed_sound};

use super::list::check;
use books::ReadingBook;

#[derive(Drop)]
pub struct ClosedBook<'a> {
    cards: u16,
    list: &'a [u16],
    ghost ok: { suits cards list.now ≡ true },
}

impl<'a> ClosedBook<'a> {
    // The book of so many cards whose links are those of the list. It cannot refuse: where `check`
    // would, it is a book of one card with no link.
    pub fn new(cards: u16, list: &'a [u16]) -> ClosedBook<'a>
        ensures cards { result.cards ≡ unless_refused (list_refusal cards list.now) 1 cards }
        ensures links { result.list.now ≡ unless_refused (list_refusal cards list.now) [] list.now }
    {
        if check(cards, list).is_ok() {
            ClosedBook { cards, list }
        } else {
            ClosedBook {
                cards: 1,
                list: &[],
            }
        }
    }

    // The links, each as its two cards, the lower first.
    fn pairs(&self) -> &[[u16; 2]]
        ensures { result.now ≡ first_chunks 2 (pair_count self.now.list.now) self.now.list.now }
    {
        self.list.as_chunks().0
    }
}

impl ReadingBook for ClosedBook<'_> {
    ghost graph = { λ b. closed_graph b.cards b.list.now };

    ghost sound = { λ b. closed_sound b.cards b.list.now b.ok };

    fn cards(&self) -> u16 {
        self.cards
    }

    fn links(&self) -> u32 {
        self.pairs().len() as u32
    }

    fn linked(&self, u: u16, v: u16) -> bool {
        self.pairs().binary_search(&[u.min(v), u.max(v)]).is_ok()
    }
}
