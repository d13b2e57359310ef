// The bit book itself: its making, its questions and its changes.
ghost use Rattle.std.specs.Prelude.{◌≡◌, ℕ, ◌*◌, ◌<◌, ◌≤◌, ◌≢◌, false, length, Err};
ghost use Rattle.std.specs.Result.{result_err};
ghost use Rattle.books.specs.declared.refusal.Refusal.TheVariants.{Full};
ghost use Rattle.books.specs.Graphs.{link_count, with_link, without_link};
ghost use Rattle.books.specs.Refusals.{put_refusal, take_refusal, unless_refused};
ghost use Rattle.bit_book.specs.Layout.{pairs, bit_of, needed, cards_made, bit_at, cleared, turned};
ghost use Rattle.bit_book.specs.Meaning.{bit_graph, bit_linked, check_refusal};
ghost use Rattle.bit_book.specs.Laws.{bit_sound};

use super::layout::{bytes_for, cards_for, clear, is_set, pair_bit, suitable, turn};
use books::{ReadingBook, Refusal, WritingBook, may_put, may_take};

#[derive(Drop)]
pub struct BitBook<'a> {
    cards: u16,
    // how many links there are: kept, so that no question counts bits
    links: u32,
    memory: &'a mut [u8],
    ghost least: { 1 ≤ cards },
    ghost most: { cards ≤ 1024 },
    ghost fits: { needed cards ≤ length memory.now },
    ghost tally: { links ≡ link_count (bit_graph cards memory.now) },
    // the bits of the last byte that belong to no pair are 0
    ghost padding: { (k : ℕ) → pairs cards ≤ k → k < 8 * needed cards → bit_at memory.now k ≡ false },
}

// Whether a book of so many cards can stand on this memory: `Unsuitable` where the number of cards is
// not from 1 to 1,024, or the memory is too short to have a bit for each pair of them. The chain book's `check` asks
// another rule, of records; one function over both would take the rule as a parameter, and be no plainer.
pub fn check(cards: u16, memory: &[u8]) -> Result<(), Refusal>
    ensures { result_err result ≡ check_refusal cards (length memory.now) }
{
    if suitable(cards, memory.len()) {
        Ok(())
    } else {
        Err(Refusal::Unsuitable)
    }
}

impl<'a> BitBook<'a> {
    // A book of so many cards and no link, in the memory lent. It clears the bytes that it needs, and
    // never touches one past them. Where `check` refuses, it is a book of one card, which has no
    // place and needs no byte, so that nothing is touched.
    pub fn new(cards: u16, memory: &'a mut [u8]) -> BitBook<'a>
        ensures cards { result.cards ≡ cards_made cards (length memory.old) }
        ensures none { (u v : ℕ) → bit_linked result.cards result.memory.now u v ≡ false }
        ensures links { link_count (bit_graph result.cards result.memory.now) ≡ 0 }
        ensures memory { result.memory.now ≡ cleared (needed result.cards) memory.old }
        ensures lent { result.memory.ghost_name ≡ memory.entry.ghost_name }
    {
        let cards = cards_for(cards, memory.len());
        clear(memory, bytes_for(cards));
        BitBook {
            cards,
            links: 0,
            memory,
        }
    }
}

impl ReadingBook for BitBook<'_> {
    ghost graph = { λ b. bit_graph b.cards b.memory.now };

    ghost sound = { λ b. bit_sound b.cards b.memory.now b.least b.most };

    fn cards(&self) -> u16 {
        self.cards
    }

    fn links(&self) -> u32 {
        self.links
    }

    fn linked(&self, u: u16, v: u16) -> bool {
        if u == v || u >= self.cards || v >= self.cards {
            return false;
        }
        is_set(self.memory, pair_bit(u, v))
    }
}

impl WritingBook for BitBook<'_> {
    ghost room = { λ b. pairs b.cards };

    fn places(&self) -> u32 {
        let n = u32::from(self.cards);
        n * (n - 1) / 2
    }

    // Of the memory, only the bit of the pair changes, and nothing where it refuses. A pair that is not linked leaves
    // a place, so it is never refused for want of one.
    fn put(&mut self, u: u16, v: u16) -> Result<(), Refusal>
        ensures answer { result_err result ≡ put_refusal (bit_graph self.old.cards self.old.memory.now) (pairs self.old.cards) u v }
        ensures room { result ≢ Err Full }
        ensures links { bit_graph self.new.cards self.new.memory.now ≡ unless_refused (result_err result) (bit_graph self.old.cards self.old.memory.now) (with_link (bit_graph self.old.cards self.old.memory.now) u v) }
        ensures places { pairs self.new.cards ≡ pairs self.old.cards }
        ensures memory { self.new.memory.now ≡ unless_refused (result_err result) self.old.memory.now (turned self.old.memory.now (bit_of u v)) }
        ensures lent { self.new.memory.ghost_name ≡ self.old.memory.ghost_name }
    {
        may_put(self, self.places(), u, v)?;
        turn(self.memory, pair_bit(u, v));
        self.links += 1;
        Ok(())
    }

    // Of the memory, only the bit of the pair changes, and nothing where it refuses.
    fn take(&mut self, u: u16, v: u16) -> Result<(), Refusal>
        ensures answer { result_err result ≡ take_refusal (bit_graph self.old.cards self.old.memory.now) u v }
        ensures links { bit_graph self.new.cards self.new.memory.now ≡ unless_refused (result_err result) (bit_graph self.old.cards self.old.memory.now) (without_link (bit_graph self.old.cards self.old.memory.now) u v) }
        ensures places { pairs self.new.cards ≡ pairs self.old.cards }
        ensures memory { self.new.memory.now ≡ unless_refused (result_err result) self.old.memory.now (turned self.old.memory.now (bit_of u v)) }
        ensures lent { self.new.memory.ghost_name ≡ self.old.memory.ghost_name }
    {
        may_take(self, u, v)?;
        turn(self.memory, pair_bit(u, v));
        self.links -= 1;
        Ok(())
    }
}
