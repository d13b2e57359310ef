// The chain book itself: its making, its questions and its changes.
ghost use Rattle.std.specs.Prelude.{◌≡◌, ℕ, ◌-◌, ◌≤◌, false, ◌++◌, length, take, drop};
ghost use Rattle.std.specs.List.{range_with_len};
ghost use Rattle.std.specs.Result.{result_err};
ghost use Rattle.books.specs.Graphs.{link_count, with_link, without_link};
ghost use Rattle.books.specs.Refusals.{put_refusal, take_refusal, unless_refused};
ghost use Rattle.chain_book.specs.Layout.{cards_made, records_made, places_made, laid};
ghost use Rattle.chain_book.specs.Order.{Sound};
ghost use Rattle.chain_book.specs.Steps.{put_in, taken_out};
ghost use Rattle.chain_book.specs.Once.{sound_once};

use super::chain::{insert, partner_from, remove};
use super::layout::Layout;
use super::record::Record;
use books::{ReadingBook, Refusal, WritingBook, may_put, may_take};

#[derive(Drop)]
pub struct ChainBook<'a> {
    cards: u16,
    // how many links there are: kept, so that no question counts records
    links: u32,
    // the first free record, or the mark at the end of a chain
    free: u16,
    // how many records are the book's own: its heads, and two for each place
    needed: u16,
    // all the memory that was lent
    records: &'a mut [Record],
    ghost fits: { needed ≤ length records.now },
    // heads, chains and free records are in order
    ghost sound: { Sound cards (take needed records.now) free links } by { sound_once },
}

impl<'a> ChainBook<'a> {
    // in the impls, since these definitions name the struct
    ghost use Rattle.chain_book.specs.Book.{graph_of, room_of, free_of};

    // A book of so many cards and no link, on the records lent. It writes the records that it needs, and
    // never touches one past them. The needed ones after the heads are free, the lowest first. Where `check`
    // refuses, it is a book of one card, which stands on no record and has no place, so that nothing is touched.
    pub fn new(cards: u16, records: &'a mut [Record]) -> ChainBook<'a>
        ensures cards { result.cards ≡ cards_made cards (length records.old) }
        ensures needed { result.needed ≡ records_made cards (length records.old) }
        ensures places { room_of result ≡ places_made cards (length records.old) }
        ensures none { (u v : ℕ) → (graph_of result).linked u v ≡ false }
        ensures links { link_count (graph_of result) ≡ 0 }
        ensures records { result.records.now ≡ laid result.cards result.needed ++ drop result.needed records.old }
        ensures free { free_of result ≡ range_with_len result.cards (result.needed - result.cards) }
        ensures lent { result.records.ghost_name ≡ records.entry.ghost_name }
    {
        let layout = Layout::of(cards, records.len());
        layout.lay_out(records);
        ChainBook {
            cards: layout.cards,
            links: 0,
            free: layout.first_free(),
            needed: layout.needed,
            records,
        }
    }
}

impl ReadingBook for ChainBook<'_> {
    ghost use Rattle.chain_book.specs.Book.{graph_of};
    ghost use Rattle.chain_book.specs.Laws.{chain_sound};

    ghost graph = { graph_of };

    ghost sound = { chain_sound };

    fn cards(&self) -> u16 {
        self.cards
    }

    fn links(&self) -> u32 {
        self.links
    }

    // v is a partner of u where it is the lowest one from v on.
    fn linked(&self, u: u16, v: u16) -> bool {
        self.next_partner(u, v) == Some(v)
    }

    // Walks u's chain, up to the answer.
    fn next_partner(&self, u: u16, w: u16) -> Option<u16> {
        // a book that stands on no record has no head to start from
        if u >= self.cards || self.needed == 0 {
            return None;
        }
        // widened by `as` here and below, as in `chain.rt`: the check then sees the number
        partner_from(&self.records[..self.needed as usize], u, w)
    }
}

impl WritingBook for ChainBook<'_> {
    ghost use Rattle.chain_book.specs.Book.{own, past, graph_of, room_of, free_of};

    ghost room = { room_of };

    fn places(&self) -> u32 {
        let after_heads = self.needed.saturating_sub(self.cards);
        u32::from(after_heads / 2)
    }

    // The first two free records are used, the first of them for u's chain. No other record holds another partner
    // than before, and none past the needed ones is touched. Where it refuses, every record stays as it was.
    // Costs the question whether they are linked, and two walks.
    fn put(&mut self, u: u16, v: u16) -> Result<(), Refusal>
        ensures answer { result_err result ≡ put_refusal (graph_of self.old) (room_of self.old) u v }
        ensures links { graph_of self.new ≡ unless_refused (result_err result) (graph_of self.old) (with_link (graph_of self.old) u v) }
        ensures places { room_of self.new ≡ room_of self.old }
        ensures needed { self.new.needed ≡ self.old.needed }
        ensures records { self.new.records.now ≡ unless_refused (result_err result) self.old.records.now (put_in (own self.old) self.old.free u v ++ past self.old) }
        ensures free { free_of self.new ≡ unless_refused (result_err result) (free_of self.old) (drop 2 (free_of self.old)) }
        ensures lent { self.new.records.ghost_name ≡ self.old.records.ghost_name }
    {
        may_put(self, self.places(), u, v)?;
        let own = &mut self.records[..self.needed as usize];
        insert(own, &mut self.free, u, v);
        insert(own, &mut self.free, v, u);
        self.links += 1;
        Ok(())
    }

    // The two records that are freed are the first to be used again. No record holds another partner than before, and
    // none past the needed ones is touched. Where it refuses, every record stays as it was.
    // Costs the question whether they are linked, and two walks.
    fn take(&mut self, u: u16, v: u16) -> Result<(), Refusal>
        ensures answer { result_err result ≡ take_refusal (graph_of self.old) u v }
        ensures links { graph_of self.new ≡ unless_refused (result_err result) (graph_of self.old) (without_link (graph_of self.old) u v) }
        ensures places { room_of self.new ≡ room_of self.old }
        ensures needed { self.new.needed ≡ self.old.needed }
        ensures records { self.new.records.now ≡ unless_refused (result_err result) self.old.records.now (taken_out (own self.old) self.old.free u v ++ past self.old) }
        ensures free { unless_refused (result_err result) (free_of self.new) (drop 2 (free_of self.new)) ≡ free_of self.old }
        ensures lent { self.new.records.ghost_name ≡ self.old.records.ghost_name }
    {
        may_take(self, u, v)?;
        let own = &mut self.records[..self.needed as usize];
        remove(own, &mut self.free, u, v);
        remove(own, &mut self.free, v, u);
        self.links -= 1;
        Ok(())
    }
}
