// The rules that books of every kind keep: how many cards there may be, and which changes are refused.
ghost use Rattle.std.specs.Prelude.{◌≡◌, Some, None, cond, ◌||◌, ◌==◌, nat_le};
ghost use Rattle.std.specs.Result.{result_err};
ghost use Rattle.books.specs.declared.refusal.Refusal.TheVariants.{NoSuchCard, SameCard};
ghost use Rattle.books.specs.Books.{cards_suit};
ghost use Rattle.books.specs.Refusals.{put_refusal, take_refusal};

use super::reading::ReadingBook;
use super::refusal::Refusal;

// Whether a book can have so many cards: from 1 to 1,024.
pub fn cards_suit(cards: u16) -> bool
    ensures { result ≡ cards_suit cards }
{
    (1..=1024).contains(&cards)
}

// Whether the link of u and v can be put into a book that has so many places. Asks at most for the number of
// cards, whether u and v are linked, and the number of links.
pub fn may_put<B: ReadingBook>(book: &B, places: u32, u: u16, v: u16) -> Result<(), Refusal>
    ensures { result_err result ≡ put_refusal (B.graph book.now) places u v }
{
    may_link(book.cards(), u, v)?;
    if book.linked(u, v) {
        return Err(Refusal::LinkHeld);
    }
    if book.links() == places {
        return Err(Refusal::Full);
    }
    Ok(())
}

// Whether the link of u and v can be taken out of a book. Asks at most for the number of cards, and whether u and v
// are linked.
pub fn may_take<B: ReadingBook>(book: &B, u: u16, v: u16) -> Result<(), Refusal>
    ensures { result_err result ≡ take_refusal (B.graph book.now) u v }
{
    may_link(book.cards(), u, v)?;
    if !book.linked(u, v) {
        return Err(Refusal::LinkMissing);
    }
    Ok(())
}

// Both numbers are of cards, and of two different ones.
fn may_link(cards: u16, u: u16, v: u16) -> Result<(), Refusal>
    ensures { result_err result ≡ cond (nat_le cards u || nat_le cards v) (Some NoSuchCard) (cond (u == v) (Some SameCard) None) }
{
    if u >= cards || v >= cards {
        return Err(Refusal::NoSuchCard);
    }
    if u == v {
        return Err(Refusal::SameCard);
    }
    Ok(())
}
