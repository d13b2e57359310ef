// How many partners of a card are in a set.
ghost use Rattle.std.specs.Prelude.{◌≡◌, ℕ, ◌<◌};
ghost use Rattle.peel.specs.Sets.{Cards, partners_in};
ghost use Rattle.search.specs.Rows.{Tells};

use books::ReadingBook;

// Walks once over the partners of u, and asks `is_in` about each. It is a rule of the project that a walk takes the
// answers of `next_partner` apart until there is none.
//
// A call of its own when it runs: as a part of a whole search the walk kept too little in registers, and in a bit book took
// up to half as long again.
#[inline(never)]
pub(crate) fn partners_in<B: ReadingBook, F: Fn(u16) -> bool>(book: &B, is_in: F, u: u16) -> u16
    requires { (v : ℕ) → v < (B.graph book.now).cards → F.pre is_in v }
    ensures { (X : Cards) → Tells (B.graph book.now) (F.post is_in) X → result ≡ partners_in (B.graph book.now) X u }
{
    let mut found: u16 = 0;
    let mut from: u16 = 0;
    while let Some(v) = book.next_partner(u, from) {
        if is_in(v) {
            found += 1;
        }
        from = v + 1;
    }
    found
}
