// The search by itself: from all cards, on any book that can be read.
ghost use Rattle.std.specs.Prelude.{◌≡◌, ◌<◌, ◌≤◌, ◌++◌, length, drop, IfOk};
ghost use Rattle.books.specs.Sums.{sum_to, one};
ghost use Rattle.peel.specs.Sets.{listed};
ghost use Rattle.peel.specs.Theorems.{NoneDenser};
ghost use Rattle.search.specs.Rows.{marked};
ghost use Rattle.search.specs.Answers.{Answered};

use super::found::Group;
use super::searched::Searched;
use super::searching::search_from;
use books::{ReadingBook, Refusal};
use peel::Tolerance;

// Writes the marked numbers below n in ascending order at the start of the list.
fn write_cards(marks: &[bool; 1024], n: u16, list: &mut [u16])
    requires few { n ≤ 1024 }
    requires room { sum_to (λ v. one (marked marks.now v)) n ≤ length list.old }
    ensures { list.new ≡ listed (marked marks.now) n ++ drop (sum_to (λ v. one (marked marks.now v)) n) list.old }
{
    // By place: of what is written through a `zip` over `iter_mut` a proof knows nothing afterwards.
    for (at, v) in (0..n).filter(|v| marks[usize::from(*v)]).enumerate() {
        list[at] = v;
    }
}

// The group that the search leaves: its cards in ascending order at the start of the list, later
// places untouched, and its counts. Refuses where the list is too short, and then changes nothing.
pub fn search<B: ReadingBook>(
    book: &B,
    tolerance: Tolerance,
    list: &mut [u16],
) -> Result<Group, Refusal>
    ensures answer { Answered (B.graph book.now) tolerance.p tolerance.q list.old result list.new }
    ensures bound { IfOk result (λ f. NoneDenser (B.graph book.now) tolerance.p tolerance.q f.links f.cards) }
    ensures some { IfOk result (λ f. 0 < f.cards) }
{
    let n = book.cards();
    let Searched {
        kept,
        line,
        peels,
        ..
    } = search_from(book, tolerance, [true; 1024]);
    if list.len() < usize::from(line.cards) {
        return Err(Refusal::ListTooShort);
    }
    write_cards(&kept, n, list);
    Ok(Group {
        cards: line.cards,
        links: line.links,
        peels,
    })
}
