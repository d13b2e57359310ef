// The search from a set of cards: peel after peel, until no set of a peel reaches the line.
ghost use Rattle.std.specs.Prelude.{◌≡◌, ℕ, ◌<◌, nat_le};
ghost use Rattle.peel.specs.Tolerances.{Height};
ghost use Rattle.peel.specs.Lines.{line_of};
ghost use Rattle.peel.specs.Searches.{Search};
ghost use Rattle.peel.specs.Theorems.{Sound};
ghost use Rattle.search.specs.Rows.{rows, marked};
ghost use Rattle.search.specs.Outcomes.{outcome};

use super::partners::partners_in;
use super::peeling::{Peel, peel_book};
use super::searched::Searched;
use super::setting::Setting;
use books::ReadingBook;
use peel::{Line, Tolerance};

// The line that a set makes. Walks over the partners of each card of the set.
fn line_of<B: ReadingBook>(book: &B, set: &[bool; 1024]) -> Line
    ensures { result ≡ line_of (B.graph book.now) (marked set.now) }
{
    let n = book.cards();
    let is_in = |v: u16| set[usize::from(v)];
    let mut cards: u16 = 0;
    let mut ends: u32 = 0;
    // One pass, by hand: `count` beside `sum` would ask about each card twice. (A loop over `filter` gets no proof here, in a
    // function that is generic over books.)
    for u in 0..n {
        if is_in(u) {
            cards += 1;
            ends += u32::from(partners_in(book, is_in, u));
        }
    }
    Line {
        links: ends / 2,
        cards,
    }
}

// The set of the cards at a level or higher.
fn marks_at(levels: &[u16; 1024], level: u16) -> [bool; 1024]
    ensures { (v : ℕ) → v < 1024 → marked result v ≡ nat_le level (rows levels.now v) }
{
    // In place: `map` would copy the table, and take its rows out of it one by one.
    let mut marks = [false; 1024];
    for (v, l) in levels.iter().enumerate() {
        marks[v] = *l >= level;
    }
    marks
}

// The search from any set of cards, marked by their numbers. Each peel but the last makes the kept
// set denser, so there is at most one peel more than the cube of the number of cards. It is a rule of the project that
// the search is a loop which yields, by `break`, what it leaves.
pub fn search_from<B: ReadingBook>(book: &B, tolerance: Tolerance, start: [bool; 1024]) -> Searched
    ensures outcome { Search (B.graph book.now) tolerance.p tolerance.q result.height (marked start) (outcome result) }
    ensures height { Height tolerance.p tolerance.q (B.graph book.now).cards result.height }
    ensures sound { Sound (B.graph book.now) tolerance.p tolerance.q result.height (outcome result) }
{
    let height = tolerance.height(book.cards());
    let mut group = start;
    let mut line = line_of(book, &group);
    let mut peels: u32 = 0;
    'search: loop {
        let Peel { levels, best } = peel_book(
            book,
            Setting {
                tolerance,
                line,
                height,
            },
        );
        peels += 1;
        if !line.reached_by(tolerance, best.line) {
            break 'search Searched {
                kept: group,
                line,
                levels,
                height,
                peels,
            };
        }
        group = marks_at(&levels, best.level);
        line = best.line;
    }
}
