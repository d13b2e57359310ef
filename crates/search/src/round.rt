// One round of a peel: from the set of the cards at level t or higher to the next.
ghost use Rattle.std.specs.Prelude.{◌≡◌, suc, ◌<◌};
ghost use Rattle.peel.specs.Lines.{line_of};
ghost use Rattle.peel.specs.Peels.{peel, peel_cards, LevelsUpTo};
ghost use Rattle.search.specs.Rows.{rows, rules_of};

use super::partners::partners_in;
use super::setting::Setting;
use books::ReadingBook;
use peel::Line;

// What a round met: the line that its set makes, and how many cards stay.
#[derive(Clone, Copy)]
pub(crate) struct Tally {
    pub line: Line,
    pub stayed: u16,
}

// Raises to t + 1 each card at level t whose partners at level t or higher are not below the line.
// A raised card is still at level t or higher, so the counts of the round do not change under way.
// Walks once over the partners of each card of the set.
pub(crate) fn round<B: ReadingBook>(
    book: &B,
    setting: Setting,
    t: u16,
    levels: &mut [u16; 1024],
) -> Tally
    requires few { t < 1024 }
    requires before { LevelsUpTo (rules_of (B.graph book.now) setting) t (rows levels.old) }
    ensures after { LevelsUpTo (rules_of (B.graph book.now) setting) (suc t) (rows levels.new) }
    ensures line { result.line ≡ line_of (B.graph book.now) (peel (rules_of (B.graph book.now) setting) t) }
    ensures stayed { result.stayed ≡ peel_cards (rules_of (B.graph book.now) setting) (suc t) }
{
    let n = book.cards();
    let mut cards: u16 = 0;
    let mut ends: u32 = 0;
    let mut stayed: u16 = 0;
    // By number: each card asks about the others' rows, and then its own may change.
    for u in 0..n {
        let row = usize::from(u);
        if levels[row] >= t {
            let partners = u32::from(partners_in(book, |v| levels[usize::from(v)] >= t, u));
            cards += 1;
            ends += partners;
            if !setting.line.below(setting.tolerance, partners) {
                levels[row] = t + 1;
                stayed += 1;
            }
        }
    }
    Tally {
        line: Line {
            links: ends / 2,
            cards,
        },
        stayed,
    }
}
