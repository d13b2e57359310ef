// A whole peel, round by round, with the best of its sets.
ghost use Rattle.std.specs.Prelude.{◌≡◌, ℕ, ◌<◌, ◌≤◌, if◌then◌else◌, nat_lt};
ghost use Rattle.peel.specs.Lines.{line_of};
ghost use Rattle.peel.specs.Peels.{peel, PeelLevels, Best};
ghost use Rattle.search.specs.Rows.{rows, rules_of};

use super::best::BestSet;
use super::round::round;
use super::setting::Setting;
use books::ReadingBook;
use peel::Line;

// Lifts every row above `level` to `height`.
fn lift(levels: &mut [u16; 1024], level: u16, height: u16)
    ensures { (v : ℕ) → v < 1024 → rows levels.new v ≡ (if nat_lt level (rows levels.old v) then height else rows levels.old v) }
{
    for l in levels.iter_mut() {
        if *l > level {
            *l = height;
        }
    }
}

// What a peel leaves: the levels, and the best of its sets.
#[derive(Clone, Copy)]
pub(crate) struct Peel {
    pub levels: [u16; 1024],
    pub best: BestSet,
}

// The peel stops as soon as no card is left, or none is dropped. Each round walks over the partners
// of the cards still in.
pub(crate) fn peel_book<B: ReadingBook>(book: &B, setting: Setting) -> Peel
    requires least { 1 ≤ setting.height }
    requires most { setting.height ≤ 1024 }
    ensures levels { PeelLevels (rules_of (B.graph book.now) setting) (rows result.levels) }
    ensures best { Best (rules_of (B.graph book.now) setting) result.best.level }
    ensures line { result.best.line ≡ line_of (B.graph book.now) (peel (rules_of (B.graph book.now) setting) result.best.level) }
{
    let mut levels = [0; 1024];
    let mut best = BestSet {
        level: 0,
        line: Line {
            links: book.links(),
            cards: book.cards(),
        },
    };
    for t in 0..setting.height {
        let tally = round(book, setting, t, &mut levels);
        best = best.or_denser(BestSet {
            level: t,
            line: tally.line,
        });
        if tally.stayed == 0 {
            break;
        }
        if tally.stayed == tally.line.cards {
            lift(&mut levels, t, setting.height);
            break;
        }
    }
    Peel { levels, best }
}
