// A line: the links and the cards of the set that made it. Counts of partners and sets are held against it.
ghost use Rattle.std.specs.Prelude.{◌≡◌};
ghost use Rattle.peel.specs.Lines.{below as is_below, reaches};

use super::tolerance::Tolerance;

#[derive(Clone, Copy, PartialEq, Eq, Debug)]
pub struct Line {
    pub links: u32,
    pub cards: u16,
}

impl Line {
    // Whether so many partners are below the line. Nothing is divided, so nothing is rounded.
    pub fn below(self, tolerance: Tolerance, partners: u32) -> bool
        ensures { result ≡ is_below tolerance.p tolerance.q self partners }
    {
        if self.links == 0 {
            return partners == 0;
        }
        let q = u64::from(tolerance.q());
        let sum = q + u64::from(tolerance.p());
        u64::from(partners) * u64::from(self.cards) * (q * q)
            < 2 * (sum * sum) * u64::from(self.links)
    }

    // Whether a set of so many links and cards as `set` has reaches the line.
    pub fn reached_by(self, tolerance: Tolerance, set: Line) -> bool
        ensures { result ≡ reaches tolerance.p tolerance.q self set.links set.cards }
    {
        if self.links == 0 {
            return set.links > 0;
        }
        let q = u64::from(tolerance.q());
        let sum = q + u64::from(tolerance.p());
        u64::from(set.links) * u64::from(self.cards) * q
            >= sum * u64::from(self.links) * u64::from(set.cards)
    }
}
