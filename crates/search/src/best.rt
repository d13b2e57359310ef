// The densest set that a peel has met so far.
ghost use Rattle.std.specs.Prelude.{◌≡◌, ◌*◌, if◌then◌else◌, nat_lt};

use peel::Line;

// The set of the cards at a level or higher, with the line that it makes.
#[derive(Clone, Copy)]
pub(crate) struct BestSet {
    pub level: u16,
    pub line: Line,
}

impl BestSet {
    // The other set where it is denser, else this one: at a tie the first met stays.
    pub(crate) fn or_denser(self, other: BestSet) -> BestSet
        ensures { result ≡ (if nat_lt (self.line.links * other.line.cards) (other.line.links * self.line.cards) then other else self) }
    {
        let mine = u64::from(self.line.links) * u64::from(other.line.cards);
        let theirs = u64::from(other.line.links) * u64::from(self.line.cards);
        if mine < theirs { other } else { self }
    }
}
