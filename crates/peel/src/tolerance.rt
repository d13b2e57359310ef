// A tolerance p/q: how much a set may fall short before it counts.
ghost use Rattle.std.specs.Prelude.{◌≡◌, ℕ, ◌≤◌, IfOk};
ghost use Rattle.std.specs.Result.{result_err};
ghost use Rattle.peel.specs.Tolerances.{tolerance_refusal, Height};

use books::Refusal;

// Not reduced: 1/2 and 2/4 are two tolerances.
#[derive(Clone, Copy)]
pub struct Tolerance {
    p: u16,
    q: u16,
    ghost least: { 1 ≤ p },
    ghost order: { p ≤ q },
    ghost most: { q ≤ 100 },
}

impl Tolerance {
    // Refuses unless 1 ≤ p ≤ q ≤ 100.
    pub fn new(p: u16, q: u16) -> Result<Tolerance, Refusal>
        ensures answer { result_err result ≡ tolerance_refusal p q }
        ensures value { IfOk result (λ t. (t.p ≡ p) × (t.q ≡ q)) }
    {
        if 1 <= p && p <= q && q <= 100 {
            Ok(Tolerance { p, q })
        } else {
            Err(Refusal::BadTolerance)
        }
    }

    pub fn p(self) -> u16
        ensures { result ≡ self.p }
    {
        self.p
    }

    pub fn q(self) -> u16
        ensures { result ≡ self.q }
    {
        self.q
    }

    // How often the number of cards is replaced by the next one until 0 stands. So many turns, which are the answer:
    // an iterator over the numbers, counted, would be no plainer.
    pub fn height(self, cards: u16) -> u16
        ensures is { Height self.p self.q cards result }
        ensures only { (k : ℕ) → Height self.p self.q cards k → k ≡ result }
        ensures most { result ≤ cards }
    {
        let p = u32::from(self.p);
        let q = u32::from(self.q);
        let mut left = u32::from(cards);
        let mut turns: u16 = 0;
        while left > 0 {
            left = (left * q - 1) / (q + p);
            turns += 1;
        }
        turns
    }
}
