// Numbers that look random and are the same in every run: what tests and cases are made of.
#![tactic(auto)]

ghost use Rattle.std.specs.Prelude.{◌≡◌};
ghost use Rattle.dice.specs.Rolls.{next_state};

// A linear congruential generator. The lower bits of a roll repeat soon.
#[derive(Clone, Copy, PartialEq, Eq, Debug)]
pub struct Dice {
    state: u32,
}

impl Dice {
    pub fn new(seed: u32) -> Dice
        ensures { result.state ≡ seed }
    {
        Dice { state: seed }
    }

    // The next roll, of 32 bits.
    pub fn roll(&mut self) -> u32
        ensures roll { result ≡ next_state self.old.state }
        ensures state { self.new.state ≡ result }
    {
        self.state = self
            .state
            .wrapping_mul(1_664_525)
            .wrapping_add(1_013_904_223);
        self.state
    }
}
