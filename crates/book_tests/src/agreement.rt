// The chain book beside the bit book: the same steps on both, and every answer compared after each.
ghost use Rattle.std.specs.Prelude.{◌≤◌};
ghost use Rattle.std.specs.Iterator.{IsFinite};

use super::steps::{OLD, Step};
use bit_book::BitBook;
use books::{ReadingBook, Refusal, WritingBook};
use chain_book::ChainBook;
use dice::Dice;
use std::process::Abort;

// A chain book and a bit book that are given the same steps.
#[derive(Drop)]
struct Both<A, B> {
    chains: A,
    bits: B,
}

impl<A: WritingBook, B: WritingBook> Both<A, B> {
    // Whether both have the same cards and links, and give the same answers about every card, and about two numbers
    // that are none.
    fn agree(&self) -> bool {
        let numbers = self.chains.cards() + 2;
        self.chains.cards() == self.bits.cards()
            && self.chains.links() == self.bits.links()
            && (0..numbers).all(|u| (0..numbers).all(|v| self.agree_on(u, v)))
    }

    fn agree_on(&self, u: u16, v: u16) -> bool {
        self.chains.linked(u, v) == self.bits.linked(u, v)
            && self.chains.next_partner(u, v) == self.bits.next_partner(u, v)
    }

    // Does the step on both, and answers what came of it. They answer alike, but that the chain book may be full: then
    // it holds as many links as it has places, and the bit book is left as it is.
    fn step(&mut self, rt: &impl Abort, step: Step) -> Result<(), Refusal> {
        let answer = step.apply(&mut self.chains);
        if answer == Err(Refusal::Full) {
            assert_eq!(rt; self.chains.links(), self.chains.places());
        } else {
            assert_eq!(rt; step.apply(&mut self.bits), answer);
        }
        assert!(rt; self.agree());
        answer
    }

    // Does each of the steps on both, and answers how many were done.
    fn count_done<I: Iterator<Item = Step> + Drop>(&mut self, rt: &impl Abort, steps: I) -> u32
        requires can { I.can_next steps }
        requires ends { IsFinite (I.remaining steps) }
    {
        // by hand, since each step changes the books
        let mut count: u32 = 0;
        for step in steps {
            if self.step(rt, step).is_ok() {
                count = count.wrapping_add(1);
            }
        }
        count
    }

    // Puts every pair in, the lower card first, in ascending order, and answers how many were done.
    fn fill_up(&mut self, rt: &impl Abort) -> u32 {
        let n = self.chains.cards();
        // the numbers above u, without adding to u
        self.count_done(
            rt,
            (0..n).flat_map(move |u| (u..n).skip(1).map(move |v| Step::Put(u, v))),
        )
    }

    // The same in descending order, the higher card first.
    fn fill_down(&mut self, rt: &impl Abort) -> u32 {
        let n = self.chains.cards();
        self.count_done(
            rt,
            (0..n)
                .rev()
                .flat_map(|u| (0..u).rev().map(move |v| Step::Put(u, v))),
        )
    }

    // Takes every pair out, in ascending order.
    fn empty(&mut self, rt: &impl Abort) -> u32 {
        let n = self.chains.cards();
        self.count_done(
            rt,
            (0..n).flat_map(|u| (0..u).map(move |v| Step::Take(v, u))),
        )
    }

    // Does so many random steps on both.
    fn mix(&mut self, rt: &impl Abort, steps: u32, seed: u32) {
        let mut dice = Dice::new(seed);
        for _ in 0..steps {
            let step = random_step(dice.roll() >> 8, self.chains.cards());
            let _ = self.step(rt, step);
        }
    }

    // Fills the books, empties them, fills them again in the other order, takes out and puts in at random, and empties
    // them: the places that are left over at the end are all there.
    fn all_phases(&mut self, rt: &impl Abort, links: u32) {
        assert!(rt; self.agree());
        assert_eq!(rt; self.fill_up(rt), links);
        assert_eq!(rt; self.empty(rt), links);
        assert_eq!(rt; self.fill_down(rt), links);
        self.mix(rt, 500, 2026);
        let held = self.chains.links();
        assert_eq!(rt; self.empty(rt), held);
        assert_eq!(rt; self.fill_down(rt), links);
        assert_eq!(rt; self.chains.links(), links);
    }
}

// A step on two numbers up to the number of cards, which is no card itself. Of three steps two put.
fn random_step(roll: u32, cards: u16) -> Step {
    let numbers = u32::from(cards) + 1;
    let u = (roll % numbers) as u16;
    let v = ((roll >> 10) % numbers) as u16;
    if roll % 3 == 0 {
        Step::Take(u, v)
    } else {
        Step::Put(u, v)
    }
}

// All phases on books of so many cards, in so many records and so many bytes, where so many links have a place.
fn all_phases_on<const RECORDS: usize, const BYTES: usize>(rt: &impl Abort, cards: u16, links: u32)
    requires records { RECORDS ≤ 1000 }
    requires bytes { BYTES ≤ 1000 }
{
    let mut records = [OLD; RECORDS];
    let mut memory = [0xff; BYTES];
    let mut both = Both {
        chains: ChainBook::new(cards, &mut records),
        bits: BitBook::new(cards, &mut memory),
    };
    both.all_phases(rt, links);
}

// Ten pairs of five cards, and as many places.
#[test]
fn every_pair_has_a_place(rt: HostRuntime) {
    all_phases_on::<25, 2>(&rt, 5, 10);
}

// 28 pairs of eight cards, and (31 - 8) / 2 places.
#[test]
fn eleven_pairs_have_a_place(rt: HostRuntime) {
    all_phases_on::<31, 4>(&rt, 8, 11);
}

#[test]
fn one_pair_has_a_place(rt: HostRuntime) {
    all_phases_on::<13, 6>(&rt, 10, 1);
}

// More places than the 276 pairs of 24 cards.
#[test]
fn places_are_left_over(rt: HostRuntime) {
    all_phases_on::<1000, 35>(&rt, 24, 276);
}
