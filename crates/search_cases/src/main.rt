// Searches many graphs and prints a line for each search. What it must print is in `stdout`, which
// `reference.py` computes on its own from the rules.
#![tactic(auto)]

mod shape;

use bit_book::BitBook;
use books::{ReadingBook, WritingBook};
use dice::Dice;
use peel::Tolerance;
use search::search;
use shape::Shape;
use std::io;

const SIZES: [u16; 12] = [1, 2, 3, 5, 8, 10, 17, 25, 40, 100, 150, 300];

const SHAPES: [Shape; 10] = [
    Shape::Empty,
    Shape::Full,
    Shape::Sparse,
    Shape::Dense,
    Shape::Lone,
    Shape::Planted,
    Shape::Blocks,
    Shape::Nested,
    Shape::Tail,
    Shape::Wedge,
];

const TOLERANCES: [(u16, u16); 7] = [
    (1, 1),
    (1, 2),
    (2, 4),
    (1, 10),
    (1, 100),
    (37, 100),
    (100, 100),
];

// A group of more cards is shown by a number made of them.
const SHOWN: usize = 12;

fn main(rt: HostRuntime) -> io::Result<()> {
    for n in SIZES {
        for shape in SHAPES {
            search_shape(&rt, n, shape)?;
        }
    }
    search_shape(&rt, 1024, Shape::Planted)
}

// Makes the graph, and searches it at each tolerance. Memory and list are fixed, so that no case can run out.
fn search_shape(rt: &HostRuntime, n: u16, shape: Shape) -> io::Result<()> {
    let mut memory = [0; 65472];
    let mut book = BitBook::new(n, &mut memory);
    link(&mut book, shape);
    for (p, q) in TOLERANCES {
        search_at(rt, &book, shape, p, q)?;
    }
    Ok(())
}

// Puts the links of the shape in, with a roll for each pair in ascending order. In an iterator of links the rolls would
// hide in a closure.
fn link<B: WritingBook>(book: &mut B, shape: Shape) {
    let n = book.cards();
    let mut dice = Dice::new(u32::from(n));
    for u in 0..n {
        for v in u + 1..n {
            // the upper half of the roll, since the lower bits repeat soon
            if shape.links(n, u, v, dice.roll() >> 16) {
                let _ = book.put(u, v);
            }
        }
    }
}

// Searches at one tolerance, and prints its line.
fn search_at<B: ReadingBook>(
    rt: &HostRuntime,
    book: &B,
    shape: Shape,
    p: u16,
    q: u16,
) -> io::Result<()> {
    print!(rt;
        "{} {shape} {p}/{q}: {} links, ",
        book.cards(),
        book.links()
    )?;
    let Ok(tolerance) = Tolerance::new(p, q) else {
        return println!(rt; "no such tolerance");
    };
    let mut list = [0; 1024];
    let Ok(group) = search(book, tolerance, &mut list) else {
        return println!(rt; "no room for the group");
    };
    print!(rt;
        "group of {} with {} after {}: ",
        group.cards, group.links, group.peels
    )?;
    show(rt, &list[..usize::from(group.cards)])
}

// Prints the cards, or where they are many a number made of them.
fn show(rt: &HostRuntime, cards: &[u16]) -> io::Result<()> {
    if cards.len() > SHOWN {
        return println!(rt; "sum {}", mixed(cards));
    }
    print!(rt; "cards")?;
    for card in cards {
        print!(rt; " {card}")?;
    }
    println!(rt; "")
}

// A number in which every one of the cards, and their order, has a part.
fn mixed(cards: &[u16]) -> u32 {
    cards.iter().fold(0u32, |sum, card| {
        sum.wrapping_mul(31).wrapping_add(u32::from(*card))
    })
}
