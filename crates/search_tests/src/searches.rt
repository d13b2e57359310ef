// The search on graphs that are small enough to be peeled by hand.
use bit_book::BitBook;
use books::{ReadingBook, Refusal, WritingBook};
use chain_book::{ChainBook, Record};
use closed_book::ClosedBook;
use peel::Tolerance;
use search::{Group, search};
use std::process::Abort;

// Among twenty cards 1, 4, 9, 12, 15 and 19 are all linked to one another, and 19-18-3 is a tail.
const CLIQUE: [u16; 34] = [
    1, 4, 1, 9, 1, 12, 1, 15, 1, 19, 3, 18, 4, 9, 4, 12, 4, 15, 4, 19, 9, 12, 9, 15, 9, 19, 12, 15,
    12, 19, 15, 19, 18, 19,
];

// Among seven cards 0, 1 and 2 are a triangle, and 2-3-4 is a tail.
const TRIANGLE: [u16; 10] = [0, 1, 0, 2, 1, 2, 2, 3, 3, 4];

// The search at p/q.
fn searched<B: ReadingBook>(book: &B, p: u16, q: u16, list: &mut [u16]) -> Result<Group, Refusal> {
    search(book, Tolerance::new(p, q)?, list)
}

// A group of so many cards and links, after so many peels.
fn group(cards: u16, links: u32, peels: u32) -> Result<Group, Refusal> {
    Ok(Group {
        cards,
        links,
        peels,
    })
}

// Puts each pair of the list in.
fn put_all<B: WritingBook>(book: &mut B, list: &[u16]) {
    let (pairs, _) = list.as_chunks::<2>();
    for [u, v] in pairs {
        let _ = book.put(*u, *v);
    }
}

// At 1/2 the book's group is the clique, with 15 links on 6 cards, after two peels.
fn finds_the_clique<B: ReadingBook>(rt: &impl Abort, book: &B) {
    let mut list = [7777; 8];
    assert_eq!(rt; searched(book, 1, 2, &mut list), group(6, 15, 2));
    assert_eq!(rt; list, [1, 4, 9, 12, 15, 19, 7777, 7777]);
}

// 17 links on 20 cards: at 1/2 four partners stay and three do not, so the clique is left. At its line no card stays,
// and all cards fall short.
#[test]
fn a_clique_loses_its_tail(rt: HostRuntime) {
    finds_the_clique(&rt, &ClosedBook::new(20, &CLIQUE));
}

#[test]
fn a_bit_book_gives_the_same_group(rt: HostRuntime) {
    let mut memory = [0xff; 24];
    let mut book = BitBook::new(20, &mut memory);
    put_all(&mut book, &CLIQUE);
    assert_eq!(rt; book.links(), 17);
    finds_the_clique(&rt, &book);
}

// Twenty heads, and two records for each of the 17 links.
#[test]
fn a_chain_book_gives_the_same_group(rt: HostRuntime) {
    let mut records = [Record {
        partner: 7777,
        next: 7777,
    }; 54];
    let mut book = ChainBook::new(20, &mut records);
    put_all(&mut book, &CLIQUE);
    assert_eq!(rt; (book.links(), book.places()), (17, 17));
    finds_the_clique(&rt, &book);
}

// 3 links on 12 cards: at 1/1 a card with two partners is just not below the line.
#[test]
fn a_card_on_the_line_stays(rt: HostRuntime) {
    let mut list = [7777; 4];
    let book = ClosedBook::new(12, &[5, 6, 5, 11, 6, 11]);
    assert_eq!(rt; searched(&book, 1, 1, &mut list), group(3, 3, 2));
    assert_eq!(rt; list, [5, 6, 11, 7777]);
}

// At 1/10 the first peel leaves 0 to 3, with 4 links, and then 0 to 2, with 3: both have one link to a
// card, and the first of them is the group.
#[test]
fn the_first_of_two_equally_dense_sets_wins(rt: HostRuntime) {
    let mut list = [7777; 5];
    let book = ClosedBook::new(7, &TRIANGLE);
    assert_eq!(rt; searched(&book, 1, 10, &mut list), group(4, 4, 2));
    assert_eq!(rt; list, [0, 1, 2, 3, 7777]);
}

#[test]
fn a_list_must_have_a_place_for_each_card(rt: HostRuntime) {
    let mut short = [7777; 3];
    let mut exact = [7777; 4];
    let book = ClosedBook::new(7, &TRIANGLE);
    assert_eq!(rt;
        searched(&book, 1, 10, &mut short),
        Err(Refusal::ListTooShort)
    );
    assert_eq!(rt; short, [7777; 3]);
    assert_eq!(rt; searched(&book, 1, 10, &mut exact), group(4, 4, 2));
    assert_eq!(rt; exact, [0, 1, 2, 3]);
}

// Without links no set has one, so the first peel ends the search with all cards.
#[test]
fn without_links_all_cards_are_the_group(rt: HostRuntime) {
    let mut list = [7777; 6];
    let mut memory = [0xff; 2];
    let book = BitBook::new(5, &mut memory);
    assert_eq!(rt; searched(&book, 1, 2, &mut list), group(5, 0, 1));
    assert_eq!(rt; list, [0, 1, 2, 3, 4, 7777]);
}

#[test]
fn one_card_is_a_group(rt: HostRuntime) {
    let mut list = [7777; 2];
    let book = ClosedBook::new(1, &[]);
    assert_eq!(rt; searched(&book, 1, 1, &mut []), Err(Refusal::ListTooShort));
    assert_eq!(rt; searched(&book, 1, 1, &mut list), group(1, 0, 1));
    assert_eq!(rt; list, [0, 7777]);
}
