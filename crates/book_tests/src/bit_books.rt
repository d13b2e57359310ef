// The bit book: its memory byte by byte, its answers and its refusals.
use super::steps::{FROM_ANYWHERE, REFUSED_IN_ORDER, ask, follow};
use bit_book::{BitBook, check as suits};
use books::{ReadingBook, Refusal, WritingBook};

// 1,024 cards have 523,776 pairs, and their bits fill 65,472 bytes.
#[test]
fn the_largest_book_needs_65472_bytes(rt: HostRuntime) {
    let memory = [0; 65472];
    assert_eq!(rt; suits(1024, &memory), Ok(()));
    assert_eq!(rt; suits(1024, &memory[1..]), Err(Refusal::Unsuitable));
    assert_eq!(rt; suits(1025, &memory), Err(Refusal::Unsuitable));
    assert_eq!(rt; suits(0, &memory), Err(Refusal::Unsuitable));
}

// The last pair, 1022-1023, is the highest bit of the last needed byte.
#[test]
fn the_largest_book_keeps_to_its_bytes(rt: HostRuntime) {
    let mut memory = [0xff; 65473];
    {
        let mut book = BitBook::new(1024, &mut memory);
        assert_eq!(rt;
            (book.cards(), book.links(), book.places()),
            (1024, 0, 523776)
        );
        assert_eq!(rt; book.put(1023, 1022), Ok(()));
        assert_eq!(rt; book.next_partner(1022, 0), Some(1023));
    }
    assert_eq!(rt;
        (memory[0], memory[65470], memory[65471], memory[65472]),
        (0, 0, 0x80, 0xff)
    );
}

#[test]
fn one_card_needs_no_byte_and_has_no_place(rt: HostRuntime) {
    let mut memory = [0; 0];
    assert_eq!(rt; suits(1, &memory), Ok(()));
    assert_eq!(rt; suits(2, &memory), Err(Refusal::Unsuitable));
    let mut book = BitBook::new(1, &mut memory);
    assert_eq!(rt; (book.cards(), book.links(), book.places()), (1, 0, 0));
    assert_eq!(rt; book.put(0, 0), Err(Refusal::SameCard));
    assert_eq!(rt; book.next_partner(0, 0), None);
}

// Five cards have ten pairs, so two bytes are needed, and six bits of the second belong to no pair.
#[test]
fn the_making_clears_the_needed_bytes_and_no_other(rt: HostRuntime) {
    let mut memory = [0xff; 4];
    {
        let book = BitBook::new(5, &mut memory);
        assert_eq!(rt; (book.cards(), book.links(), book.places()), (5, 0, 10));
    }
    assert_eq!(rt; memory, [0, 0, 0xff, 0xff]);
}

// Five cards need two bytes. On one byte the book has a single card, and the byte stays.
#[test]
fn where_the_check_refuses_nothing_is_touched(rt: HostRuntime) {
    let mut memory = [0xff; 1];
    assert_eq!(rt; suits(5, &memory), Err(Refusal::Unsuitable));
    {
        let mut book = BitBook::new(5, &mut memory);
        assert_eq!(rt; (book.cards(), book.links(), book.places()), (1, 0, 0));
        assert!(rt; !book.linked(0, 1));
        assert_eq!(rt; book.put(0, 1), Err(Refusal::NoSuchCard));
    }
    assert_eq!(rt; memory, [0xff]);
}

// 0-1 is bit 0, 1-2 bit 2, 2-4 bit 8 and 3-4 bit 9, in either order of the cards.
#[test]
fn a_put_sets_the_bit_of_its_pair(rt: HostRuntime) {
    let mut memory = [0xff; 3];
    {
        let mut book = BitBook::new(5, &mut memory);
        assert_eq!(rt; book.put(0, 1), Ok(()));
        assert_eq!(rt; book.put(2, 1), Ok(()));
        assert_eq!(rt; book.put(4, 2), Ok(()));
        assert_eq!(rt; book.put(3, 4), Ok(()));
        assert_eq!(rt; book.links(), 4);
    }
    assert_eq!(rt; memory, [0b0000_0101, 0b0000_0011, 0xff]);
}

// Of 0-2, 1-4 and 2-4, which are bits 1, 7 and 8, the second is taken out again.
#[test]
fn a_take_clears_the_bit_of_its_pair(rt: HostRuntime) {
    let mut memory = [0xff; 3];
    {
        let mut book = BitBook::new(5, &mut memory);
        assert_eq!(rt; book.put(0, 2), Ok(()));
        assert_eq!(rt; book.put(1, 4), Ok(()));
        assert_eq!(rt; book.put(2, 4), Ok(()));
        assert_eq!(rt; book.take(4, 1), Ok(()));
        assert_eq!(rt; book.links(), 2);
        assert!(rt; !book.linked(1, 4) && book.linked(2, 0));
    }
    assert_eq!(rt; memory, [0b0000_0010, 0b0000_0001, 0xff]);
}

// With the last of these steps 1-3 is held.
#[test]
fn refusals_come_in_their_order(rt: HostRuntime) {
    let mut memory = [0; 1];
    let mut book = BitBook::new(4, &mut memory);
    follow(&rt, &mut book, &REFUSED_IN_ORDER);
    assert_eq!(rt; book.put(3, 1), Err(Refusal::LinkHeld));
    assert_eq!(rt; book.links(), 1);
}

// Three cards have three places. With every place taken each pair is held, so 11 comes before 13.
#[test]
fn a_full_book_holds_every_pair(rt: HostRuntime) {
    let mut memory = [0xff; 1];
    {
        let mut book = BitBook::new(3, &mut memory);
        assert_eq!(rt; book.put(0, 1), Ok(()));
        assert_eq!(rt; book.put(0, 2), Ok(()));
        assert_eq!(rt; book.put(1, 2), Ok(()));
        assert_eq!(rt; (book.links(), book.places()), (3, 3));
        assert_eq!(rt; book.put(2, 0), Err(Refusal::LinkHeld));
    }
    assert_eq!(rt; memory, [0b0000_0111]);
}

#[test]
fn the_next_partner_may_be_asked_from_anywhere(rt: HostRuntime) {
    let mut memory = [0; 6];
    let mut book = BitBook::new(10, &mut memory);
    assert_eq!(rt; book.put(4, 2), Ok(()));
    assert_eq!(rt; book.put(4, 9), Ok(()));
    ask(&rt, &book, &FROM_ANYWHERE);
}

// In memory full of ones past the needed bits, a number that is no card is still linked to nothing.
#[test]
fn numbers_past_the_cards_are_linked_to_nothing(rt: HostRuntime) {
    let mut memory = [0xff; 8];
    let mut book = BitBook::new(4, &mut memory);
    assert_eq!(rt; book.put(0, 3), Ok(()));
    assert!(rt; book.linked(0, 3) && book.linked(3, 0));
    assert!(rt; !book.linked(0, 0) && !book.linked(0, 4) && !book.linked(4, 0));
    assert!(rt; !book.linked(4, 5) && !book.linked(5, 5) && !book.linked(65535, 65534));
}
