// The closed book: which lists it takes, and what it reads from them.
use books::{ReadingBook, Refusal};
use closed_book::{ClosedBook, check as suits};

#[test]
fn a_list_out_of_order_is_refused(rt: HostRuntime) {
    assert_eq!(rt; suits(4, &[0, 1, 0, 2, 1, 2]), Ok(()));
    assert_eq!(rt; suits(4, &[0, 2, 0, 1]), Err(Refusal::BadList));
    assert_eq!(rt; suits(4, &[1, 2, 0, 3]), Err(Refusal::BadList));
    assert_eq!(rt; suits(4, &[0, 1, 0, 1]), Err(Refusal::BadList));
}

#[test]
fn a_pair_that_is_no_link_is_refused(rt: HostRuntime) {
    assert_eq!(rt; suits(4, &[0, 1, 2]), Err(Refusal::BadList));
    assert_eq!(rt; suits(4, &[2, 2]), Err(Refusal::BadList));
    assert_eq!(rt; suits(4, &[2, 1]), Err(Refusal::BadList));
    assert_eq!(rt; suits(4, &[0, 4]), Err(Refusal::BadList));
    assert_eq!(rt; suits(5, &[0, 4]), Ok(()));
}

// The number of cards is tested before the list.
#[test]
fn the_number_of_cards_comes_first(rt: HostRuntime) {
    assert_eq!(rt; suits(0, &[]), Err(Refusal::Unsuitable));
    assert_eq!(rt; suits(1025, &[]), Err(Refusal::Unsuitable));
    assert_eq!(rt; suits(0, &[1, 0, 3]), Err(Refusal::Unsuitable));
    assert_eq!(rt; suits(1025, &[1, 0, 3]), Err(Refusal::Unsuitable));
    assert_eq!(rt; suits(1024, &[1022, 1023]), Ok(()));
}

#[test]
fn an_empty_list_has_no_link(rt: HostRuntime) {
    assert_eq!(rt; suits(1, &[]), Ok(()));
    let book = ClosedBook::new(1024, &[]);
    assert_eq!(rt; (book.cards(), book.links()), (1024, 0));
    assert_eq!(rt; book.next_partner(3, 0), None);
}

#[test]
fn links_are_read_both_ways(rt: HostRuntime) {
    let book = ClosedBook::new(6, &[0, 2, 0, 5, 2, 4]);
    assert_eq!(rt; (book.cards(), book.links()), (6, 3));
    assert!(rt; book.linked(0, 2) && book.linked(2, 0) && book.linked(5, 0) && book.linked(4, 2));
    assert!(rt; !book.linked(0, 4) && !book.linked(2, 5) && !book.linked(2, 2));
    assert!(rt; !book.linked(6, 0) && !book.linked(0, 65535) && !book.linked(7, 7));
}

#[test]
fn the_next_partner_may_be_asked_from_anywhere(rt: HostRuntime) {
    let book = ClosedBook::new(6, &[0, 2, 0, 5, 2, 4]);
    assert_eq!(rt;
        (book.next_partner(2, 0), book.next_partner(2, 1)),
        (Some(0), Some(4))
    );
    assert_eq!(rt;
        (book.next_partner(0, 2), book.next_partner(0, 3)),
        (Some(2), Some(5))
    );
    assert_eq!(rt;
        (book.next_partner(2, 5), book.next_partner(2, 65535)),
        (None, None)
    );
    assert_eq!(rt;
        (book.next_partner(1, 0), book.next_partner(6, 0)),
        (None, None)
    );
}

#[test]
fn where_the_check_refuses_there_is_one_card_and_no_link(rt: HostRuntime) {
    let unsorted = ClosedBook::new(4, &[1, 2, 0, 3]);
    assert_eq!(rt; (unsorted.cards(), unsorted.links()), (1, 0));
    assert!(rt; !unsorted.linked(1, 2) && !unsorted.linked(0, 3));
    let too_many = ClosedBook::new(1025, &[0, 1]);
    assert_eq!(rt; (too_many.cards(), too_many.links()), (1, 0));
    assert!(rt; !too_many.linked(0, 1));
}
