// The chain book: its memory record by record, its answers and its refusals.
use super::steps::Step::{Put, Take};
use super::steps::{FROM_ANYWHERE, OLD, REFUSED_IN_ORDER, ask, follow, sizes};
use books::{ReadingBook, Refusal};
use chain_book::{ChainBook, Record, check as suits};

fn record(partner: u16, next: u16) -> Record {
    Record { partner, next }
}

#[test]
fn a_book_takes_as_many_records_as_cards_or_more(rt: HostRuntime) {
    let records = [OLD; 61025];
    assert_eq!(rt; suits(10, &records[0..10]), Ok(()));
    assert_eq!(rt; suits(10, &records[0..9]), Err(Refusal::Unsuitable));
    assert_eq!(rt; suits(1, &records[0..1]), Ok(()));
    assert_eq!(rt; suits(1, &records[0..0]), Err(Refusal::Unsuitable));
    assert_eq!(rt; suits(1024, &records[0..1024]), Ok(()));
    assert_eq!(rt; suits(1024, &records[0..1023]), Err(Refusal::Unsuitable));
}

#[test]
fn a_book_takes_at_most_61024_records(rt: HostRuntime) {
    let records = [OLD; 61025];
    assert_eq!(rt; suits(1, &records[0..61024]), Ok(()));
    assert_eq!(rt; suits(1, &records), Err(Refusal::Unsuitable));
    assert_eq!(rt; suits(1024, &records[0..61024]), Ok(()));
    assert_eq!(rt; suits(1024, &records), Err(Refusal::Unsuitable));
    assert_eq!(rt; suits(1025, &records[0..61024]), Err(Refusal::Unsuitable));
    assert_eq!(rt; suits(0, &records[0..61024]), Err(Refusal::Unsuitable));
}

// Five of eight records are left after three heads, so there are two places; the last record is not needed.
// Records 3 to 6 are free, and each points to the next.
#[test]
fn the_making_writes_the_needed_records_and_no_other(rt: HostRuntime) {
    let mut records = [OLD; 8];
    {
        let book = ChainBook::new(3, &mut records);
        assert_eq!(rt; sizes(&book), (3, 0, 2));
        ask(&rt, &book, &[(0, 0, None), (1, 0, None), (2, 0, None)]);
    }
    assert_eq!(rt;
        records,
        [
            record(0, 0),
            record(0, 0),
            record(0, 0),
            record(0, 4),
            record(0, 5),
            record(0, 6),
            record(0, 0),
            OLD,
        ]
    );
}

// 2-0 takes record 3 for the chain of 2 and record 4 for that of 0. 0-1 takes record 5, which comes before record
// 4 in the chain of 0 since 1 is below 2, and record 6.
#[test]
fn a_put_hangs_a_record_into_both_chains(rt: HostRuntime) {
    let mut records = [OLD; 8];
    {
        let mut book = ChainBook::new(3, &mut records);
        follow(&rt, &mut book, &[(Put(2, 0), Ok(())), (Put(0, 1), Ok(()))]);
        assert_eq!(rt; sizes(&book), (3, 2, 2));
    }
    assert_eq!(rt;
        records,
        [
            record(0, 5),
            record(0, 6),
            record(0, 3),
            record(0, 0),
            record(2, 0),
            record(1, 4),
            record(0, 0),
            OLD,
        ]
    );
}

// Taking 0-2 out frees record 4 and then record 3, which is then the first to be used: 1-2 takes it for the chain
// of 1, and record 4 for that of 2.
#[test]
fn freed_records_are_used_again(rt: HostRuntime) {
    let mut records = [OLD; 8];
    {
        let mut book = ChainBook::new(3, &mut records);
        follow(
            &rt,
            &mut book,
            &[
                (Put(2, 0), Ok(())),
                (Put(0, 1), Ok(())),
                (Put(1, 2), Err(Refusal::Full)),
                (Take(0, 2), Ok(())),
                (Put(1, 2), Ok(())),
            ],
        );
        assert_eq!(rt; sizes(&book), (3, 2, 2));
    }
    assert_eq!(rt;
        records,
        [
            record(0, 5),
            record(0, 6),
            record(0, 4),
            record(2, 0),
            record(1, 0),
            record(1, 0),
            record(0, 3),
            OLD,
        ]
    );
}

#[test]
fn ten_heads_and_three_further_records_have_one_place(rt: HostRuntime) {
    let mut records = [OLD; 13];
    let mut book = ChainBook::new(10, &mut records);
    assert_eq!(rt; sizes(&book), (10, 0, 1));
    follow(
        &rt,
        &mut book,
        &[
            (Put(4, 9), Ok(())),
            (Put(0, 1), Err(Refusal::Full)),
            (Put(9, 4), Err(Refusal::LinkHeld)),
            (Take(9, 4), Ok(())),
            (Put(0, 1), Ok(())),
        ],
    );
    assert_eq!(rt; sizes(&book), (10, 1, 1));
    assert!(rt; book.linked(1, 0) && !book.linked(4, 9));
}

// With the last of the steps in order the one place is taken, and being full comes after all other refusals.
#[test]
fn refusals_come_in_their_order(rt: HostRuntime) {
    let mut records = [OLD; 6];
    let mut book = ChainBook::new(4, &mut records);
    follow(&rt, &mut book, &REFUSED_IN_ORDER);
    follow(
        &rt,
        &mut book,
        &[
            (Put(5, 5), Err(Refusal::NoSuchCard)),
            (Put(2, 2), Err(Refusal::SameCard)),
            (Put(3, 1), Err(Refusal::LinkHeld)),
            (Put(0, 1), Err(Refusal::Full)),
        ],
    );
    assert_eq!(rt; sizes(&book), (4, 1, 1));
}

// 0-1 is held, and every place is taken.
#[test]
fn a_refusal_leaves_every_record(rt: HostRuntime) {
    let mut records = [OLD; 7];
    {
        let mut book = ChainBook::new(4, &mut records);
        follow(
            &rt,
            &mut book,
            &[
                (Put(0, 1), Ok(())),
                (Put(0, 1), Err(Refusal::LinkHeld)),
                (Put(0, 2), Err(Refusal::Full)),
                (Put(2, 2), Err(Refusal::SameCard)),
                (Put(2, 4), Err(Refusal::NoSuchCard)),
                (Take(2, 3), Err(Refusal::LinkMissing)),
                (Take(1, 1), Err(Refusal::SameCard)),
                (Take(0, 9), Err(Refusal::NoSuchCard)),
            ],
        );
    }
    assert_eq!(rt;
        records,
        [
            record(0, 4),
            record(0, 5),
            record(0, 0),
            record(0, 0),
            record(1, 0),
            record(0, 0),
            OLD,
        ]
    );
}

// Of 1,025 cards there is no book, so what the memory holds does not count.
#[test]
fn where_the_check_refuses_nothing_is_touched(rt: HostRuntime) {
    let mut records = [OLD; 5];
    assert_eq!(rt; suits(1025, &records), Err(Refusal::Unsuitable));
    {
        let mut book = ChainBook::new(1025, &mut records);
        assert_eq!(rt; sizes(&book), (1, 0, 0));
        assert!(rt; !book.linked(0, 7777) && !book.linked(0, 0) && !book.linked(7777, 0));
        ask(
            &rt,
            &book,
            &[(0, 0, None), (0, 7777, None), (7777, 0, None)],
        );
        follow(
            &rt,
            &mut book,
            &[
                (Put(0, 1), Err(Refusal::NoSuchCard)),
                (Put(0, 0), Err(Refusal::SameCard)),
                (Take(0, 0), Err(Refusal::SameCard)),
            ],
        );
    }
    assert_eq!(rt; records, [OLD; 5]);
}

#[test]
fn a_book_can_stand_on_no_record(rt: HostRuntime) {
    let mut records = [OLD; 0];
    let mut book = ChainBook::new(10, &mut records);
    assert_eq!(rt; sizes(&book), (1, 0, 0));
    assert!(rt; !book.linked(0, 0) && !book.linked(0, 1));
    ask(&rt, &book, &[(0, 0, None), (1, 0, None)]);
    follow(
        &rt,
        &mut book,
        &[
            (Put(0, 0), Err(Refusal::SameCard)),
            (Take(0, 1), Err(Refusal::NoSuchCard)),
        ],
    );
}

// One card has places, by the number of records, and no other card to be linked to.
#[test]
fn one_card_has_places_and_no_link(rt: HostRuntime) {
    let mut records = [OLD; 9];
    let mut book = ChainBook::new(1, &mut records);
    assert_eq!(rt; sizes(&book), (1, 0, 4));
    follow(
        &rt,
        &mut book,
        &[
            (Put(0, 0), Err(Refusal::SameCard)),
            (Put(0, 1), Err(Refusal::NoSuchCard)),
        ],
    );
    ask(&rt, &book, &[(0, 0, None)]);
}

// 60,000 records after 1,024 heads are 30,000 places.
#[test]
fn the_largest_book_has_30000_places(rt: HostRuntime) {
    let mut records = [OLD; 61024];
    let mut book = ChainBook::new(1024, &mut records);
    assert_eq!(rt; sizes(&book), (1024, 0, 30000));
    follow(
        &rt,
        &mut book,
        &[(Put(1023, 1022), Ok(())), (Put(0, 1023), Ok(()))],
    );
    ask(
        &rt,
        &book,
        &[
            (1023, 0, Some(0)),
            (1023, 1, Some(1022)),
            (1023, 1023, None),
        ],
    );
}

// With one record less there is one place less, and the last record is not needed.
#[test]
fn the_last_of_61023_records_is_not_touched(rt: HostRuntime) {
    let mut records = [OLD; 61023];
    {
        let book = ChainBook::new(1024, &mut records);
        assert_eq!(rt; sizes(&book), (1024, 0, 29999));
    }
    assert_eq!(rt; (records[61021], records[61022]), (record(0, 0), OLD));
}

#[test]
fn the_next_partner_may_be_asked_from_anywhere(rt: HostRuntime) {
    let mut records = [OLD; 20];
    let mut book = ChainBook::new(10, &mut records);
    follow(&rt, &mut book, &[(Put(4, 9), Ok(())), (Put(4, 2), Ok(()))]);
    ask(&rt, &book, &FROM_ANYWHERE);
}
