// Which tolerances there are, and their heights.
use books::Refusal;
use peel::Tolerance;

// The height at so many cards, where there is such a tolerance.
fn height(p: u16, q: u16, cards: u16) -> Result<u16, Refusal> {
    Ok(Tolerance::new(p, q)?.height(cards))
}

#[test]
fn a_tolerance_is_from_a_hundredth_to_one(rt: HostRuntime) {
    for (p, q) in [(1, 100), (100, 100), (1, 1)] {
        assert!(rt; Tolerance::new(p, q).is_ok());
    }
    for (p, q) in [(0, 5), (5, 4), (1, 101), (0, 0), (101, 101), (65535, 65535)] {
        assert_eq!(rt; Tolerance::new(p, q).err(), Some(Refusal::BadTolerance));
    }
}

// At 1/2 ten goes to 6, 3, 1 and 0; at 1/1 four goes to 1 and 0.
#[test]
fn heights_count_the_replacements(rt: HostRuntime) {
    assert_eq!(rt; (height(1, 2, 10), height(2, 4, 10)), (Ok(4), Ok(4)));
    assert_eq!(rt; (height(1, 1, 4), height(100, 100, 4)), (Ok(2), Ok(2)));
    assert_eq!(rt; (height(1, 1, 1), height(1, 100, 1)), (Ok(1), Ok(1)));
}
