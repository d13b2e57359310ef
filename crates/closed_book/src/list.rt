// The list that a closed book stands on: two numbers for each link, the lower card first, the
// links in strictly ascending order of their first and then of their second number.
ghost use Rattle.std.specs.Prelude.{◌≡◌};
ghost use Rattle.std.specs.Result.{result_err};
ghost use Rattle.closed_book.specs.Lists.{before, list_suits, list_refusal};

use books::{Refusal, cards_suit};

// Whether a closed book of so many cards can stand on the list. Reads the list once, from its start
// to the first pair that breaks the rule.
pub fn check(cards: u16, list: &[u16]) -> Result<(), Refusal>
    ensures { result_err result ≡ list_refusal cards list.now }
{
    if !cards_suit(cards) {
        return Err(Refusal::Unsuitable);
    }
    if !in_order(cards, list) {
        return Err(Refusal::BadList);
    }
    Ok(())
}

// No number is left over, and every pair is two cards, the lower first, that come after the pair before them.
// (`cards` and `list` are what a caller hands in; once they suit, a `ClosedBook` holds them.)
fn in_order(cards: u16, list: &[u16]) -> bool
    ensures { result ≡ list_suits cards list.now }
{
    let (pairs, []) = list.as_chunks::<2>() else {
        return false;
    };
    // One pass: `all` and `is_sorted_by` would read the pairs twice. Two cards, the lower first, always come after
    // (0, 0), so the first pair need not come after one.
    let mut last = (0, 0);
    for &pair in pairs {
        let [lower, higher] = pair;
        if lower >= higher || higher >= cards || !comes_before(last, (lower, higher)) {
            return false;
        }
        last = (lower, higher);
    }
    true
}

// Whether p comes before q. Written out, since the order of arrays goes through a loop, by which `check` took two to three
// times as long.
fn comes_before(p: (u16, u16), q: (u16, u16)) -> bool
    ensures { result ≡ before p q }
{
    p.0 < q.0 || p.0 == q.0 && p.1 < q.1
}
