// Where each pair of cards has its bit, and how much memory the bits take.
ghost use Rattle.std.specs.Prelude.{◌≡◌, ◌/◌, ◌<◌, ◌≤◌, length, ◌≢◌};
ghost use Rattle.bit_book.specs.Layout.{pair_bit, bit_of, needed, suits, cards_made, bit_at, cleared, turned};

use books::cards_suit;

// The bytes that so many cards need.
pub(crate) fn bytes_for(cards: u16) -> usize
    requires { 1 ≤ cards }
    ensures { result ≡ needed cards }
{
    let n = usize::from(cards);
    (n * (n - 1) / 2).div_ceil(8)
}

// Whether a book of so many cards can stand on so many bytes.
pub(crate) fn suitable(cards: u16, bytes: usize) -> bool
    ensures { result ≡ suits cards bytes }
{
    cards_suit(cards) && bytes_for(cards) <= bytes
}

// So many cards where a book of them can stand on so many bytes, else one.
pub(crate) fn cards_for(cards: u16, bytes: usize) -> u16
    ensures is { result ≡ cards_made cards bytes }
    ensures least { 1 ≤ result }
    ensures most { result ≤ 1024 }
    ensures fits { needed result ≤ bytes }
{
    if suitable(cards, bytes) { cards } else { 1 }
}

// The bit of a pair whose lower card comes first.
fn low_bit(u: u16, v: u16) -> usize
    requires { u < v }
    ensures { result ≡ pair_bit u v }
{
    let high = usize::from(v);
    high * (high - 1) / 2 + usize::from(u)
}

// The bit of the pair of u and v, in either order.
pub(crate) fn pair_bit(u: u16, v: u16) -> usize
    requires { u ≢ v }
    ensures { result ≡ bit_of u v }
{
    if u < v { low_bit(u, v) } else { low_bit(v, u) }
}

// Whether bit k is set.
pub(crate) fn is_set(memory: &[u8], k: usize) -> bool
    requires { k / 8 < length memory.now }
    ensures { result ≡ bit_at memory.now k }
{
    (memory[k / 8] >> (k % 8)) % 2 == 1
}

// Turns bit k over.
pub(crate) fn turn(memory: &mut [u8], k: usize)
    requires { k / 8 < length memory.old }
    ensures { memory.new ≡ turned memory.old k }
{
    memory[k / 8] ^= 1 << (k % 8);
}

// Makes so many bytes 0, from the first on, and leaves the others.
pub(crate) fn clear(memory: &mut [u8], bytes: usize)
    requires { bytes ≤ length memory.old }
    ensures { memory.new ≡ cleared bytes memory.old }
{
    memory[..bytes].fill(0);
}
