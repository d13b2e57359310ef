// The numbers on a line.
ghost use Rattle.std.specs.Prelude.{◌≡◌, ℕ, ◌<◌, Ok};
ghost use Rattle.link_text.specs.Lines.{words, numbers_in, link_in, setup_in, link_text, setup_text};

use super::fault::Fault;
use super::number::read_number;

// The first line of a text: the number of cards and the tolerance p/q.
#[derive(Clone, Copy, PartialEq, Eq, Debug)]
pub struct Setup {
    pub cards: u16,
    pub p: u16,
    pub q: u16,
}

const SPACE: u8 = b' ';

// The two ends of the link that the line is. What is written of a link in decimal, with a space between
// the numbers, reads as that link.
pub fn read_link(line: &[u8]) -> Result<(u16, u16), Fault>
    ensures is { result ≡ link_in line.now }
    ensures written { (u v : ℕ) → u < 65536 → v < 65536 → line.now ≡ link_text u v → result ≡ Ok (u, v) }
{
    let [u, v] = read_numbers::<2>(line)?;
    Ok((u, v))
}

// The setup that the line is. What is written of a setup in decimal, with a space between two numbers,
// reads as that setup.
pub fn read_setup(line: &[u8]) -> Result<Setup, Fault>
    ensures is { result ≡ setup_in line.now }
    ensures written { (s : Setup) → s.cards < 65536 → s.p < 65536 → s.q < 65536 → line.now ≡ setup_text s → result ≡ Ok s }
{
    let [cards, p, q] = read_numbers::<3>(line)?;
    Ok(Setup { cards, p, q })
}

// The N numbers that the line is. It stops at the first word that does not read as one.
fn read_numbers<const N: usize>(line: &[u8]) -> Result<[u16; N], Fault>
    ensures { result ≡ numbers_in N (words line.now) }
{
    let mut words = line.split(|b| *b == SPACE);
    let mut numbers = [0; N];
    for number in &mut numbers {
        *number = read_number(words.next())?;
    }
    if words.next().is_some() {
        return Err(Fault::MoreFollows);
    }
    Ok(numbers)
}
