// One number in text.
ghost use Rattle.std.specs.Prelude.{◌≡◌, true, if◌then◌else◌, Some, None, Err, nat_lt, MatchOption};
ghost use Rattle.link_text.specs.declared.fault.Fault.TheVariants.{Missing};
ghost use Rattle.link_text.specs.Numbers.{all_digits, value_after, number_in};

use super::fault::Fault;

// The number that the word is. Without a word, and where nothing is in it, the number is missing.
pub(crate) fn read_number(word: Option<&[u8]>) -> Result<u16, Fault>
    ensures { MatchOption word.entry (result ≡ Err Missing) (λ w. result ≡ number_in w.now) }
{
    match word {
        None | Some([]) => Err(Fault::Missing),
        Some(word) if !all_digits(word) => Err(Fault::NotDigits),
        Some(word) => value_of(word).ok_or(Fault::TooLarge),
    }
}

fn all_digits(word: &[u8]) -> bool
    ensures { result ≡ all_digits word.now }
{
    word.iter().all(u8::is_ascii_digit)
}

// The value of the digits, or none where it is too large. It stops as soon as that shows. (The library's parsing is of
// text, which bytes are not, and lets a sign stand in front.)
fn value_of(digits: &[u8]) -> Option<u16>
    requires { all_digits digits.now ≡ true }
    ensures { result ≡ (if nat_lt (value_after 0 digits.now) 65536 then Some (value_after 0 digits.now) else None) }
{
    let mut value: u16 = 0;
    for b in digits {
        value = value.checked_mul(10)?.checked_add(u16::from(*b - b'0'))?;
    }
    Some(value)
}
