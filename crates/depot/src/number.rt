// Reads a word as a whole number.
ghost use Rattle.std.specs.Prelude.{◌≡◌};
ghost use Rattle.depot.specs.Numbers.{whole, number_of};

use crate::fault::What;

// Whether the word is one or more digits.
fn is_whole(word: &[u8]) -> bool
    ensures { result ≡ whole word.now }
{
    !word.is_empty() && word.iter().all(|b| b.is_ascii_digit())
}

// Leading zeros are allowed.
pub(crate) fn read_number(word: &[u8]) -> Result<u32, What>
    ensures { result ≡ number_of word.now }
{
    if !is_whole(word) {
        return Err(What::NotANumber);
    }
    let mut value = 0u32;
    for byte in word {
        let digit = u32::from(*byte - b'0');
        value = value
            .checked_mul(10)
            .and_then(|tens| tens.checked_add(digit))
            .ok_or(What::TooLarge)?;
    }
    Ok(value)
}
