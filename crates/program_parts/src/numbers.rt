//! Decimal numbers in words.
ghost use Rattle.std.specs.Prelude.{◌≡◌};
ghost use Rattle.std.specs.Char.{is_ascii_digit};
ghost use Rattle.std.specs.List.{list_all};
ghost use Rattle.program_parts.specs.Numbers.{number_of_word};

/// The value of a word of decimal digits, if it fits into 64 bits.
#[tactic(auto, using(crate::proofs::Digits::parsed_number))]
pub fn number(word: &str) -> Option<u64>
    ensures { result ≡ number_of_word word.now }
{
    if is_digits(word) {
        word.parse().ok()
    } else {
        None
    }
}

fn is_digits(word: &str) -> bool
    ensures { result ≡ list_all is_ascii_digit word.now }
{
    word.bytes().all(|byte| byte.is_ascii_digit())
}
