// Words as numbers.
ghost use Rattle.std.specs.Prelude.{MatchBool};
ghost use Rattle.std.specs.Str.Parse.{IsNumeral};
ghost use Rattle.words.specs.Numbers.{Decimal, Capped};

// A decimal number that fits 64 bits.
pub fn decimal(word: &str) -> Option<u64>
    ensures { Decimal word.now result }
{
    if word.starts_with('+') {
        return None;
    }
    word.parse().ok()
}

// Whether a word is a decimal number.
fn is_decimal(word: &str) -> bool
    ensures { MatchBool result (IsNumeral 10 word.now) (IsNumeral 10 word.now → ⊥) }
{
    !word.is_empty() && word.bytes().all(|b| b.is_ascii_digit())
}

// A decimal number; one that doesn't fit 64 bits counts as the largest that does.
pub fn decimal_or_most(word: &str) -> Option<u64>
    ensures { Capped word.now result }
{
    match decimal(word) {
        None if is_decimal(word) => Some(u64::MAX),
        number => number,
    }
}
