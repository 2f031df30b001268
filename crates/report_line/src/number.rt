//! Numbers in decimal.

ghost use Rattle.std.specs.Prelude.{◌≡◌, ◌≢◌, ◌<◌, ◌^◌, ℕ, MatchOption};
ghost use Rattle.std.specs.Fmt.{decimal};
ghost use Rattle.report_line.specs.Spelling.{IsCount};
ghost use Rattle.report_line.specs.working.Numbers.{number, digits_from};

fn digits_of(word: &[u8]) -> Option<u32>
    ensures { result ≡ digits_from 0 word.now }
{
    let mut n = 0u64;
    for b in word {
        if !b.is_ascii_digit() {
            return None;
        }
        let more = n * 10 + u64::from(*b - b'0');
        if more > u64::from(u32::MAX) {
            return None;
        }
        n = more;
    }
    Some(n as u32)
}

// The number that a word says, in digits without leading zeros.
#[tactic(auto, unfolding(crate::specs::working::Numbers::number))]
fn said_by(word: &[u8]) -> Option<u32>
    ensures { result ≡ number word.now }
{
    match word {
        [] => None,
        [b'0', _, ..] => None,
        _ => digits_of(word),
    }
}

/// The number below 2^32 that a word spells in decimal.
pub fn number_in(word: &[u8]) -> Option<u32>
    ensures { MatchOption result ((n : ℕ) → n < 2 ^ 32 → word.now ≢ decimal n) (λ n. (n < 2 ^ 32) × (word.now ≡ decimal n)) }
{
    said_by(word)
}

/// The number from 1 to 2^32 - 1 that a word spells in decimal.
pub fn positive_in(word: &[u8]) -> Option<u32>
    ensures { MatchOption result ((n : ℕ) → IsCount n → word.now ≢ decimal n) (λ n. IsCount n × (word.now ≡ decimal n)) }
{
    match said_by(word) {
        None => None,
        Some(0) => None,
        Some(n) => Some(n),
    }
}
