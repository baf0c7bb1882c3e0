ghost use Rattle.std.specs.Prelude.{◌≡◌, ◌<◌, ◌≤◌, ◌/◌, ◌==◌, ◌&&◌, ◌||◌, not, ℕ, length, true, false, MatchOption};
ghost use Rattle.std.specs.Bool.{MatchBool};
ghost use Rattle.sc_bits.specs.Words.{bit_of, IsNextBit};

pub fn has_bit(words: &[u64], n: u32) -> bool
    requires { n / 64 < length words.now }
    ensures { result ≡ bit_of words.now n }
{
    (words[(n / 64) as usize] >> (n % 64)) & 1 == 1
}

pub fn set_bit(words: &mut [u64], n: u32)
    requires { n / 64 < length words.old }
    ensures { (k : ℕ) → bit_of words.new k ≡ (bit_of words.old k || k == n) }
{
    words[(n / 64) as usize] |= 1u64 << (n % 64);
}

pub fn clear_bit(words: &mut [u64], n: u32)
    requires { n / 64 < length words.old }
    ensures { (k : ℕ) → bit_of words.new k ≡ (bit_of words.old k && not (k == n)) }
{
    words[(n / 64) as usize] &= !(1u64 << (n % 64));
}

pub fn join_words(words: &mut [u64], other: &[u64])
    requires { length words.old ≡ length other.now }
    ensures { (k : ℕ) → bit_of words.new k ≡ (bit_of words.old k || bit_of other.now k) }
{
    for i in 0..words.len() {
        words[i] |= other[i];
    }
}

pub fn meet_words(words: &mut [u64], other: &[u64])
    requires { length words.old ≡ length other.now }
    ensures { (k : ℕ) → bit_of words.new k ≡ (bit_of words.old k && bit_of other.now k) }
{
    for i in 0..words.len() {
        words[i] &= other[i];
    }
}

pub fn minus_words(words: &mut [u64], other: &[u64])
    requires { length words.old ≡ length other.now }
    ensures { (k : ℕ) → bit_of words.new k ≡ (bit_of words.old k && not (bit_of other.now k)) }
{
    for i in 0..words.len() {
        words[i] &= !other[i];
    }
}

pub fn clear_words(words: &mut [u64])
    ensures { (k : ℕ) → bit_of words.new k ≡ false }
{
    for word in words.iter_mut() {
        *word = 0;
    }
}

// Whether both have a bit in common.
pub fn words_meet(words: &[u64], other: &[u64]) -> bool
    requires { length words.now ≡ length other.now }
    ensures { MatchBool result ((k : ℕ) × ((bit_of words.now k && bit_of other.now k) ≡ true))
        ((k : ℕ) → (bit_of words.now k && bit_of other.now k) ≡ false) }
{
    for i in 0..words.len() {
        if words[i] & other[i] != 0 {
            return true;
        }
    }
    false
}

// The first bit from a place on.
pub fn next_bit(words: &[u64], from: u32) -> Option<u32>
    requires { length words.now ≤ 67108864 }
    ensures { MatchOption result ((k : ℕ) → from ≤ k → bit_of words.now k ≡ false) (IsNextBit words.now from) }
{
    let first = (from / 64) as usize;
    if first >= words.len() {
        return None;
    }
    let rest = words[first] & (u64::MAX << (from % 64));
    if rest != 0 {
        return Some(first as u32 * 64 + rest.trailing_zeros());
    }
    for place in first + 1..words.len() {
        let word = words[place];
        if word != 0 {
            return Some(place as u32 * 64 + word.trailing_zeros());
        }
    }
    None
}
