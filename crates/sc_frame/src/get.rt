ghost use Rattle.std.specs.Prelude.{◌≡◌, ◌+◌, ◌<◌, ◌≤◌, ◌^◌, ℕ, ℤ, List, length, IfSome, IsSomeAnd, option_map, FitsSigned};
ghost use Rattle.std.specs.Int.{w64};
ghost use Rattle.std.specs.Bool.{MatchBool};
ghost use Rattle.std.specs.Borrow.{Bor};
ghost use Rattle.sc_frame.specs.Fields.{StandsAt, number_field, int_field, bytes_field, number_at, int_at, bytes_at};

use byteorder::{BigEndian, ByteOrder};

fn has_room(piece: &[u8], at: usize, size: usize) -> bool
    ensures { MatchBool result (at + size ≤ length piece.now) (length piece.now < at + size) }
{
    at <= piece.len() && piece.len() - at >= size
}

/// The number in the 2 bytes at a place, and the place after them. `None` exactly where the piece is too
/// short, as from the other calls.
pub fn get_u16(piece: &[u8], at: usize) -> Option<(u16, usize)>
    ensures value { result ≡ number_at 2 piece.now at }
    ensures put { (n : ℕ) → n < 2 ^ 16 → StandsAt (number_field 2 n) piece.now at → result ≡ Some (n, at + 2) }
    ensures stands { IfSome result (λ f. StandsAt (number_field 2 f.0) piece.now at) }
{
    if !has_room(piece, at, 2) {
        return None;
    }
    Some((BigEndian::read_u16(&piece[at..]), at + 2))
}

/// The number in the 4 bytes at a place, and the place after them.
pub fn get_u32(piece: &[u8], at: usize) -> Option<(u32, usize)>
    ensures value { result ≡ number_at 4 piece.now at }
    ensures put { (n : ℕ) → n < 2 ^ 32 → StandsAt (number_field 4 n) piece.now at → result ≡ Some (n, at + 4) }
    ensures stands { IfSome result (λ f. StandsAt (number_field 4 f.0) piece.now at) }
{
    if !has_room(piece, at, 4) {
        return None;
    }
    Some((BigEndian::read_u32(&piece[at..]), at + 4))
}

/// The number in the 8 bytes at a place, and the place after them.
pub fn get_u64(piece: &[u8], at: usize) -> Option<(u64, usize)>
    ensures value { result ≡ number_at 8 piece.now at }
    ensures put { (n : ℕ) → n < 2 ^ 64 → StandsAt (number_field 8 n) piece.now at → result ≡ Some (n, at + 8) }
    ensures stands { IfSome result (λ f. StandsAt (number_field 8 f.0) piece.now at) }
{
    if !has_room(piece, at, 8) {
        return None;
    }
    Some((BigEndian::read_u64(&piece[at..]), at + 8))
}

/// The signed number in the 8 bytes at a place, and the place after them.
pub fn get_i64(piece: &[u8], at: usize) -> Option<(i64, usize)>
    ensures value { result ≡ int_at piece.now at }
    ensures put { (z : ℤ) → FitsSigned w64 z → StandsAt (int_field z) piece.now at → result ≡ Some (z, at + 8) }
    ensures stands { IfSome result (λ f. StandsAt (int_field f.0) piece.now at) }
{
    if !has_room(piece, at, 8) {
        return None;
    }
    Some((BigEndian::read_i64(&piece[at..]), at + 8))
}

/// The bytes after the 4 bytes of their length at a place, and the place after them.
pub fn get_bytes(piece: &[u8], at: usize) -> Option<(&[u8], usize)>
    ensures value { option_map (λ (f : Bor (List ℕ) × ℕ). (f.0.now, f.1)) result ≡ bytes_at piece.now at }
    ensures put { (b : List ℕ) → length b < 2 ^ 32 → StandsAt (bytes_field b) piece.now at
        → IsSomeAnd result (λ f. (f.0.now ≡ b) × (f.1 ≡ at + 4 + length b)) }
    ensures stands { IfSome result (λ f. StandsAt (bytes_field f.0.now) piece.now at) }
{
    let (length, start) = get_u32(piece, at)?;
    let size = length as usize;
    if !has_room(piece, start, size) {
        return None;
    }
    Some((&piece[start..start + size], start + size))
}
