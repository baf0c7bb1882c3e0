// Fields at the front of some bytes: each call gives the field and the bytes behind it, and `None` exactly where the
// bytes are too few.
ghost use Rattle.std.specs.Prelude.{◌≡◌, ℕ, ℤ, List, option_map};
ghost use Rattle.std.specs.Borrow.{Bor};
ghost use Rattle.sc_codec.specs.Reading.{from_front, number_from, part_from, sized_from};
ghost use Rattle.sc_frame.specs.Fields.{int_at};

use sc_frame::{get_i64, get_u16, get_u32, get_u64};

#[tactic(auto, unfolding(crate::specs::Reading::number_from))]
pub(crate) fn u16_from(bytes: &[u8]) -> Option<(u16, &[u8])>
    ensures { option_map (λ (f : ℕ × Bor (List ℕ)). (f.0, f.1.now)) result ≡ number_from 2 bytes.now }
{
    let (number, end) = get_u16(bytes, 0)?;
    Some((number, &bytes[end..]))
}

#[tactic(auto, unfolding(crate::specs::Reading::number_from))]
fn u32_from(bytes: &[u8]) -> Option<(u32, &[u8])>
    ensures { option_map (λ (f : ℕ × Bor (List ℕ)). (f.0, f.1.now)) result ≡ number_from 4 bytes.now }
{
    let (number, end) = get_u32(bytes, 0)?;
    Some((number, &bytes[end..]))
}

#[tactic(auto, unfolding(crate::specs::Reading::number_from))]
pub(crate) fn u64_from(bytes: &[u8]) -> Option<(u64, &[u8])>
    ensures { option_map (λ (f : ℕ × Bor (List ℕ)). (f.0, f.1.now)) result ≡ number_from 8 bytes.now }
{
    let (number, end) = get_u64(bytes, 0)?;
    Some((number, &bytes[end..]))
}

pub(crate) fn i64_from(bytes: &[u8]) -> Option<(i64, &[u8])>
    ensures { option_map (λ (f : ℤ × Bor (List ℕ)). (f.0, f.1.now)) result
        ≡ from_front bytes.now (int_at bytes.now 0) }
{
    let (number, end) = get_i64(bytes, 0)?;
    Some((number, &bytes[end..]))
}

// So many bytes.
#[tactic(auto, unfolding(crate::specs::Reading::part_from))]
fn part_from(size: usize, bytes: &[u8]) -> Option<(&[u8], &[u8])>
    ensures { option_map (λ (f : Bor (List ℕ) × Bor (List ℕ)). (f.0.now, f.1.now)) result
        ≡ part_from size bytes.now }
{
    if bytes.len() < size {
        return None;
    }
    Some(bytes.split_at(size))
}

// The bytes behind the 4 bytes of their length.
#[tactic(auto, unfolding(crate::specs::Reading::sized_from))]
pub(crate) fn text_from(bytes: &[u8]) -> Option<(&[u8], &[u8])>
    ensures { option_map (λ (f : Bor (List ℕ) × Bor (List ℕ)). (f.0.now, f.1.now)) result
        ≡ sized_from 4 bytes.now }
{
    let (size, rest) = u32_from(bytes)?;
    part_from(size as usize, rest)
}

// The bytes behind the 2 bytes of their length.
#[tactic(auto, unfolding(crate::specs::Reading::sized_from))]
pub(crate) fn name_from(bytes: &[u8]) -> Option<(&[u8], &[u8])>
    ensures { option_map (λ (f : Bor (List ℕ) × Bor (List ℕ)). (f.0.now, f.1.now)) result
        ≡ sized_from 2 bytes.now }
{
    let (size, rest) = u16_from(bytes)?;
    part_from(size as usize, rest)
}
