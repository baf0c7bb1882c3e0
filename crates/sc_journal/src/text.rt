ghost use Rattle.std.specs.Prelude.{◌≡◌, ◌+◌, ◌-◌, ◌^◌, ◌<◌, ◌≤◌, List, ℕ, [], ◌∷◌, ◌++◌, length, take, drop, false, true, Some, None, Ok, Err, IfOk, IfErr, IfSome, OnOk, OnSome, IsTrue, ◌≢◌, flat_map, option_map};
ghost use Rattle.std.specs.Borrow.{Bor};
ghost use Rattle.std.specs.Str.{bytes_eq};
ghost use Rattle.sc_frame.specs.Fields.{number_field, field_number};
ghost use Rattle.sc_journal.specs.Texts.{mark, first_number, is_size, body_at, entries_from, held, has_open_header, entry, header, front, Holds};
ghost use Rattle.sc_journal.specs.BodiesLeft.{HasEntries};

use crate::bodies::Bodies;
use byteorder::{BigEndian, ByteOrder};

const MARK: &[u8] = b"SCXHOST";

// What a text holds, and the place of its closed gate.
#[derive(Drop)]
pub struct Found {
    pub first: u64,
    pub bodies: Bodies,
    pub end: usize,
}

// For `create`: whether a text begins with an open header.
pub fn has_open_header(text: &[u8]) -> bool
    ensures { result ≡ has_open_header text.now }
{
    text.len() >= 20 && text[0] == 1 && has_mark(text)
}

fn has_mark(text: &[u8]) -> bool
    requires { 8 ≤ length text.now }
    ensures value { result ≡ bytes_eq (take 7 (drop 1 text.now)) mark }
    ensures bytes { IsTrue result → take 7 (drop 1 text.now) ≡ mark }
{
    &text[1..8] == MARK
}

// The number at a place in the header.
fn format(text: &[u8]) -> u32
    requires { 12 ≤ length text.now }
    ensures number { result ≡ field_number 4 (drop 8 text.now) }
    ensures field { take 4 (drop 8 text.now) ≡ number_field 4 result }
{
    BigEndian::read_u32(&text[8..])
}

fn first(text: &[u8]) -> u64
    requires { 20 ≤ length text.now }
    ensures number { result ≡ field_number 8 (drop 12 text.now) }
    ensures field { take 8 (drop 12 text.now) ≡ number_field 8 result }
{
    BigEndian::read_u64(&text[12..])
}

// The first number that the header says, or the first case of damage.
fn first_number(text: &[u8]) -> Result<u64, u64>
    ensures number { result ≡ first_number text.now }
    ensures range { IfOk result (λ n. (1 ≤ n) × (n ≤ 2 ^ 48)) }
    ensures header { IfOk result (λ n. take 20 text.now ≡ header (record { format = 1; first = n })) }
    ensures long { OnOk result (21 ≤ length text.now) }
{
    if text.len() < 21 || text[0] != 1 {
        return Err(0);
    }
    if !has_mark(text) {
        return Err(1);
    }
    if format(text) != 1 {
        return Err(8);
    }
    let number = first(text);
    if number < 1 || number > 1 << 48 {
        return Err(12);
    }
    Ok(number)
}

// The length of an entry's body, from the bytes behind its gate.
fn size_at(rest: &[u8]) -> usize
    requires { 4 ≤ length rest.now }
    ensures number { result ≡ field_number 4 rest.now }
    ensures field { take 4 rest.now ≡ number_field 4 result }
{
    BigEndian::read_u32(rest) as usize
}

// Whether a body of that size, its length and the gate behind it lie within so many bytes.
fn is_size(size: usize, room: usize) -> bool
    ensures value { result ≡ is_size size room }
    ensures within { IsTrue result → (1 ≤ size) × ((size ≤ 2097152) × (4 + size < room)) }
{
    size >= 1 && size <= 2097152 && size + 4 < room
}

// The body of an entry, from the bytes behind its gate.
pub fn body_at(number: u64, rest: &[u8]) -> Option<&[u8]>
    ensures body { option_map (λ (b : Bor (List ℕ)). b.now) result ≡ body_at number rest.now }
    ensures number { OnSome result (number ≤ 2 ^ 48) }
    ensures entry { IfSome result (λ b. rest.now
        ≡ number_field 4 (length b.now) ++ (b.now ++ drop (4 + length b.now) rest.now)) }
    ensures size { IfSome result (λ b. (1 ≤ length b.now)
        × ((length b.now ≤ 2097152) × (4 + length b.now < length rest.now))) }
{
    if number > 1 << 48 || rest.len() < 4 {
        return None;
    }
    let size = size_at(rest);
    if !is_size(size, rest.len()) {
        return None;
    }
    Some(&rest[4..4 + size])
}

// The entries of a text up to its first closed gate: how many there are, and the place of the gate.
#[derive(Clone, Copy)]
struct Extent {
    count: u64,
    end: usize,
}

// Walks through the entries, of which the first has this number.
fn walk(text: &[u8], first: u64) -> Result<Extent, u64>
    requires long { 21 ≤ length text.now }
    requires some { 1 ≤ first }
    requires most { first ≤ 2 ^ 48 }
    requires header { take 20 text.now ≡ header (record { format = 1; first = first }) }
    ensures entries { IfOk result (λ e. HasEntries text.now first e.count e.end) }
    ensures damaged { IfErr result (λ at. entries_from (length text.now) first 20 (drop 20 text.now) ≡ Err at) }
{
    let mut at = 20;
    let mut number = first;
    while text[at] == 1 {
        let Some(body) = body_at(number, &text[at + 1..]) else {
            return Err(at as u64);
        };
        at += 5 + body.len();
        number += 1;
    }
    Ok(Extent {
        count: number - first,
        end: at,
    })
}

// What a text holds, or where it is damaged.
pub fn read_text(text: Vec<u8>) -> Result<Found, u64>
    ensures bodies { IfOk result (λ f. held text.items ≡ Ok f.bodies) }
    ensures first { IfOk result (λ f. first_number text.items ≡ Ok f.first) }
    ensures last { IfOk result (λ f. f.first + length f.bodies ≤ 2 ^ 48 + 1) }
    ensures holds { IfOk result (λ f. Holds (record { format = 1; first = f.first }) f.bodies text.items) }
    ensures end { IfOk result (λ f. f.end ≡ length (front (record { format = 1; first = f.first }) f.bodies)) }
    ensures within { IfOk result (λ f. f.end < length text.items) }
    ensures damaged { IfErr result (λ at. held text.items ≡ Err at) }
{
    let first = first_number(&text)?;
    let Extent { count, end } = walk(&text, first)?;
    Ok(Found {
        first,
        bodies: Bodies::of(text, first, count),
        end,
    })
}
