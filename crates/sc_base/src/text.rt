ghost use Rattle.std.specs.Prelude.{◌≡◌, ◌↔◌, ◌==◌, ◌||◌, not, IsTrue, IfOk};
ghost use Rattle.std.specs.List.{list_all};
ghost use Rattle.std.specs.Str.{IsAscii, IsUtf8, is_utf8};
ghost use Rattle.sc_base.specs.Text.{is_name_byte, is_letter, is_digit, is_keyword, starts_with_letter, is_plain_name, is_text_byte, is_text_within, is_text, is_name, is_word, IsName, IsWord, IsPlainName};

use crate::memory::NoMemory;
use crate::plain::Plain;
use crate::small_bytes::SmallBytes;
use std::alloc::{AllocError, Global};
use std::marker::Model;

/// The most bytes of a text that names a part of a chart, and of a text of the data model where values are flat.
pub const TEXT_LIMIT: usize = 4_096;

/// The most bytes of a text of the data model where values may be nested.
pub const LONG_TEXT_LIMIT: usize = 65_536;

/// The most bytes of a [`PlainName`].
pub const PLAIN_NAME_LIMIT: usize = 128;

/// Why a text was not taken for a name: it lacks the form, or out of memory.
#[derive(Clone, Copy, Debug, PartialEq, Eq)]
pub enum Unfit {
    Form,
    NoMemory,
}

impl From<NoMemory> for Unfit {
    ghost use Rattle.std.specs.Prelude.{◌≡◌};
    ghost use Rattle.sc_base.specs.declared.text.Unfit.TheVariants.{NoMemory};

    ghost from_gives = { λ _ e. e ≡ NoMemory };

    fn from(_error: NoMemory) -> Unfit {
        Unfit::NoMemory
    }
}

/// UTF-8 text of at least one byte, each above 0x20 and none of 0x7F, `"`, `'`, `\`. The names of events.
#[derive(Debug, Drop)]
pub struct Name {
    bytes: SmallBytes,
}

/// A [`Name`] without `#`. The names of charts, sessions and states.
#[derive(Debug, Drop)]
pub struct Word {
    bytes: SmallBytes,
}

/// An ASCII letter or `_`, then ASCII letters, digits and `_`; at most 128 bytes; none of `true`, `false`,
/// `In`, `len` and `text`. The names of data.
#[derive(Debug, Drop)]
pub struct PlainName {
    bytes: SmallBytes,
}

impl Model for Name {
    ghost use Rattle.std.specs.Prelude.{List, ℕ};
    ghost use Rattle.sc_base.specs.Text.{IsName};

    ghost Value = { List ℕ };

    ghost view = { λ n. n.bytes };

    ghost invariant = { λ n. IsName n.bytes };
}

impl Model for Word {
    ghost use Rattle.std.specs.Prelude.{List, ℕ};
    ghost use Rattle.sc_base.specs.Text.{IsWord};

    ghost Value = { List ℕ };

    ghost view = { λ w. w.bytes };

    ghost invariant = { λ w. IsWord w.bytes };
}

impl Model for PlainName {
    ghost use Rattle.std.specs.Prelude.{List, ℕ};
    ghost use Rattle.sc_base.specs.Text.{IsPlainName};

    ghost Value = { List ℕ };

    ghost view = { λ n. n.bytes };

    ghost invariant = { λ n. IsPlainName n.bytes };
}

fn is_name_byte(byte: u8) -> bool
    ensures { result ≡ is_name_byte byte }
{
    byte > 0x20 && !matches!(byte, 0x7f | b'"' | b'\'' | b'\\')
}

fn has_name_bytes(text: &[u8]) -> bool
    ensures { result ≡ list_all is_name_byte text.now }
{
    text.iter().all(|b| is_name_byte(*b))
}

fn has_no_hash(text: &[u8]) -> bool
    ensures { result ≡ list_all (λ b. not (b == 35)) text.now }
{
    text.iter().all(|b| *b != b'#')
}

fn is_name(text: &[u8]) -> bool
    ensures value { result ≡ is_name text.now }
    ensures form { IsTrue result ↔ IsName text.now }
{
    !text.is_empty() && has_name_bytes(text) && is_utf8(text)
}

/// Whether these bytes have the form of a [`Word`].
pub fn is_word(text: &[u8]) -> bool
    ensures value { result ≡ is_word text.now }
    ensures form { IsTrue result ↔ IsWord text.now }
{
    is_name(text) && has_no_hash(text)
}

fn is_plain_name_byte(byte: u8) -> bool
    ensures { result ≡ is_letter byte || is_digit byte }
{
    byte.is_ascii_alphanumeric() || byte == b'_'
}

fn has_plain_name_bytes(text: &[u8]) -> bool
    ensures { result ≡ list_all (λ b. is_letter b || is_digit b) text.now }
{
    text.iter().all(|b| is_plain_name_byte(*b))
}

fn starts_with_letter(text: &[u8]) -> bool
    ensures { result ≡ starts_with_letter text.now }
{
    match text {
        [] => false,
        [first, ..] => first.is_ascii_alphabetic() || *first == b'_',
    }
}

fn is_keyword(text: &[u8]) -> bool
    ensures { result ≡ is_keyword text.now }
{
    matches!(text, b"true" | b"false" | b"In" | b"len" | b"text")
}

/// Whether these bytes have the form of a [`PlainName`].
pub fn is_plain_name(text: &[u8]) -> bool
    ensures value { result ≡ is_plain_name text.now }
    ensures form { IsTrue result ↔ IsPlainName text.now }
{
    if text.len() > PLAIN_NAME_LIMIT || !starts_with_letter(text) || !has_plain_name_bytes(text) {
        return false;
    }
    !is_keyword(text)
}

fn is_text_byte(byte: u8) -> bool
    ensures { result ≡ is_text_byte byte }
{
    (byte >= 0x20 || byte == b'\n' || byte == b'\t') && byte != 0x7f
}

fn is_ascii(text: &[u8]) -> bool
    ensures { IsTrue result → IsAscii text.now }
{
    text.iter().all(|b| b.is_ascii())
}

/// Whether these bytes are UTF-8. Most are few and ASCII, which is told faster.
pub fn is_utf8(text: &[u8]) -> bool
    ensures value { result ≡ is_utf8 text.now }
    ensures form { IsTrue result ↔ IsUtf8 text.now }
{
    if is_ascii(text) {
        return true;
    }
    match std::str::from_utf8(text) {
        Ok(_) => true,
        Err(_) => false,
    }
}

fn has_text_bytes(text: &[u8]) -> bool
    ensures { result ≡ list_all is_text_byte text.now }
{
    text.iter().all(|b| is_text_byte(*b))
}

/// Whether these bytes are what a text of the data model may hold, and at most so many.
pub fn is_text_within(text: &[u8], most: usize) -> bool
    ensures { result ≡ is_text_within most text.now }
{
    text.len() <= most && is_utf8(text) && has_text_bytes(text)
}

/// The same for at most [`TEXT_LIMIT`] bytes.
pub fn is_text(text: &[u8]) -> bool
    ensures { result ≡ is_text text.now }
{
    is_text_within(text, TEXT_LIMIT)
}

impl Name {
    /// The name that these bytes are. `Form` exactly where they lack the form.
    pub fn of(alloc: Global, text: &[u8]) -> Result<Name, Unfit>
        ensures ok { IfOk result (λ n. (n ≡ text.now) × IsName text.now) }
        ensures form { result ≡ Err Unfit.Form → ¬ IsName text.now }
    {
        if !is_name(text) {
            return Err(Unfit::Form);
        }
        Ok(Name {
            bytes: SmallBytes::from_slice(alloc, text)?,
        })
    }

    pub fn bytes(&self) -> &[u8]
        ensures value { result.now ≡ self.now }
        ensures form { IsName self.now }
    {
        self.bytes.slice()
    }
}

impl Word {
    /// The word that these bytes are. `Form` exactly where they lack the form.
    pub fn of(alloc: Global, text: &[u8]) -> Result<Word, Unfit>
        ensures ok { IfOk result (λ w. (w ≡ text.now) × IsWord text.now) }
        ensures form { result ≡ Err Unfit.Form → ¬ IsWord text.now }
    {
        if !is_word(text) {
            return Err(Unfit::Form);
        }
        Ok(Word {
            bytes: SmallBytes::from_slice(alloc, text)?,
        })
    }

    pub fn bytes(&self) -> &[u8]
        ensures value { result.now ≡ self.now }
        ensures form { IsWord self.now }
    {
        self.bytes.slice()
    }

    /// The same text as the name of an event.
    pub fn name(&self) -> Result<Name, NoMemory>
        ensures { IfOk result (λ n. n ≡ self.now) }
    {
        Ok(Name {
            bytes: self.bytes.copy()?,
        })
    }
}

impl PlainName {
    /// The plain name that these bytes are. `Form` exactly where they lack the form.
    pub fn of(alloc: Global, text: &[u8]) -> Result<PlainName, Unfit>
        ensures ok { IfOk result (λ n. (n ≡ text.now) × IsPlainName text.now) }
        ensures form { result ≡ Err Unfit.Form → ¬ IsPlainName text.now }
    {
        if !is_plain_name(text) {
            return Err(Unfit::Form);
        }
        Ok(PlainName {
            bytes: SmallBytes::from_slice(alloc, text)?,
        })
    }

    pub fn bytes(&self) -> &[u8]
        ensures value { result.now ≡ self.now }
        ensures form { IsPlainName self.now }
    {
        self.bytes.slice()
    }
}

impl Clone for Name {
    ghost is_clone = { λ a b. b ≡ a };

    fn clone(&self) -> Result<Self, AllocError> {
        Ok(Name {
            bytes: self.bytes.clone()?,
        })
    }
}

impl Plain for Name {
    ghost clone_equals = { λ a b e. e };
}

impl PartialEq for Name {
    ghost use Rattle.std.specs.Prelude.{nat_eq};
    ghost use Rattle.std.specs.Cmp.{partial_equiv_from_equiv};
    ghost use Rattle.std.specs.Cmp.Lexicographic.{pointwise, nat_list_eq_equiv};

    ghost eq = { pointwise nat_eq };

    ghost laws = { partial_equiv_from_equiv nat_list_eq_equiv };

    fn eq(&self, other: &Name) -> bool {
        self.bytes == other.bytes
    }
}

impl Eq for Name {
    ghost use Rattle.std.specs.Cmp.Lexicographic.{nat_list_eq_equiv};

    ghost laws = { nat_list_eq_equiv };
}

impl Clone for Word {
    ghost is_clone = { λ a b. b ≡ a };

    fn clone(&self) -> Result<Self, AllocError> {
        Ok(Word {
            bytes: self.bytes.clone()?,
        })
    }
}

impl Plain for Word {
    ghost clone_equals = { λ a b e. e };
}

impl PartialEq for Word {
    ghost use Rattle.std.specs.Prelude.{nat_eq};
    ghost use Rattle.std.specs.Cmp.{partial_equiv_from_equiv};
    ghost use Rattle.std.specs.Cmp.Lexicographic.{pointwise, nat_list_eq_equiv};

    ghost eq = { pointwise nat_eq };

    ghost laws = { partial_equiv_from_equiv nat_list_eq_equiv };

    fn eq(&self, other: &Word) -> bool {
        self.bytes == other.bytes
    }
}

impl Eq for Word {
    ghost use Rattle.std.specs.Cmp.Lexicographic.{nat_list_eq_equiv};

    ghost laws = { nat_list_eq_equiv };
}

impl Clone for PlainName {
    ghost is_clone = { λ a b. b ≡ a };

    fn clone(&self) -> Result<Self, AllocError> {
        Ok(PlainName {
            bytes: self.bytes.clone()?,
        })
    }
}

impl Plain for PlainName {
    ghost clone_equals = { λ a b e. e };
}

impl PartialEq for PlainName {
    ghost use Rattle.std.specs.Prelude.{nat_eq};
    ghost use Rattle.std.specs.Cmp.{partial_equiv_from_equiv};
    ghost use Rattle.std.specs.Cmp.Lexicographic.{pointwise, nat_list_eq_equiv};

    ghost eq = { pointwise nat_eq };

    ghost laws = { partial_equiv_from_equiv nat_list_eq_equiv };

    fn eq(&self, other: &PlainName) -> bool {
        self.bytes == other.bytes
    }
}

impl Eq for PlainName {
    ghost use Rattle.std.specs.Cmp.Lexicographic.{nat_list_eq_equiv};

    ghost laws = { nat_list_eq_equiv };
}
