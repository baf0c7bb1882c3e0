ghost use Rattle.std.specs.Prelude.{◌≡◌};
ghost use Rattle.std.specs.Option.{option_copied};
ghost use Rattle.sc_types.specs.Attributes.{plain_text, words_of, code_of, given, has, text_at, words_at, code_at, is_text_at, profile_of};

use crate::attribute::Attribute;
use crate::chart::{Chart, Member, Node};
use crate::expr::Expr;
use crate::profile::Profile;
use sc_base::Bytes;

impl Member {
    /// The text of an attribute that is kept as it was given.
    pub fn text(&self) -> Option<&[u8]>
        ensures { option_copied result ≡ plain_text self.now }
    {
        match self {
            Member::Plain(text) => Some(text.slice()),
            _ => None,
        }
    }

    /// The words of an attribute that is a list of words, and none of another.
    pub fn words(&self) -> &[Bytes]
        ensures { result.now ≡ words_of self.now }
    {
        match self {
            Member::Items(words) => words.slice(),
            _ => &[],
        }
    }

    /// The expression of an attribute that is one.
    pub fn expr(&self) -> Option<&Expr>
        ensures { option_copied result ≡ code_of self.now }
    {
        match self {
            Member::Code(code) => Some(code),
            _ => None,
        }
    }
}

impl Node {
    /// The attribute, where the element has it.
    pub fn attribute(&self, attribute: Attribute) -> Option<&Member>
        ensures { option_copied result ≡ given attribute self.now }
    {
        let name = attribute.text().as_bytes();
        let found = self.members.slice().iter().find(|m| m.0.slice() == name)?;
        Some(&found.1)
    }

    /// Whether the element has the attribute.
    pub fn has(&self, attribute: Attribute) -> bool
        ensures { result ≡ has attribute self.now }
    {
        self.attribute(attribute).is_some()
    }

    /// The text of an attribute, where the element has it and keeps it as a text.
    pub fn text(&self, attribute: Attribute) -> Option<&[u8]>
        ensures { option_copied result ≡ text_at attribute self.now }
    {
        self.attribute(attribute)?.text()
    }

    /// The words of an attribute; none where the element hasn't it.
    pub fn words(&self, attribute: Attribute) -> &[Bytes]
        ensures { result.now ≡ words_at attribute self.now }
    {
        match self.attribute(attribute) {
            Some(Member::Items(words)) => words.slice(),
            _ => &[],
        }
    }

    /// The expression of an attribute, where the element has it.
    pub fn expr(&self, attribute: Attribute) -> Option<&Expr>
        ensures { option_copied result ≡ code_at attribute self.now }
    {
        self.attribute(attribute)?.expr()
    }

    /// Whether an attribute is this very text.
    pub fn is_text(&self, attribute: Attribute, text: &[u8]) -> bool
        ensures { result ≡ is_text_at attribute text.now self.now }
    {
        match self.text(attribute) {
            Some(own) => own == text,
            None => false,
        }
    }
}

impl Chart {
    /// Which values the expressions of the chart can make.
    pub fn profile(&self) -> Profile
        ensures { result ≡ profile_of self.now }
    {
        let Some(text) = self.root.text(Attribute::Values) else {
            return Profile::Flat;
        };
        Profile::named(text).unwrap_or(Profile::Flat)
    }
}
