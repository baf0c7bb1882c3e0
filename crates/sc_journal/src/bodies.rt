ghost use Rattle.std.specs.Prelude.{◌≡◌, ◌<◌, ◌∷◌, [], Ok, length, drop, MatchOption};
ghost use Rattle.sc_journal.specs.BodiesLeft.{HasBodies};
ghost use Rattle.sc_journal.specs.Texts.{entries_from};

use crate::text::body_at;
use std::marker::Model;

/// The bodies that a journal holds, the first of them first. They are read out of its text one after another, so that
/// they take no memory beside it.
#[derive(Drop)]
pub struct Bodies {
    text: Vec<u8>,
    at: usize,
    number: u64,
    left: u64,
}

impl Model for Bodies {
    ghost use Rattle.std.specs.Prelude.{List, ℕ};

    ghost Value = { List (List ℕ) };

    ghost use Rattle.sc_journal.specs.BodiesLeft.{bodies_left, AreLeft};

    ghost view = { λ b. bodies_left b.left b.number b.at b.text.items };

    ghost invariant = { λ b. AreLeft b.left b.number b.at b.text.items };
}

impl Bodies {
    /// So many bodies of a text, whose entries begin at 20 with this number.
    pub(crate) fn of(text: Vec<u8>, first: u64, count: u64) -> Bodies
        requires { HasBodies text.items first count }
        ensures { entries_from (length text.items) first 20 (drop 20 text.items) ≡ Ok result }
    {
        Bodies {
            text,
            at: 20,
            number: first,
            left: count,
        }
    }

    /// How many are left.
    pub fn len(&self) -> u64
        ensures { result ≡ length self.now }
    {
        self.left
    }

    /// The first of them; `None` where none is left.
    pub fn front(&self) -> Option<&[u8]>
        ensures { MatchOption result (self.now ≡ []) (λ body. self.now ≡ body.now ∷ drop 1 self.now) }
    {
        if self.left == 0 {
            return None;
        }
        body_at(self.number, &self.text[self.at + 1..])
    }

    /// Leaves out the first of them.
    pub fn pop_front(&mut self)
        requires { 0 < length self.old }
        ensures { self.new ≡ drop 1 self.old }
    {
        if let Some(body) = body_at(self.number, &self.text[self.at + 1..]) {
            self.at += 5 + body.len();
            self.number += 1;
            self.left -= 1;
        }
    }
}
