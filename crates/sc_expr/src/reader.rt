ghost use Rattle.std.specs.Prelude.{◌≡◌, ◌≤◌, ◌==◌, true, false, codes, nat_lt, drop, length, [], ◌∷◌, ◌↔◌, IsTrue, IfOk, OnOk, MatchOption};
ghost use Rattle.std.specs.Str.{bytes_eq};
ghost use Rattle.sc_types.specs.Expressions.{IsExpr, IsExpression, IsReading, depth, looseness, repeats};
ghost use Rattle.sc_base.specs.Text.{IsPlainName};
ghost use Rattle.sc_types.specs.Tokens.{tokens};
ghost use Rattle.sc_types.specs.declared.token.Mark.TheVariants.{CloseSquare, Comma};
ghost use Rattle.sc_types.specs.declared.token.Token.TheVariants.{Mark as Sign};
ghost use Rattle.sc_expr.specs.Reading.{expr_of};
ghost use Rattle.sc_expr.specs.Reads.{Passes, Reads, ReadsExpr};
ghost use Rattle.sc_expr.specs.Descent.{after_open, after_close, after_close_square, operator_between, closest_behind, prefix_at, is_at, is_unended, after_dot, state_id, word, field_of, loose_at, prefixed, postfix, inside, primary, named, bracketed, list_of, active, event_field, payload};

use crate::fault::ExprFault;
use crate::lexer::Lexer;
use crate::sub::{Prefix, Sub};
use sc_types::{
    Bytes, EXPRESSION_LEVEL_LIMIT, EventField, Expr, Mark, NoMemory, Op, PlainName, Profile,
    Sequence, Token, Unfit, is_plain_name,
};
use std::alloc::Global;
use std::marker::Model;
use std::mem;

/// The looseness of the operators that bind closest.
const CLOSEST: u8 = 2;

/// The looseness of an expression that no bracket closes in.
const LOOSEST: u8 = 6;

/// Reads an expression; `NotExpr` exactly where the text spells none in the profile.
#[tactic(auto, using(crate::proofs::Whole::wholes))]
pub fn read_expr(alloc: Global, text: &[u8], profile: Profile) -> Result<Expr, ExprFault>
    ensures ok { IfOk result (IsExpression profile text.now) }
    ensures limits { IfOk result (IsExpr profile) }
    ensures only { IfOk result (λ e. (other : Expr) → IsExpression profile text.now other → other ≡ e) }
    ensures refused { result ≡ Err ExprFault.NotExpr → (e : Expr) → ¬ IsExpression profile text.now e }
    ensures value { IfOk result (λ e. expr_of profile text.now ≡ Some e) }
    ensures none { result ≡ Err ExprFault.NotExpr → expr_of profile text.now ≡ None }
    ensures reading { IsReading expr_of }
{
    let mut reader = Reader::new(alloc, text, profile)?;
    let whole = reader.loose(alloc, EXPRESSION_LEVEL_LIMIT)?;
    if !reader.is_at_end() {
        return Err(ExprFault::NotExpr);
    }
    Ok(whole.into_expr())
}

/// An operand and the operator behind it, until the operand behind that is read; and how loose the operators are
/// that may follow.
#[derive(Drop)]
struct Waiting {
    left: Sub,
    op: Op,
    loosest: u8,
}

/// The tokens that are still to be read: the next one, and those behind it.
#[derive(Drop)]
struct Reader<'a> {
    lexer: Lexer<'a>,
    next: Option<Token>,
}

impl<'a> Model for Reader<'a> {
    ghost use Rattle.std.specs.Prelude.{◌≡◌, Option, None, List, []};
    ghost use Rattle.sc_types.specs.declared.token.Token.{Token};
    ghost use Rattle.sc_expr.specs.Descent.{ahead};

    ghost Value = { List Token };

    ghost view = { λ r. ahead r.next r.lexer };

    ghost invariant = { λ r. r.next ≡ None → r.lexer ≡ [] };
}

impl<'a> Reader<'a> {
    fn new(alloc: Global, text: &'a [u8], profile: Profile) -> Result<Reader<'a>, NoMemory>
        ensures { IfOk result (λ r. r ≡ tokens profile false text.now) }
    {
        let mut lexer = Lexer::new(text, profile, false);
        let next = lexer.next(alloc)?;
        Ok(Reader { lexer, next })
    }

    fn is_at_end(&self) -> bool
        ensures { IsTrue result ↔ (self.now ≡ []) }
    {
        self.next.is_none()
    }

    fn advance(&mut self, alloc: Global) -> Result<Option<Token>, NoMemory>
        ensures { IfOk result (λ token. MatchOption token ((self.old ≡ []) × (self.new ≡ []))
            (λ t. self.old ≡ t ∷ self.new)) }
    {
        let following = self.lexer.next(alloc)?;
        Ok(mem::replace(&mut self.next, following))
    }

    /// Passes over the next token.
    fn skip(&mut self, alloc: Global) -> Result<(), NoMemory>
        ensures { OnOk result (self.new ≡ drop 1 self.old) }
    {
        self.advance(alloc)?;
        Ok(())
    }

    fn open(&mut self, alloc: Global) -> Result<(), ExprFault>
        ensures { Passes after_open self.old result self.new }
    {
        match self.advance(alloc)? {
            Some(Token::Mark(Mark::Open)) => Ok(()),
            _ => Err(ExprFault::NotExpr),
        }
    }

    fn close(&mut self, alloc: Global) -> Result<(), ExprFault>
        ensures { Passes after_close self.old result self.new }
    {
        match self.advance(alloc)? {
            Some(Token::Mark(Mark::Close)) => Ok(()),
            _ => Err(ExprFault::NotExpr),
        }
    }

    fn close_square(&mut self, alloc: Global) -> Result<(), ExprFault>
        ensures { Passes after_close_square self.old result self.new }
    {
        match self.advance(alloc)? {
            Some(Token::Mark(Mark::CloseSquare)) => Ok(()),
            _ => Err(ExprFault::NotExpr),
        }
    }

    /// The operator that comes next, where its looseness lies between these, both included.
    fn operator(&self, closest: u8, loosest: u8) -> Option<Op>
        ensures { result ≡ operator_between closest loosest self.now }
    {
        match &self.next {
            Some(Token::Operator(op)) if closest <= looseness(*op) && looseness(*op) <= loosest =>
                Some(*op),
            _ => None,
        }
    }

    fn prefix(&self) -> Option<Prefix>
        ensures { result ≡ prefix_at self.now }
    {
        match &self.next {
            Some(Token::Mark(Mark::Not)) => Some(Prefix::Not),
            Some(Token::Operator(Op::Sub)) => Some(Prefix::Minus),
            _ => None,
        }
    }

    fn is_at(&self, mark: Mark) -> bool
        ensures { result ≡ is_at mark self.now }
    {
        match &self.next {
            Some(Token::Mark(next)) => *next == mark,
            _ => false,
        }
    }

    /// An expression, as far as it goes. Operands wait in a list for those behind their operators, so that brackets
    /// alone make the descent deeper.
    #[cycle(descend)]
    #[tactic(auto, using(crate::proofs::Rules::operators))]
    fn loose(&mut self, alloc: Global, room: u32) -> Result<Sub, ExprFault>
        ensures { ReadsExpr (loose_at room 6) self.old result self.new }
    {
        let mut waiting = Sequence::new(alloc);
        let mut operand = self.prefixed(alloc, room)?;
        let mut closest = CLOSEST;
        let mut loosest = LOOSEST;
        loop {
            if let Some(op) = self.operator(closest, loosest) {
                self.skip(alloc)?;
                waiting.push(Waiting {
                    left: operand,
                    op,
                    loosest,
                })?;
                operand = self.prefixed(alloc, room)?;
                closest = CLOSEST;
                loosest = looseness(op) - 1;
            } else if let Some(last) = waiting.pop() {
                operand = Sub::two(alloc, last.op, last.left, operand)?;
                closest = closest_behind(last.op);
                loosest = last.loosest;
            } else {
                return Ok(operand);
            }
        }
    }

    #[cycle(descend)]
    #[tactic(auto, using(crate::proofs::Rules::prefixes))]
    fn prefixed(&mut self, alloc: Global, room: u32) -> Result<Sub, ExprFault>
        ensures { ReadsExpr (prefixed (postfix (nat_lt 0 room) (inside room))) self.old result self.new }
    {
        let mut prefixes = Sequence::new(alloc);
        while let Some(prefix) = self.prefix() {
            self.skip(alloc)?;
            prefixes.push(prefix)?;
        }
        let mut operand = self.postfix(alloc, room)?;
        while let Some(prefix) = prefixes.pop() {
            operand = operand.with_prefix(alloc, prefix)?;
        }
        Ok(operand)
    }

    #[cycle(descend)]
    #[tactic(auto, using(crate::proofs::Rules::places))]
    fn postfix(&mut self, alloc: Global, room: u32) -> Result<Sub, ExprFault>
        ensures { ReadsExpr (postfix (nat_lt 0 room) (inside room)) self.old result self.new }
    {
        let mut list = self.primary(alloc, room)?;
        while self.is_at(Mark::OpenSquare) {
            self.skip(alloc)?;
            let place = self.inside(alloc, room)?;
            self.close_square(alloc)?;
            list = Sub::item(alloc, list, place)?;
        }
        Ok(list)
    }

    /// What stands in brackets, where one more may be opened.
    #[cycle(descend)]
    #[tactic(auto, using(crate::proofs::Rules::brackets))]
    fn inside(&mut self, alloc: Global, room: u32) -> Result<Sub, ExprFault>
        ensures { ReadsExpr (inside room) self.old result self.new }
    {
        if room == 0 {
            return Err(ExprFault::NotExpr);
        }
        self.loose(alloc, room - 1)
    }

    #[cycle(descend)]
    #[tactic(auto, using(crate::proofs::Rules::depths))]
    fn primary(&mut self, alloc: Global, room: u32) -> Result<Sub, ExprFault>
        ensures { ReadsExpr (primary (nat_lt 0 room) (inside room)) self.old result self.new }
    {
        match self.advance(alloc)? {
            Some(Token::Word(word)) => self.named(alloc, room, word),
            Some(Token::Number(number)) => Ok(Sub::leaf(alloc, Expr::Int(number))?),
            Some(Token::Text(text)) => Ok(Sub::leaf(alloc, Expr::Text(text))?),
            Some(Token::Mark(Mark::Open)) => {
                let whole = self.inside(alloc, room)?;
                self.close(alloc)?;
                Ok(whole)
            }
            Some(Token::Mark(Mark::OpenSquare)) => self.list(alloc, room),
            _ => Err(ExprFault::NotExpr),
        }
    }

    /// What a word begins. Not inlined, so that brackets without a word before them take less of the stack.
    #[inline(never)]
    #[cycle(descend)]
    #[tactic(auto, using(crate::proofs::Rules::depths))]
    fn named(&mut self, alloc: Global, room: u32, word: Bytes) -> Result<Sub, ExprFault>
        ensures { ReadsExpr (named (nat_lt 0 room) (inside room) word) self.old result self.new }
    {
        let name = word.slice();
        if is(name, b"true") {
            Ok(Sub::leaf(alloc, Expr::Bool(true))?)
        } else if is(name, b"false") {
            Ok(Sub::leaf(alloc, Expr::Bool(false))?)
        } else if is(name, b"In") {
            self.active(alloc, room)
        } else if is(name, b"len") {
            self.bracketed(alloc, room)?.len(alloc)
        } else if is(name, b"text") {
            self.bracketed(alloc, room)?.as_text(alloc)
        } else if is(name, b"_event") {
            self.field(alloc)
        } else {
            Ok(Sub::leaf(alloc, Expr::Datum(plain_name(alloc, &word)?))?)
        }
    }

    #[cycle(descend)]
    fn bracketed(&mut self, alloc: Global, room: u32) -> Result<Sub, ExprFault>
        ensures { ReadsExpr (bracketed (inside room)) self.old result self.new }
    {
        self.open(alloc)?;
        let whole = self.inside(alloc, room)?;
        self.close(alloc)?;
        Ok(whole)
    }

    /// The items of a list, behind its bracket.
    #[cycle(descend)]
    #[tactic(auto, using(crate::proofs::Rules::lists))]
    fn list(&mut self, alloc: Global, room: u32) -> Result<Sub, ExprFault>
        ensures { ReadsExpr (list_of (nat_lt 0 room) (inside room)) self.old result self.new }
    {
        if room == 0 {
            return Err(ExprFault::NotExpr);
        }
        let mut items = Sequence::new(alloc);
        if self.is_at(Mark::CloseSquare) {
            self.skip(alloc)?;
            return Ok(Sub::leaf(alloc, Expr::List(items))?);
        }
        let mut deepest = 0;
        loop {
            let item = self.inside(alloc, room)?;
            deepest = item.depth().max(deepest);
            items.push(item.into_expr())?;
            if !self.goes_on(alloc)? {
                return Sub::limited(alloc, Expr::List(items), deepest + 1);
            }
        }
    }

    /// Passes over what stands behind an item: true for a comma, false for the bracket that closes the list.
    fn goes_on(&mut self, alloc: Global) -> Result<bool, ExprFault>
        ensures comma { result ≡ Ok true → self.old ≡ Sign Comma ∷ self.new }
        ensures close { result ≡ Ok false → self.old ≡ Sign CloseSquare ∷ self.new }
        ensures refused { result ≡ Err ExprFault.NotExpr → is_unended self.old ≡ true }
    {
        match self.advance(alloc)? {
            Some(Token::Mark(Mark::Comma)) => Ok(true),
            Some(Token::Mark(Mark::CloseSquare)) => Ok(false),
            _ => Err(ExprFault::NotExpr),
        }
    }

    /// The state that is asked for, behind `In`.
    #[tactic(auto, using(crate::proofs::Rules::depths))]
    fn active(&mut self, alloc: Global, room: u32) -> Result<Sub, ExprFault>
        ensures { ReadsExpr (active (nat_lt 0 room)) self.old result self.new }
    {
        if room == 0 {
            return Err(ExprFault::NotExpr);
        }
        self.open(alloc)?;
        let id = self.state_id(alloc)?;
        self.close(alloc)?;
        Ok(Sub::leaf(alloc, Expr::Active(id))?)
    }

    fn state_id(&mut self, alloc: Global) -> Result<Bytes, ExprFault>
        ensures { Reads state_id self.old result self.new }
    {
        match self.advance(alloc)? {
            Some(Token::Text(text)) => Ok(text),
            Some(Token::Word(word)) if is_plain_name(word.slice()) => Ok(word),
            _ => Err(ExprFault::NotExpr),
        }
    }

    fn word(&mut self, alloc: Global) -> Result<Bytes, ExprFault>
        ensures { Reads word self.old result self.new }
    {
        match self.advance(alloc)? {
            Some(Token::Word(word)) => Ok(word),
            _ => Err(ExprFault::NotExpr),
        }
    }

    fn dot(&mut self, alloc: Global) -> Result<(), ExprFault>
        ensures { Passes after_dot self.old result self.new }
    {
        match self.advance(alloc)? {
            Some(Token::Mark(Mark::Dot)) => Ok(()),
            _ => Err(ExprFault::NotExpr),
        }
    }

    /// A field of the event, behind `_event`.
    #[tactic(auto, using(crate::proofs::Rules::depths))]
    fn field(&mut self, alloc: Global) -> Result<Sub, ExprFault>
        ensures { ReadsExpr event_field self.old result self.new }
    {
        self.dot(alloc)?;
        let word = self.word(alloc)?;
        if is(word.slice(), b"data") {
            return self.payload(alloc);
        }
        match field_of(word.slice()) {
            Some(field) => Ok(Sub::leaf(alloc, Expr::Field(field))?),
            None => Err(ExprFault::NotExpr),
        }
    }

    /// A part of the payload, or all of it, behind `_event.data`.
    #[tactic(auto, using(crate::proofs::Rules::depths))]
    fn payload(&mut self, alloc: Global) -> Result<Sub, ExprFault>
        ensures { ReadsExpr payload self.old result self.new }
    {
        if !self.is_at(Mark::Dot) {
            return Ok(Sub::leaf(alloc, Expr::Field(EventField::Payload))?);
        }
        self.skip(alloc)?;
        let word = self.word(alloc)?;
        let name = plain_name(alloc, &word)?;
        Ok(Sub::leaf(alloc, Expr::Field(EventField::PayloadOf(name)))?)
    }
}

fn is(a: &[u8], b: &[u8]) -> bool
    ensures { result ≡ bytes_eq a.now b.now }
{
    a == b
}

/// The field of the event that a word names, other than its payload.
fn field_of(word: &[u8]) -> Option<EventField>
    ensures { result ≡ field_of word.now }
{
    if is(b"name", word) {
        Some(EventField::Name)
    } else if is(b"type", word) {
        Some(EventField::Kind)
    } else if is(b"sendid", word) {
        Some(EventField::SendId)
    } else if is(b"origin", word) {
        Some(EventField::Origin)
    } else if is(b"origintype", word) {
        Some(EventField::OriginType)
    } else if is(b"invokeid", word) {
        Some(EventField::InvokeId)
    } else {
        None
    }
}

/// How loosely an operator binds: 2 binds closest.
fn looseness(op: Op) -> u8
    ensures value { result ≡ looseness op }
    ensures closest { 2 ≤ result }
    ensures loosest { result ≤ 6 }
{
    match op {
        Op::Or => 6,
        Op::And => 5,
        Op::Eq | Op::Ne | Op::Lt | Op::Le | Op::Gt | Op::Ge => 4,
        Op::Add | Op::Sub => 3,
        Op::Mul | Op::Div | Op::Rem => 2,
    }
}

fn repeats(op: Op) -> bool
    ensures { result ≡ repeats op }
{
    looseness(op) != 4
}

/// How close the operators may bind that come behind the operands of this one.
fn closest_behind(op: Op) -> u8
    ensures { result ≡ closest_behind op }
{
    if repeats(op) {
        looseness(op)
    } else {
        looseness(op) + 1
    }
}

fn plain_name(alloc: Global, word: &Bytes) -> Result<PlainName, ExprFault>
    ensures ok { IfOk result (λ n. (n ≡ word.now) × IsPlainName word.now) }
    ensures refused { result ≡ Err ExprFault.NotExpr → ¬ IsPlainName word.now }
{
    match PlainName::of(alloc, word.slice()) {
        Ok(name) => Ok(name),
        Err(Unfit::Form) => Err(ExprFault::NotExpr),
        Err(Unfit::NoMemory) => Err(ExprFault::NoMemory),
    }
}
