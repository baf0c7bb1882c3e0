ghost use Rattle.std.specs.Prelude.{◌≡◌, ◌↔◌, IsTrue, IfOk, find};
ghost use Rattle.std.specs.Str.{bytes_eq};
ghost use Rattle.std.proofs.Common.{rules};
ghost use Rattle.sc_types.specs.Elements.{tag_text, tag_of, is_state, is_numbered};

use crate::expr::Expr;
use sc_base::{Bytes, NoMemory, Plain, Sequence};
use std::alloc::AllocError;

/// The SCXML element that a node stands for.
#[derive(Clone, Copy, Debug, PartialEq, Eq)]
pub enum Tag {
    Scxml,
    State,
    Parallel,
    Final,
    History,
    Initial,
    Transition,
    OnEntry,
    OnExit,
    Finalize,
    DataModel,
    DataItem,
    DoneData,
    Content,
    Param,
    Invoke,
    Raise,
    If,
    ElseIf,
    Else,
    ForEach,
    Log,
    Assign,
    Send,
    Cancel,
}

/// All tags.
pub const TAGS: [Tag; 25] = [
    Tag::Scxml,
    Tag::State,
    Tag::Parallel,
    Tag::Final,
    Tag::History,
    Tag::Initial,
    Tag::Transition,
    Tag::OnEntry,
    Tag::OnExit,
    Tag::Finalize,
    Tag::DataModel,
    Tag::DataItem,
    Tag::DoneData,
    Tag::Content,
    Tag::Param,
    Tag::Invoke,
    Tag::Raise,
    Tag::If,
    Tag::ElseIf,
    Tag::Else,
    Tag::ForEach,
    Tag::Log,
    Tag::Assign,
    Tag::Send,
    Tag::Cancel,
];

impl Tag {
    /// The name of the element.
    pub fn text(self) -> &'static str
        ensures { result.now ≡ tag_text self }
    {
        match self {
            Tag::Scxml => "scxml",
            Tag::State => "state",
            Tag::Parallel => "parallel",
            Tag::Final => "final",
            Tag::History => "history",
            Tag::Initial => "initial",
            Tag::Transition => "transition",
            Tag::OnEntry => "onentry",
            Tag::OnExit => "onexit",
            Tag::Finalize => "finalize",
            Tag::DataModel => "datamodel",
            Tag::DataItem => "data",
            Tag::DoneData => "donedata",
            Tag::Content => "content",
            Tag::Param => "param",
            Tag::Invoke => "invoke",
            Tag::Raise => "raise",
            Tag::If => "if",
            Tag::ElseIf => "elseif",
            Tag::Else => "else",
            Tag::ForEach => "foreach",
            Tag::Log => "log",
            Tag::Assign => "assign",
            Tag::Send => "send",
            Tag::Cancel => "cancel",
        }
    }

    /// The element of this name.
    pub fn of(text: &[u8]) -> Option<Tag>
        ensures { result ≡ tag_of text.now }
    {
        tag_named(&TAGS, text)
    }

    /// Whether elements of this tag are states. Histories are none.
    pub fn is_state(self) -> bool
        ensures { result ≡ is_state self }
    {
        matches!(self, Tag::State | Tag::Parallel | Tag::Final)
    }

    /// Whether elements of this tag are numbered: states and histories.
    pub fn is_numbered(self) -> bool
        ensures { result ≡ is_numbered self }
    {
        matches!(self, Tag::State | Tag::Parallel | Tag::Final | Tag::History)
    }
}

fn tag_named(tags: &[Tag], text: &[u8]) -> Option<Tag>
    ensures { result ≡ find (λ t. bytes_eq (tag_text t) text.now) tags.now }
{
    for tag in tags {
        if tag.text().as_bytes() == text {
            return Some(*tag);
        }
    }
    None
}

/// The value of an attribute of an element.
#[derive(Clone, Drop)]
pub enum Member {
    /// The text as given.
    Plain(Bytes),
    /// The words of `initial`, of `event` and `target` of a transition, and of `namelist`.
    Items(Sequence<Bytes>),
    /// An attribute that is an expression.
    Code(Expr),
}

/// An element: its tag, its attributes in ascending order of their names, and its child elements.
#[derive(Drop)]
pub struct Node {
    pub tag: Tag,
    pub members: Sequence<(Bytes, Member)>,
    pub kids: Sequence<Node>,
}

/// A state chart, as the tree of its elements.
#[derive(Clone, Drop)]
pub struct Chart {
    pub root: Node,
}

/// Why a text is no chart: the number of the fault, the places among `kids` that lead from the root to the
/// element, and the name of the attribute where the fault is one of an expression.
#[derive(Clone, Debug, Drop, PartialEq, Eq)]
pub struct ChartFault {
    pub number: u8,
    pub path: Sequence<u32>,
    pub member: Bytes,
}

/// Why a chart is refused: its first fault, or the program was out of memory.
#[derive(Clone, Debug, Drop, PartialEq, Eq)]
pub enum ChartRefusal {
    Fault(ChartFault),
    NoMemory,
}

impl From<NoMemory> for ChartRefusal {
    ghost use Rattle.std.specs.Prelude.{◌≡◌};
    ghost use Rattle.sc_types.specs.declared.chart.ChartRefusal.TheVariants.{NoMemory};

    ghost from_gives = { λ _ e. e ≡ NoMemory };

    fn from(_error: NoMemory) -> ChartRefusal {
        ChartRefusal::NoMemory
    }
}

impl Plain for Tag {
    ghost clone_equals = { Prim.search rules };
}

impl Plain for Member {
    ghost clone_equals = { Prim.search rules };
}

impl Plain for Chart {
    ghost clone_equals = { Prim.search rules };
}

impl Plain for ChartFault {
    ghost clone_equals = { Prim.search rules };
}

impl Clone for Node {
    ghost is_clone = { λ n copy. copy ≡ n };

    fn clone(&self) -> Result<Self, AllocError> {
        match copy_node(self) {
            Ok(node) => Ok(node),
            Err(NoMemory) => Err(AllocError),
        }
    }
}

impl Plain for Node {
    ghost clone_equals = { λ n copy same. same };
}

#[cycle(copy)]
fn copy_node(node: &Node) -> Result<Node, NoMemory>
    ensures { IfOk result (λ c. c ≡ node.now) }
{
    Ok(Node {
        tag: node.tag,
        members: node.members.copy()?,
        kids: copy_nodes(&node.kids)?,
    })
}

#[cycle(copy)]
fn copy_nodes(nodes: &Sequence<Node>) -> Result<Sequence<Node>, NoMemory>
    ensures { IfOk result (λ c. c ≡ nodes.now) }
{
    let mut copy = Sequence::new(nodes.allocator());
    for node in nodes.slice() {
        copy.push(copy_node(node)?)?;
    }
    Ok(copy)
}
