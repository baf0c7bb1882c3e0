ghost use Rattle.std.specs.Prelude.{◌≡◌, IfOk, option_map, nat_lt, false};
ghost use Rattle.std.specs.Option.{option_copied, option_map_or};
ghost use Rattle.sc_types.specs.Elements.{is_numbered};
ghost use Rattle.sc_types.specs.declared.attribute.Attribute.TheVariants as attribute;
ghost use Rattle.sc_types.specs.declared.chart.Tag.TheVariants as tag_name;
ghost use Rattle.sc_law.specs.Nodes.{tag_of, elements, element, parent, is_tag};
ghost use Rattle.sc_law.specs.Legality.{own_place, earlier, path_named, is_repeated, is_double_id, has_earlier, has_kid};
ghost use Rattle.sc_valid.specs.FirstKids.{first_kid};
ghost use Rattle.sc_valid.specs.Firsts.{first_of, HasFirsts, is_later};

use crate::first_kids::{FirstKids, first_kid};
use crate::firsts::Firsts;
use sc_law::{Path, element};
use sc_types::{Attribute, Chart, NoMemory, Node, Plain, Tag};
use std::alloc::Global;
use std::marker::Model;

/// A chart, the first element of each id among states, among invokes and among data, and the first `else` of each `if`
/// and `content` of each `donedata`.
#[derive(Drop)]
pub(crate) struct ChartIndex<'c> {
    chart: &'c Chart,
    states: Firsts,
    invokes: Firsts,
    data_items: Firsts,
    elses: FirstKids,
    contents: FirstKids,
}

impl<'c> Model for ChartIndex<'c> {
    ghost use Rattle.sc_types.specs.Elements.{is_numbered};
    ghost use Rattle.sc_types.specs.declared.chart.Chart.{Chart};
    ghost use Rattle.sc_types.specs.declared.chart.Tag.TheVariants as tag_name;
    ghost use Rattle.sc_types.specs.contracts.chart.Chart as chart_type;
    ghost use Rattle.sc_law.specs.Nodes.{is_tag};
    ghost use Rattle.std.specs.Coded.{codes};
    ghost use Rattle.sc_valid.specs.FirstKids.{AreRight};
    ghost use Rattle.sc_valid.specs.Firsts.{HasFirsts};

    ghost Value = { Chart };

    ghost coded = { Prim.hlevel (codes, chart_type.the_row.coded) };

    ghost view = { λ i. i.chart.now };

    ghost invariant = { λ i. HasFirsts i.states is_numbered i.chart.now
        × HasFirsts i.invokes (is_tag tag_name.Invoke) i.chart.now
        × HasFirsts i.data_items (is_tag tag_name.DataItem) i.chart.now
        × AreRight i.elses tag_name.Else i.chart.now × AreRight i.contents tag_name.Content i.chart.now };
}

impl<'c> ChartIndex<'c> {
    /// The index of a chart whose elements have these paths.
    pub(crate) fn new(
        alloc: Global,
        chart: &'c Chart,
        paths: &[Path],
    ) -> Result<ChartIndex<'c>, NoMemory>
        requires { paths.now ≡ elements chart.now }
        ensures { IfOk result (λ i. i ≡ chart.now) }
    {
        let mut states = Firsts::new(alloc);
        let mut invokes = Firsts::new(alloc);
        let mut data_items = Firsts::new(alloc);
        let mut elses = FirstKids::new(alloc);
        let mut contents = FirstKids::new(alloc);
        for path in paths {
            let node = element(chart, path.slice());
            states.add(alloc, node.tag.is_numbered(), node, path)?;
            invokes.add(alloc, is_invoke(node.tag), node, path)?;
            data_items.add(alloc, is_data_item(node.tag), node, path)?;
            elses.add(is_if(node.tag), Tag::Else, node, path)?;
            contents.add(is_done_data(node.tag), Tag::Content, node, path)?;
        }
        Ok(ChartIndex {
            chart,
            states,
            invokes,
            data_items,
            elses,
            contents,
        })
    }

    pub(crate) fn root(&self) -> &Node
        ensures { result.now ≡ self.now.root }
    {
        &self.chart.root
    }

    pub(crate) fn element(&self, path: &[usize]) -> &Node
        ensures { result.now ≡ element self.now path.now }
    {
        element(self.chart, path)
    }

    pub(crate) fn tag(&self, path: &[usize]) -> Tag
        ensures { result ≡ tag_of (element self.now path.now) }
    {
        self.element(path).tag
    }

    /// The parent of an element; the root's is the root.
    pub(crate) fn parent(&self, path: &[usize]) -> &Node
        ensures { result.now ≡ element self.now (parent path.now) }
    {
        self.element(parent(path))
    }

    /// The child elements of the parent that stand before an element.
    pub(crate) fn earlier(&self, path: &[usize]) -> &[Node]
        ensures { result.now ≡ earlier self.now path.now }
    {
        let kids = self.parent(path).kids.slice();
        let place = own_place(path);
        if place < kids.len() {
            &kids[..place]
        } else {
            kids
        }
    }

    /// Whether an `else` stands before an element below the same parent.
    pub(crate) fn has_earlier_else(&self, path: &[usize]) -> bool
        ensures { result ≡ has_earlier tag_name.Else self.now path.now }
    {
        is_before(self.first_else(parent(path)), own_place(path))
    }

    /// Whether the parent of an element has a `content`.
    pub(crate) fn is_with_content(&self, path: &[usize]) -> bool
        ensures { result ≡ has_kid tag_name.Content (element self.now (parent path.now)) }
    {
        self.first_content(parent(path)).is_some()
    }

    /// The place of the first `else` in an element. The table has it for each `if`.
    fn first_else(&self, path: &[usize]) -> Option<usize>
        ensures { result ≡ first_kid tag_name.Else (element self.now path.now) }
    {
        match self.elses.find(path) {
            Some(place) => *place,
            None => first_kid(Tag::Else, self.element(path)),
        }
    }

    /// The place of the first `content` in an element. The table has it for each `donedata`.
    fn first_content(&self, path: &[usize]) -> Option<usize>
        ensures { result ≡ first_kid tag_name.Content (element self.now path.now) }
    {
        match self.contents.find(path) {
            Some(place) => *place,
            None => first_kid(Tag::Content, self.element(path)),
        }
    }

    /// The path of the state of an id.
    pub(crate) fn path_named(&self, id: &[u8]) -> Option<&Path>
        ensures { option_copied result ≡ path_named self.now id.now }
    {
        self.states.find(id)
    }

    pub(crate) fn is_double_id(&self, path: &[usize]) -> bool
        ensures { result ≡ is_double_id self.now path.now }
    {
        let node = self.element(path);
        node.tag.is_numbered() && is_later(&self.states, node.text(Attribute::Id), path)
    }

    /// Whether an earlier invoke has the id of this one.
    pub(crate) fn is_double_invoke(&self, path: &[usize]) -> bool
        ensures { result ≡ is_repeated (is_tag tag_name.Invoke) attribute.Id self.now path.now }
    {
        let node = self.element(path);
        is_invoke(node.tag) && is_later(&self.invokes, node.text(Attribute::Id), path)
    }

    /// Whether an earlier datum has the id of this one.
    pub(crate) fn is_double_datum(&self, path: &[usize]) -> bool
        ensures { result ≡ is_repeated (is_tag tag_name.DataItem) attribute.Id self.now path.now }
    {
        let node = self.element(path);
        is_data_item(node.tag) && is_later(&self.data_items, node.text(Attribute::Id), path)
    }
}

fn is_invoke(tag: Tag) -> bool
    ensures { result ≡ is_tag tag_name.Invoke tag }
{
    matches!(tag, Tag::Invoke)
}

fn is_data_item(tag: Tag) -> bool
    ensures { result ≡ is_tag tag_name.DataItem tag }
{
    matches!(tag, Tag::DataItem)
}

fn is_if(tag: Tag) -> bool
    ensures { result ≡ is_tag tag_name.If tag }
{
    matches!(tag, Tag::If)
}

fn is_done_data(tag: Tag) -> bool
    ensures { result ≡ is_tag tag_name.DoneData tag }
{
    matches!(tag, Tag::DoneData)
}

pub(crate) fn parent(path: &[usize]) -> &[usize]
    ensures { result.now ≡ parent path.now }
{
    &path[..path.len().saturating_sub(1)]
}

/// The place of an element among its parent's child elements; 0 for the root.
fn own_place(path: &[usize]) -> usize
    ensures { result ≡ own_place path.now }
{
    match path {
        [] => 0,
        [.., place] => *place,
    }
}

fn is_before(place: Option<usize>, limit: usize) -> bool
    ensures { result ≡ option_map_or (λ place. nat_lt place limit) place false }
{
    match place {
        Some(place) => place < limit,
        None => false,
    }
}

/// Whether the first element of an id is another one.
fn is_later(firsts: &Firsts, id: Option<&[u8]>, path: &[usize]) -> bool
    ensures { result ≡ is_later firsts.now (option_map (λ t. t.now) id.entry) path.now }
{
    match id {
        Some(id) => match firsts.find(id) {
            Some(first) => first.slice() != path,
            None => false,
        },
        None => false,
    }
}
