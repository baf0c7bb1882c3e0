ghost use Rattle.std.specs.Prelude.{◌≡◌, ◌≢◌, ◌<◌, ◌≤◌, ◌+◌, ◌-◌, ◌^◌, nat_lt, ℕ, [], ◌∷◌, Option, None, Some, Ok, Err, IfOk, OnOk, length, if◌then◌else◌};
ghost use Rattle.std.specs.Option.{option_map_or};
ghost use Rattle.sc_types.specs.Elements.{is_numbered, attribute_text};
ghost use Rattle.sc_chart_json.specs.Trees.{view, items_view};
ghost use Rattle.sc_types.specs.ChartTexts.{chart_of, fault, own_fault, many_fault, bad_code, tag_at, kid_places, places, value_fault, value_chart, members_at, profile_at};
ghost use Rattle.sc_types.specs.declared.chart.ChartFault.{ChartFault};
ghost use Rattle.sc_types.specs.declared.faults.TheConstants.{BAD_EXPR, NOT_JSON};
ghost use Rattle.sc_types.specs.declared.limits.TheConstants.{LEVEL_LIMIT, STATE_LIMIT};
ghost use Rattle.sc_types.specs.declared.profile.Profile.{Profile};
ghost use Rattle.sc_expr.specs.Reading.{expr_of};
ghost use Rattle.sc_chart_json.specs.Walking.{place, Stops, levels_at, IsOwn, IsRead, AreRead};

use crate::members::{has_fit_members, has_known_members, kids_at, read_members, text_at};
use crate::room::with_room;
use crate::tree::read_tree;
use json::{Error, Scratch, Value};
use sc_base::{Bytes, Failure, NoMemory, Plain, Sequence};
use sc_types::faults::{
    BAD_EXPR, BAD_MEMBER, NOT_ELEMENT, NOT_JSON, TOO_DEEP, TOO_LARGE, TOO_MANY, UNKNOWN_MEMBER,
    UNKNOWN_TAG,
};
use sc_types::{
    Attribute, CHART_TEXT_LIMIT, Chart, ChartFault, ChartRefusal, LEVEL_LIMIT, Member, Node,
    Profile, STATE_LIMIT, Tag,
};
use std::alloc::Global;

/// The chart that a text spells, or its first fault.
#[tactic(auto, using(crate::proofs::WholeLemmas::wholes))]
pub fn read_chart(alloc: Global, text: &[u8]) -> Result<Chart, ChartRefusal>
    ensures chart { IfOk result (λ c. chart_of expr_of text.now ≡ Ok c) }
    ensures fault { (f : ChartFault) → result ≡ Err (ChartRefusal.Fault f) → chart_of expr_of text.now ≡ Err f }
{
    if text.len() > CHART_TEXT_LIMIT {
        return Err(fault(alloc, TOO_LARGE));
    }
    let mut scratch = Scratch::new(alloc);
    match read_tree(alloc, text, &mut scratch) {
        Ok(value) => read_root(alloc, &value),
        Err(error) => Err(refusal_of(alloc, error)),
    }
}

/// Why no value was read: memory, or a text that is no JSON. No other error comes.
fn refusal_of(alloc: Global, error: Error) -> ChartRefusal
    ensures not_json { error ≡ Error.Invalid → result ≡ ChartRefusal.Fault (fault NOT_JSON [] []) }
    ensures memory { error ≢ Error.Invalid → result ≡ ChartRefusal.NoMemory }
{
    match error {
        Error::Invalid => fault(alloc, NOT_JSON),
        _ => ChartRefusal::NoMemory,
    }
}

/// A fault of a text as a whole.
fn fault(alloc: Global, number: u8) -> ChartRefusal
    ensures { result ≡ ChartRefusal.Fault (fault number [] []) }
{
    ChartRefusal::Fault(ChartFault {
        number,
        path: Sequence::new(alloc),
        member: Bytes::new(alloc),
    })
}

#[tactic(auto, using(crate::proofs::WalkLemmas::walks))]
fn read_root(alloc: Global, value: &Value<'_>) -> Result<Chart, ChartRefusal>
    ensures chart { IfOk result (λ c. (value_fault expr_of (view value.now) ≡ None)
        × (c ≡ value_chart expr_of (view value.now))) }
    ensures fault { (f : ChartFault) → result ≡ Err (ChartRefusal.Fault f)
        → value_fault expr_of (view value.now) ≡ Some f }
{
    let mut walk = Walk {
        path: Sequence::new(alloc),
        states: 0,
    };
    Ok(Chart {
        root: read_element(alloc, profile_at(value), &mut walk, value)?,
    })
}

/// The profile that a root asks for by its member `values`. Where that is not of its form, the root has a fault.
fn profile_at(value: &Value<'_>) -> Profile
    ensures { result ≡ profile_at (view value.now) }
{
    match text_at(value, "values") {
        Some(text) => Profile::named(text).unwrap_or(Profile::Flat),
        None => Profile::Flat,
    }
}

/// Where a reader stands in the tree, and how many states it has met.
#[derive(Debug, Drop)]
struct Walk {
    path: Sequence<u32>,
    states: u32,
}

/// What an element is without its child elements.
#[derive(Drop)]
struct Own {
    tag: Tag,
    members: Sequence<(Bytes, Member)>,
}

impl Walk {
    /// A fault of the element that the reader stands at.
    fn fault(&self, alloc: Global, number: u8) -> ChartRefusal
        ensures { (f : ChartFault) → result ≡ ChartRefusal.Fault f → fault number self.now.path [] ≡ f }
    {
        self.fault_of(alloc, number, b"")
    }

    fn fault_of(&self, alloc: Global, number: u8, member: &[u8]) -> ChartRefusal
        ensures { (f : ChartFault) → result ≡ ChartRefusal.Fault f → fault number self.now.path member.now ≡ f }
    {
        match self.made_fault(alloc, number, member) {
            Ok(fault) => ChartRefusal::Fault(fault),
            Err(NoMemory) => ChartRefusal::NoMemory,
        }
    }

    fn made_fault(&self, alloc: Global, number: u8, member: &[u8]) -> Result<ChartFault, NoMemory>
        ensures { IfOk result (λ f. f ≡ fault number self.now.path member.now) }
    {
        Ok(ChartFault {
            number,
            path: self.path.copy()?,
            member: Bytes::from_slice(alloc, member)?,
        })
    }

    /// Reads an element without its child elements.
    #[tactic(auto, using(crate::proofs::FaultLemmas::own_faults))]
    fn own(
        &mut self,
        alloc: Global,
        profile: Profile,
        value: &Value<'_>,
    ) -> Result<Own, ChartRefusal>
        requires { self.old.states ≤ STATE_LIMIT }
        ensures ok { IfOk result (IsOwn profile self.old self.new (view value.now)) }
        ensures fault { (f : ChartFault) → result ≡ Err (ChartRefusal.Fault f)
            → own_fault (expr_of profile) self.old.states (place self.old.path (view value.now)) ≡ Some f }
    {
        let tag = self.tag(alloc, value)?;
        if !has_known_members(tag, value) {
            return Err(self.fault(alloc, UNKNOWN_MEMBER));
        }
        if !has_fit_members(tag, value) {
            return Err(self.fault(alloc, BAD_MEMBER));
        }
        let members = self.members(alloc, profile, tag, value)?;
        self.count(alloc, tag)?;
        Ok(Own { tag, members })
    }

    #[tactic(auto, using(crate::proofs::FaultLemmas::tag_faults))]
    fn tag(&self, alloc: Global, value: &Value<'_>) -> Result<Tag, ChartRefusal>
        ensures ok { IfOk result (λ t. (tag_at (view value.now) ≡ Some t) × (length self.now.path < LEVEL_LIMIT)) }
        ensures fault { (f : ChartFault) → result ≡ Err (ChartRefusal.Fault f) → (profile : Profile) (before : ℕ)
            → own_fault (expr_of profile) before (place self.now.path (view value.now)) ≡ Some f }
    {
        let Some(name) = text_at(value, "tag") else {
            return Err(self.fault(alloc, NOT_ELEMENT));
        };
        if self.path.len() >= LEVEL_LIMIT {
            return Err(self.fault(alloc, TOO_DEEP));
        }
        match Tag::of(name) {
            Some(tag) => Ok(tag),
            None => Err(self.fault(alloc, UNKNOWN_TAG)),
        }
    }

    fn members(
        &self,
        alloc: Global,
        profile: Profile,
        tag: Tag,
        value: &Value<'_>,
    ) -> Result<Sequence<(Bytes, Member)>, ChartRefusal>
        ensures ok { IfOk result (λ ms. (bad_code (expr_of profile) tag (view value.now) ≡ None)
            × (ms ≡ members_at (expr_of profile) tag (view value.now))) }
        ensures fault { (f : ChartFault) → result ≡ Err (ChartRefusal.Fault f) → (later : Option ChartFault)
            → option_map_or (λ a. Some (fault BAD_EXPR self.now.path (attribute_text a)))
            (bad_code (expr_of profile) tag (view value.now)) later ≡ Some f }
    {
        match read_members(alloc, profile, tag, value) {
            Ok(members) => Ok(members),
            Err(Failure::Fault(attribute)) => {
                Err(self.fault_of(alloc, BAD_EXPR, attribute.text().as_bytes()))
            }
            Err(Failure::NoMemory) => Err(ChartRefusal::NoMemory),
        }
    }

    /// Counts the element where it is a state.
    fn count(&mut self, alloc: Global, tag: Tag) -> Result<(), ChartRefusal>
        requires { self.old.states ≤ STATE_LIMIT }
        ensures none { OnOk result (many_fault self.old.states self.old.path tag ≡ None) }
        ensures states { OnOk result (self.new.states ≡ self.old.states + (if is_numbered tag then 1 else 0)) }
        ensures few { OnOk result (self.new.states ≤ STATE_LIMIT) }
        ensures path { OnOk result (self.new.path ≡ self.old.path) }
        ensures fault { (f : ChartFault) → result ≡ Err (ChartRefusal.Fault f)
            → many_fault self.old.states self.old.path tag ≡ Some f }
    {
        if !tag.is_numbered() {
            return Ok(());
        }
        if self.states >= STATE_LIMIT {
            return Err(self.fault(alloc, TOO_MANY));
        }
        self.states += 1;
        Ok(())
    }
}

#[cycle(element)]
#[tactic(auto, using(crate::proofs::WalkLemmas::walks))]
fn read_element(
    alloc: Global,
    profile: Profile,
    walk: &mut Walk,
    value: &Value<'_>,
) -> Result<Node, ChartRefusal>
    requires few { walk.old.states ≤ STATE_LIMIT }
    requires shallow { length walk.old.path ≤ LEVEL_LIMIT }
    ensures ok { IfOk result (IsRead profile walk.old walk.new (view value.now)) }
    ensures fault { (f : ChartFault) → result ≡ Err (ChartRefusal.Fault f)
        → Stops profile walk.old.states (places (levels_at walk.old.path) walk.old.path (view value.now)) f }
{
    let own = walk.own(alloc, profile, value)?;
    Ok(Node {
        tag: own.tag,
        members: own.members,
        kids: read_kids(alloc, profile, walk, kids_at(value))?,
    })
}

#[cycle(element)]
#[tactic(auto, using(crate::proofs::WalkLemmas::walks))]
fn read_kids(
    alloc: Global,
    profile: Profile,
    walk: &mut Walk,
    values: &[Value<'_>],
) -> Result<Sequence<Node>, ChartRefusal>
    requires few { walk.old.states ≤ STATE_LIMIT }
    requires shallow { length walk.old.path < LEVEL_LIMIT }
    ensures ok { IfOk result (AreRead profile walk.old walk.new (items_view values.now)) }
    ensures fault { (f : ChartFault) → result ≡ Err (ChartRefusal.Fault f) → Stops profile walk.old.states
        (kid_places (places (LEVEL_LIMIT - length walk.old.path)) walk.old.path 0 (items_view values.now)) f }
{
    let mut kids = with_room(alloc, values.len())?;
    let mut place: u32 = 0;
    for value in values {
        walk.path.push(place)?;
        kids.push(read_element(alloc, profile, walk, value)?)?;
        walk.path.pop();
        // A text of the greatest size has far fewer elements than 32 bits count.
        let Some(next) = next_place(place) else {
            return Err(ChartRefusal::NoMemory);
        };
        place = next;
    }
    Ok(kids)
}

/// The place behind this one, where 32 bits count it.
fn next_place(place: u32) -> Option<u32>
    ensures { result ≡ (if nat_lt (place + 1) (2 ^ 32) then Some (place + 1) else None) }
{
    place.checked_add(1)
}
