ghost use Rattle.std.specs.Prelude.{◌≡◌, ◌++◌, None, IfOk, OnOk, map, option_map};
ghost use Rattle.std.specs.Option.{option_copied};
ghost use Rattle.std.specs.Result.{result_ok};
ghost use Rattle.sc_types.specs.Attributes.{members_of};
ghost use Rattle.sc_types.specs.declared.chart.Tag.TheVariants as tag;
ghost use Rattle.sc_law.specs.Evaluation.{datum};
ghost use Rattle.sc_law.specs.Nodes.{is_tag, tag_of};
ghost use Rattle.sc_law.specs.Runs.{pairs_data};
ghost use Rattle.sc_law.specs.Sending.{child_of, content_of, names_of, param, param_value, params_of, payload_from};
ghost use Rattle.sc_eval.specs.Envs.{env_of, HasIds};
ghost use Rattle.sc_exec.specs.Runs.{running_of, KeepsRows};
ghost use Rattle.sc_exec.specs.Children.{first_with};

use crate::events::enqueue_failure;
use crate::running::Running;
use crate::values::{datum_name, text_or_none, value_of};
use sc_base::{Bytes, NoMemory, Sequence, SharedBytes};
use sc_eval::{Env, EvalFault, datum};
use sc_types::{Attribute, Data, Node, PairList, Tag, Value};
use std::alloc::Global;

/// The value of a datum, where it has one.
fn datum_value(alloc: Global, env: &Env, name: &[u8]) -> Result<Option<Value>, NoMemory>
    ensures { IfOk result (λ v. v ≡ result_ok (datum name.now (env_of env.now))) }
{
    match datum(alloc, env, name) {
        Ok(value) => Ok(Some(value)),
        Err(EvalFault::NoMemory) => Err(NoMemory),
        Err(_) => Ok(None),
    }
}

/// The data of these names, as `namelist` gives them; nothing where one of them has no value. SCXML 6.2.1.
pub fn named_pairs(alloc: Global, env: &Env, names: &[Bytes]) -> Result<Option<PairList>, NoMemory>
    ensures { IfOk result (λ pairs. pairs ≡ names_of names.now (env_of env.now)) }
{
    let mut pairs = Sequence::new(alloc);
    for name in names {
        let Some(value) = datum_value(alloc, env, name.slice())? else {
            return Ok(None);
        };
        pairs.push((datum_name(alloc, name.slice())?, value))?;
    }
    Ok(Some(pairs))
}

fn param_value(alloc: Global, env: &Env, node: &Node) -> Result<Option<Value>, NoMemory>
    requires { HasIds env.now }
    ensures { IfOk result (λ v. v ≡ result_ok (param_value (members_of node.now) (env_of env.now))) }
{
    match node.expr(Attribute::Expr) {
        Some(code) => value_of(alloc, env, code),
        None => datum_value(alloc, env, text_or_none(node, Attribute::Location)),
    }
}

/// One that has no value is left out, and `error.execution` is enqueued. SCXML 5.7.
fn put_param(
    alloc: Global,
    run: &mut Running,
    node: &Node,
    pairs: &mut PairList,
) -> Result<(), NoMemory>
    requires { HasIds run.old.env }
    ensures ok { OnOk result ((pairs.new, running_of run.new)
        ≡ param (members_of node.now) (pairs.old, running_of run.old)) }
    ensures kept { KeepsRows run.old run.new }
{
    match param_value(alloc, &run.env, node)? {
        Some(value) => pairs.push((
            datum_name(alloc, text_or_none(node, Attribute::Name))?,
            value,
        )),
        None => enqueue_failure(alloc, run, SharedBytes::empty()),
    }
}

fn is_param(node: &Node) -> bool
    ensures { result ≡ is_tag tag.Param (tag_of node.now) }
{
    matches!(node.tag, Tag::Param)
}

/// The pairs of the params among these elements.
#[tactic(auto, using(crate::proofs::Kept::keeping))]
pub fn params(alloc: Global, run: &mut Running, kids: &[Node]) -> Result<PairList, NoMemory>
    requires { HasIds run.old.env }
    ensures ok { IfOk result (λ pairs. (pairs, running_of run.new)
        ≡ params_of (map child_of kids.now) (running_of run.old)) }
    ensures kept { KeepsRows run.old run.new }
{
    let mut pairs = Sequence::new(alloc);
    for kid in kids {
        if is_param(kid) {
            put_param(alloc, run, kid, &mut pairs)?;
        }
    }
    Ok(pairs)
}

/// One that has no value is the empty text, and `error.execution` is enqueued. SCXML 5.6.
fn content(alloc: Global, run: &mut Running, node: &Node) -> Result<Data, NoMemory>
    requires { HasIds run.old.env }
    ensures ok { IfOk result (λ found. (found, running_of run.new)
        ≡ content_of (members_of node.now) (running_of run.old)) }
    ensures kept { KeepsRows run.old run.new }
{
    let Some(code) = node.expr(Attribute::Expr) else {
        return Ok(Data::One(Value::Text(Bytes::new(alloc))));
    };
    match value_of(alloc, &run.env, code)? {
        Some(value) => Ok(Data::One(value)),
        None => {
            enqueue_failure(alloc, run, SharedBytes::empty())?;
            Ok(Data::One(Value::Text(Bytes::new(alloc))))
        }
    }
}

fn pairs_data(named: PairList, given: PairList) -> Result<Data, NoMemory>
    ensures { IfOk result (λ found. found ≡ pairs_data (named ++ given)) }
{
    let mut pairs = named.into_vec();
    let mut more = given.into_vec();
    if pairs.append(&mut more).is_err() {
        return Err(NoMemory);
    }
    if pairs.is_empty() {
        return Ok(Data::Absent);
    }
    Ok(Data::Pairs(Sequence::from_vec(pairs)))
}

fn first_content(kids: &[Node]) -> Option<&Node>
    ensures { option_copied result ≡ first_with tag.Content kids.now }
{
    kids.iter().find(|kid| matches!(kid.tag, Tag::Content))
}

/// The data of a send, or of a `donedata`: the named pairs and the params, or the content, where there is one. Nothing
/// where a name of `namelist` has no value; the run is as it was then. SCXML 5.5, 5.6 and 6.2.
#[tactic(auto, using(crate::proofs::Kept::keeping))]
pub fn payload(
    alloc: Global,
    run: &mut Running,
    names: &[Bytes],
    kids: &[Node],
) -> Result<Option<Data>, NoMemory>
    requires { HasIds run.old.env }
    ensures ok { IfOk result (λ found. payload_from names.now (map child_of kids.now) (running_of run.old)
        ≡ option_map (λ payload. (payload, running_of run.new)) found) }
    ensures none { IfOk result (λ found. found ≡ None → run.new ≡ run.old) }
    ensures kept { KeepsRows run.old run.new }
{
    let Some(named) = named_pairs(alloc, &run.env, names)? else {
        return Ok(None);
    };
    let given = params(alloc, run, kids)?;
    match first_content(kids) {
        Some(node) => Ok(Some(content(alloc, run, node)?)),
        None => Ok(Some(pairs_data(named, given)?)),
    }
}
