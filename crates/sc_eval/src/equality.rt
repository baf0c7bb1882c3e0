ghost use Rattle.std.specs.Prelude.{◌≡◌};
ghost use Rattle.sc_law.specs.Evaluation.{same_value};
ghost use Rattle.sc_eval.specs.Lists.{same_lists};

use sc_types::Value;

/// Whether two values are equal; those of two kinds never are.
#[cycle(same)]
#[tactic(auto, using(crate::proofs::Same::same_layers))]
pub(crate) fn same_value(a: &Value, b: &Value) -> bool
    ensures { result ≡ same_value a.now b.now }
{
    match (a, b) {
        (Value::Bool(a), Value::Bool(b)) => a == b,
        (Value::Int(a), Value::Int(b)) => a == b,
        (Value::Text(a), Value::Text(b)) => a.slice() == b.slice(),
        (Value::List(a), Value::List(b)) => same_lists(a.slice(), b.slice()),
        _ => false,
    }
}

#[cycle(same)]
#[tactic(auto, using(crate::proofs::Same::same_layers))]
fn same_lists(a: &[Value], b: &[Value]) -> bool
    ensures { result ≡ same_lists a.now b.now }
{
    if a.len() != b.len() {
        return false;
    }
    for i in 0..a.len() {
        if !same_value(&a[i], &b[i]) {
            return false;
        }
    }
    true
}
