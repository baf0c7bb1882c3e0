ghost use Rattle.std.specs.Prelude.{◌≡◌, ◌<◌, ◌&&◌};
ghost use Rattle.std.specs.List.{list_all, list_any};
ghost use Rattle.sc_base.specs.Ascending.{contains};
ghost use Rattle.sc_law.specs.Configurations.{children};
ghost use Rattle.sc_law.specs.Entering.{is_in_final};
ghost use Rattle.sc_law.specs.Kinds.{is_final};
ghost use Rattle.sc_law.specs.Tree.{state_count};

use sc_bits::Row;
use sc_tables::Tables;
use sc_types::StateKind;

/// Whether a state is done: a compound one with an active final, or a parallel one whose child states are all done. So
/// many levels at most. SCXML Appendix D, isInFinalState.
#[cycle(done)]
pub(crate) fn is_in_final(t: &Tables, conf: &Row, levels: u32, s: u32) -> bool
    requires width { conf.now.width ≡ state_count t.now }
    requires small { state_count t.now < 4294967296 }
    requires s { s < state_count t.now }
    ensures { result ≡ is_in_final t.now conf.now.members levels s }
{
    if levels == 0 {
        return false;
    }
    match t.kind(s) {
        StateKind::Compound => has_final(t, conf, s),
        StateKind::Parallel => are_in_final(t, conf, levels - 1, s),
        _ => false,
    }
}

/// Whether all child states of a parallel are done.
#[cycle(done)]
fn are_in_final(t: &Tables, conf: &Row, levels: u32, s: u32) -> bool
    requires width { conf.now.width ≡ state_count t.now }
    requires small { state_count t.now < 4294967296 }
    requires s { s < state_count t.now }
    ensures { result ≡ list_all (is_in_final t.now conf.now.members levels) (children t.now s) }
{
    let children = t.children(s);
    let mut from = 0;
    while let Some(child) = children.next(from) {
        if !is_in_final(t, conf, levels, child) {
            return false;
        }
        from = child + 1;
    }
    true
}

fn is_active_final(t: &Tables, conf: &Row, s: u32) -> bool
    requires width { conf.now.width ≡ state_count t.now }
    requires s { s < state_count t.now }
    ensures { result ≡ (contains conf.now.members s && is_final t.now s) }
{
    conf.has(s) && t.is_final(s)
}

/// Whether a child state is an active final.
fn has_final(t: &Tables, conf: &Row, s: u32) -> bool
    requires width { conf.now.width ≡ state_count t.now }
    requires small { state_count t.now < 4294967296 }
    requires s { s < state_count t.now }
    ensures { result ≡ list_any (λ a. contains conf.now.members a && is_final t.now a) (children t.now s) }
{
    let children = t.children(s);
    let mut from = 0;
    while let Some(child) = children.next(from) {
        if is_active_final(t, conf, child) {
            return true;
        }
        from = child + 1;
    }
    false
}
