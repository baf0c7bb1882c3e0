ghost use Rattle.std.specs.Prelude.{◌≡◌, ◌+◌, ◌≤◌, drop, length};
ghost use Rattle.sc_law.specs.Content.{is_else};
ghost use Rattle.sc_exec.specs.Branches.{branch_len};

use sc_types::{Node, Tag};

fn is_else(tag: Tag) -> bool
    ensures { result ≡ is_else tag }
{
    matches!(tag, Tag::ElseIf | Tag::Else)
}

/// Where a branch of an `if` ends that begins at this place among the child elements: at the next `elseif` or `else`,
/// or behind the last.
pub(crate) fn branch_end(kids: &[Node], start: usize) -> usize
    requires { start ≤ length kids.now }
    ensures value { result ≡ start + branch_len (drop start kids.now) }
    ensures within { (start ≤ result) × (result ≤ length kids.now) }
{
    for place in start..kids.len() {
        if is_else(kids[place].tag) {
            return place;
        }
    }
    kids.len()
}
