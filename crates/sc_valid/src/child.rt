ghost use Rattle.std.specs.Prelude.{◌≡◌, ◌&&◌, ◌∷◌, [], length};
ghost use Rattle.sc_types.specs.declared.chart.Tag.TheVariants as tag_name;
ghost use Rattle.sc_law.specs.Nodes.{element, parent, is_tag};
ghost use Rattle.sc_law.specs.Legality.{is_among, is_single, has_kid, has_earlier, is_in_finalize, is_bad_kid, is_bad_child};

use crate::index::ChartIndex;
use crate::tags::{is_any, is_single, is_tag, may_hold};
use sc_types::Tag;

impl<'c> ChartIndex<'c> {
    pub(crate) fn is_bad_child(&self, path: &[usize]) -> bool
        ensures { result ≡ is_bad_child self.now path.now }
    {
        let tag = self.tag(path);
        if path.is_empty() {
            return !is_tag(Tag::Scxml, tag);
        }
        self.is_bad_kid(path, self.parent(path).tag, tag)
    }

    fn is_bad_kid(&self, path: &[usize], above: Tag, tag: Tag) -> bool
        ensures { result ≡ is_bad_kid self.now path.now above tag }
    {
        !may_hold(above, tag)
            || self.is_one_more(path, above, tag)
            || self.is_beside_content(path, above, tag)
            || self.sends_in_finalize(path, tag)
            || self.is_behind_else(path, above, tag)
    }

    /// Whether one stands before it, where at most one may stand.
    fn is_one_more(&self, path: &[usize], above: Tag, tag: Tag) -> bool
        ensures { result ≡ (is_single above tag && has_earlier tag self.now path.now) }
    {
        is_single(above, tag) && is_any(tag, self.earlier(path))
    }

    fn is_beside_content(&self, path: &[usize], above: Tag, tag: Tag) -> bool
        ensures { result ≡ (is_tag tag_name.DoneData above && is_tag tag_name.Param tag
            && has_kid tag_name.Content (element self.now (parent path.now))) }
    {
        is_tag(Tag::DoneData, above) && is_tag(Tag::Param, tag) && self.is_with_content(path)
    }

    fn sends_in_finalize(&self, path: &[usize], tag: Tag) -> bool
        ensures { result ≡ (is_among (tag_name.Raise ∷ tag_name.Send ∷ []) tag
            && is_in_finalize self.now (length path.now) path.now) }
    {
        matches!(tag, Tag::Raise | Tag::Send) && self.is_in_finalize(path)
    }

    /// Whether a finalize stands somewhere above.
    fn is_in_finalize(&self, path: &[usize]) -> bool
        ensures { result ≡ is_in_finalize self.now (length path.now) path.now }
    {
        let mut count = path.len();
        while count > 0 {
            count -= 1;
            if is_tag(Tag::Finalize, self.tag(&path[..count])) {
                return true;
            }
        }
        false
    }

    fn is_behind_else(&self, path: &[usize], above: Tag, tag: Tag) -> bool
        ensures { result ≡ (is_tag tag_name.If above && is_among (tag_name.ElseIf ∷ tag_name.Else ∷ []) tag
            && has_earlier tag_name.Else self.now path.now) }
    {
        is_tag(Tag::If, above)
            && matches!(tag, Tag::ElseIf | Tag::Else)
            && self.has_earlier_else(path)
    }
}
