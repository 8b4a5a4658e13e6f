//! The children of an aggregate, one after the other.

ghost use Rattle.std.specs.Prelude.{◌≡◌, ◌+◌, ◌<◌, ◌≤◌, ◌^◌, ◌∷◌, [], length, IfNone, IfSome};
ghost use Rattle.std.specs.Iterator.{YieldsFirst, item_count};
ghost use Rattle.ofx_tree.specs.ItemView.{items_at, BeginsWithItem};
ghost use Rattle.ofx_tree.specs.NamedChildren.{present, present_as_one_of};

use crate::cursor::Cursor;
use ofx_tape::Node;
use std::marker::Model;

/// The children that are still to come, in the order of the body.
#[derive(Debug, Drop)]
pub struct Children<'t> {
    nodes: &'t [Node<'t>],
    index: usize,
}

impl<'t> Model for Children<'t> {
    ghost use Rattle.std.specs.Prelude.{◌+◌, ◌<◌, ◌^◌, List, length};
    ghost use Rattle.ofx_types.specs.Nodes.{Item};
    ghost use Rattle.ofx_tree.specs.ItemView.{items_at};

    ghost Value = { List Item };

    ghost view = { λ c. items_at c.index c.nodes.now };

    ghost invariant = { λ c. c.index + length c.nodes.now < 2 ^ 64 };
}

impl<'t> Children<'t> {
    /// The items among nodes of which the first has this index.
    pub(crate) fn new(index: usize, nodes: &'t [Node<'t>]) -> Children<'t>
        requires { index + length nodes.now < 2 ^ 64 }
        ensures { result ≡ items_at index nodes.now }
    {
        Children { nodes, index }
    }

    /// The next child of this name. An element whose trimmed value is empty counts as absent.
    pub(crate) fn next_named(&mut self, name: &[u8]) -> Option<Cursor<'t>>
        ensures none { IfNone result (present name.now self.old ≡ []) }
        ensures some { IfSome result (λ child. present name.now self.old ≡ child ∷ present name.now self.new) }
    {
        while let Some(child) = self.next() {
            if child.holds(name) {
                return Some(child);
            }
        }
        None
    }

    /// The next child with one of three names. An element whose trimmed value is empty counts as absent.
    pub(crate) fn next_one_of(
        &mut self,
        first: &[u8],
        second: &[u8],
        third: &[u8],
    ) -> Option<Cursor<'t>>
        ensures none { IfNone result (present_as_one_of (first.now ∷ second.now ∷ third.now ∷ []) self.old ≡ []) }
        ensures some { IfSome result (λ child. present_as_one_of (first.now ∷ second.now ∷ third.now ∷ []) self.old ≡ child ∷ present_as_one_of (first.now ∷ second.now ∷ third.now ∷ []) self.new) }
    {
        while let Some(child) = self.next() {
            if child.holds_one_of(first, second, third) {
                return Some(child);
            }
        }
        None
    }
}

impl<'t> Iterator for Children<'t> {
    type Item = Cursor<'t>;

    ghost next_gives = { YieldsFirst (λ s. s) };

    ghost remaining = { item_count (λ s. s) };

    #[tactic(auto, using(crate::proofs::Items::no_items))]
    fn next(&mut self) -> Option<Cursor<'t>> {
        let index = self.index;
        let nodes = self.nodes;
        if nodes.is_empty() {
            return None;
        }
        let size = size_of_first(index, nodes);
        *self = Children::new(index + size, &nodes[size..]);
        Some(Cursor::new(&nodes[0], index + 1, &nodes[1..size]))
    }
}

/// The number of nodes of the first item: its own and its inner ones. None of them lies after the parent's, whatever the
/// node says.
#[tactic(auto, using(crate::proofs::Items::first_item))]
fn size_of_first(index: usize, nodes: &[Node<'_>]) -> usize
    requires { 0 < length nodes.now }
    ensures inside { (0 < result) × (result ≤ length nodes.now) }
    ensures first { BeginsWithItem index result nodes.now }
{
    nodes[0].after.saturating_sub(index).clamp(1, nodes.len())
}
