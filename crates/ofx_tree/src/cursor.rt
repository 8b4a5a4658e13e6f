//! An element or aggregate of a tape, and its children by name.

ghost use Rattle.std.specs.Prelude.{◌≡◌, ◌+◌, ◌<◌, ◌≤◌, ◌^◌, ◌∷◌, [], length, bytes_eq};
ghost use Rattle.std.specs.List.{list_all};
ghost use Rattle.ofx_types.specs.TextRules.{is_white};
ghost use Rattle.ofx_types.specs.TagNames.{is_one_of};
ghost use Rattle.ofx_types.specs.Nodes.{children};
ghost use Rattle.ofx_types.specs.FormWords.{one, one_of, maybe, is_absent, text_in, text_at, flag_in, flag_at, maybe_flag_in, amount_in, amount_of, moment_in, moment_of, maybe_moment_in, number_in, number_of, id_in, maybe_id_in, ReadsForm};
ghost use Rattle.ofx_types.specs.ValueForm.{value_of};
ghost use Rattle.ofx_types.specs.Nodes.{IsRoot};
ghost use Rattle.ofx_tree.specs.ItemView.{item_view};
ghost use Rattle.ofx_tree.specs.NamedChildren.{holds, holds_one_of};
ghost use Rattle.ofx_tree.specs.Ids.{id_at};
ghost use Rattle.ofx_tree.specs.Root.{AreRead};

use crate::children::Children;
use crate::raw::{amount_of_raw, id_of_raw, moment_of_raw, number_of_raw};
use ofx_tape::{Node, Tape, value_eq, value_into};
use ofx_types::{Cents, Moment, Text, TextFault, TreeFault, is_white_space};
use std::alloc::Global;
use std::marker::Model;

/// An element or an aggregate of a tape (OFX 1.6, "SGML Basics").
///
/// ```rust
/// use ofx_tape::Tape;
/// use ofx_tree::Cursor;
/// use ofx_types::Cents;
///
/// let body = b"<OFX><TRNAMT>-12.05<MEMO>rent &amp; tea</OFX>";
/// let tape = Tape::read(rt.alloc(), body).expect(&rt, "a tape");
/// let ofx = Cursor::root(&tape);
/// assert!(rt; ofx.amount(b"TRNAMT") == Ok(Cents(-1205)));
/// let memo = ofx.text(rt.alloc(), b"MEMO", 255).expect(&rt, "a memo");
/// assert!(rt; memo.as_bytes() == b"rent & tea".as_slice());
/// ```
#[derive(Debug, Drop)]
pub struct Cursor<'t> {
    node: &'t Node<'t>,
    first: usize,
    inner: &'t [Node<'t>],
}

impl<'t> Model for Cursor<'t> {
    ghost use Rattle.std.specs.Prelude.{◌+◌, ◌<◌, ◌^◌, length};
    ghost use Rattle.ofx_types.specs.Nodes.{Item};
    ghost use Rattle.ofx_tree.specs.ItemView.{item_view};

    ghost Value = { Item };

    ghost view = { λ c. item_view c.node.now c.first c.inner.now };

    ghost invariant = { λ c. c.first + length c.inner.now < 2 ^ 64 };
}

impl<'t> Cursor<'t> {
    /// The aggregate OFX of a tape that was read, with all that is in it.
    #[tactic(auto, using(crate::proofs::Root::first_node))]
    pub fn root(tape: &'t Tape<'_>) -> Cursor<'t>
        requires { AreRead tape.now }
        ensures { IsRoot tape.now result }
    {
        let (first, inner) = tape.nodes().split_at(1);
        Cursor::new(&first[0], 1, inner)
    }

    /// A node, the index of its first inner node, and those nodes.
    pub(crate) fn new(node: &'t Node<'t>, first: usize, inner: &'t [Node<'t>]) -> Cursor<'t>
        requires { first + length inner.now < 2 ^ 64 }
        ensures { result ≡ item_view node.now first inner.now }
    {
        Cursor { node, first, inner }
    }

    /// Its name.
    pub fn name(&self) -> &'t [u8]
        ensures { result.now ≡ self.now.node.name }
    {
        self.node.name
    }

    /// The offset of its start tag: the number of the body's bytes before it.
    pub fn offset(&self) -> usize
        ensures { result ≡ self.now.node.offset }
    {
        self.node.at
    }

    /// The bytes between its start tag and the next `<`: an element's value as it is in the body.
    pub fn value(&self) -> &'t [u8]
        ensures { result.now ≡ self.now.node.text }
    {
        self.node.value
    }

    /// Its children, in the order of the body.
    pub fn children(&self) -> Children<'t>
        ensures { result ≡ children self.now }
    {
        Children::new(self.first, self.inner)
    }

    /// The child of this name, which occurs once.
    ///
    /// `Missing` at this aggregate's offset where there is none, `Repeated` at the second one's where several do. An element
    /// whose trimmed value is empty counts as absent.
    pub fn one(&self, name: &[u8]) -> Result<Cursor<'t>, TreeFault>
        ensures { result ≡ one name.now self.now }
    {
        match self.maybe(name)? {
            Some(child) => Ok(child),
            None => Err(TreeFault::Missing(self.node.at as u64)),
        }
    }

    /// The child of this name, which may occur once.
    ///
    /// `Repeated` at the second one's offset where several do. An element whose trimmed value is empty counts as
    /// absent.
    pub fn maybe(&self, name: &[u8]) -> Result<Option<Cursor<'t>>, TreeFault>
        ensures { result ≡ maybe name.now self.now }
    {
        let mut children = self.children();
        let Some(child) = children.next_named(name) else {
            return Ok(None);
        };
        match children.next_named(name) {
            Some(second) => Err(TreeFault::Repeated(second.node.at as u64)),
            None => Ok(Some(child)),
        }
    }

    /// The child with one of three names, which occurs once: just one child has any of them.
    ///
    /// `Missing` at this aggregate's offset where there is none, `Repeated` at the second one's where several do, whether
    /// they have the same name or not. An element whose trimmed value is empty counts as absent.
    pub fn one_of(&self, first: &[u8], second: &[u8], third: &[u8]) -> Result<Cursor<'t>, TreeFault>
        ensures { result ≡ one_of (first.now ∷ second.now ∷ third.now ∷ []) self.now }
    {
        let mut children = self.children();
        let Some(child) = children.next_one_of(first, second, third) else {
            return Err(TreeFault::Missing(self.node.at as u64));
        };
        match children.next_one_of(first, second, third) {
            Some(other) => Err(TreeFault::Repeated(other.node.at as u64)),
            None => Ok(child),
        }
    }

    /// The text of the child of this name, which occurs once: 1 byte up to the limit, trimmed and with its entities
    /// decoded.
    ///
    /// The faults of `one`; `Value` at the child's offset where its value is no such text; `OutOfMemory` where memory for
    /// it is refused.
    #[tactic(auto, unfolding(ofx_types::specs::FormWords::text_in))]
    pub fn text(&self, alloc: Global, name: &[u8], most: u32) -> Result<Text, TreeFault>
        ensures { ReadsForm result (text_in name.now most self.now) }
    {
        let child = self.one(name)?;
        child.own_text(alloc, most)
    }

    /// The flag of the child of this name, which occurs once: `Y` or `N`.
    ///
    /// The faults of `one`; `Value` at the child's offset where its value is any other.
    #[tactic(auto, unfolding(ofx_types::specs::FormWords::flag_in))]
    pub fn flag(&self, name: &[u8]) -> Result<bool, TreeFault>
        ensures { result ≡ flag_in name.now self.now }
    {
        let child = self.one(name)?;
        child.own_flag()
    }

    /// The flag of the child of this name, which may occur once: `Y` or `N`. Where it doesn't occur the flag is `N`.
    ///
    /// The faults of `maybe`; `Value` at the child's offset where its value is any other.
    #[tactic(auto, unfolding(ofx_types::specs::FormWords::maybe_flag_in))]
    pub fn maybe_flag(&self, name: &[u8]) -> Result<bool, TreeFault>
        ensures { result ≡ maybe_flag_in name.now self.now }
    {
        match self.maybe(name)? {
            Some(child) => child.own_flag(),
            None => Ok(false),
        }
    }

    /// The amount of the child of this name, which occurs once. It takes no memory.
    ///
    /// The faults of `one`; `Value` at the child's offset where its value spells no amount.
    #[tactic(auto, unfolding(ofx_types::specs::FormWords::amount_in))]
    pub fn amount(&self, name: &[u8]) -> Result<Cents, TreeFault>
        ensures { result ≡ amount_in name.now self.now }
    {
        self.one(name)?.own_amount()
    }

    /// The moment of the child of this name, which occurs once. It takes no memory.
    ///
    /// The faults of `one`; `Value` at the child's offset where its value spells no date.
    #[tactic(auto, unfolding(ofx_types::specs::FormWords::moment_in))]
    pub fn moment(&self, name: &[u8]) -> Result<Moment, TreeFault>
        ensures { result ≡ moment_in name.now self.now }
    {
        self.one(name)?.own_moment()
    }

    /// The moment of the child of this name, which may occur once. It takes no memory.
    ///
    /// The faults of `maybe`; `Value` at the child's offset where its value spells no date.
    #[tactic(auto, unfolding(ofx_types::specs::FormWords::maybe_moment_in))]
    pub fn maybe_moment(&self, name: &[u8]) -> Result<Option<Moment>, TreeFault>
        ensures { result ≡ maybe_moment_in name.now self.now }
    {
        match self.maybe(name)? {
            Some(child) => Ok(Some(child.own_moment()?)),
            None => Ok(None),
        }
    }

    /// The number that the child of this name, which occurs once, has as its value: 1 digit up to `most` of them, at most
    /// ten. It takes no memory.
    ///
    /// The faults of `one`; `Value` at the child's offset where its value is no such number.
    #[tactic(auto, unfolding(ofx_types::specs::FormWords::number_in))]
    pub fn number(&self, name: &[u8], most: usize) -> Result<u64, TreeFault>
        requires { most ≤ 10 }
        ensures { result ≡ number_in name.now most self.now }
    {
        self.one(name)?.own_number(most)
    }

    /// The number that its own value is: 1 digit up to `most` of them, at most ten. It takes no memory.
    ///
    /// `Value` at its offset where the value is no such number.
    pub fn own_number(&self, most: usize) -> Result<u64, TreeFault>
        requires { most ≤ 10 }
        ensures { result ≡ number_of most self.now.node }
    {
        match number_of_raw(self.node.value, most) {
            Some(number) => Ok(number),
            None => Err(TreeFault::Value(self.node.at as u64)),
        }
    }

    /// The id that the child of this name, which occurs once, has as its value: a number of 1 to 10 digits. Any other
    /// text of at most 64 bytes stands for 0, which names nothing. It takes no memory.
    ///
    /// The faults of `one`; `Value` at the child's offset where its value is no text of 1 to 64 bytes.
    #[tactic(auto, unfolding(ofx_types::specs::FormWords::id_in, ofx_types::specs::FormWords::text_in))]
    pub fn id(&self, name: &[u8]) -> Result<u64, TreeFault>
        ensures { result ≡ id_in name.now self.now }
    {
        let child = self.one(name)?;
        child.own_id()
    }

    /// The id of the child of this name, which may occur once: 0 where it doesn't. It takes no memory.
    ///
    /// The faults of `maybe`; `Value` at the child's offset where its value is no text of 1 to 64 bytes.
    #[tactic(auto, unfolding(ofx_types::specs::FormWords::maybe_id_in))]
    pub fn maybe_id(&self, name: &[u8]) -> Result<u64, TreeFault>
        ensures { result ≡ maybe_id_in name.now self.now }
    {
        match self.maybe(name)? {
            Some(child) => child.own_id(),
            None => Ok(0),
        }
    }

    /// The text that its own value stands for: 1 byte up to the limit, trimmed and with its entities decoded.
    ///
    /// `Value` at its offset where the value is no such text; `OutOfMemory` where memory for it is refused.
    pub fn own_text(&self, alloc: Global, most: u32) -> Result<Text, TreeFault>
        ensures { ReadsForm result (text_at most self.now.node) }
    {
        match value_into(alloc, self.node.value, most) {
            Ok(text) if !text.as_bytes().is_empty() => Ok(text),
            Err(TextFault::OutOfMemory) => Err(TreeFault::OutOfMemory),
            _ => Err(TreeFault::Value(self.node.at as u64)),
        }
    }

    /// Whether its value, trimmed and with its entities decoded, is just this text.
    pub fn value_eq(&self, text: &[u8]) -> bool
        ensures { result ≡ bytes_eq (value_of self.now.node.text) text.now }
    {
        value_eq(self.node.value, text)
    }

    fn own_flag(&self) -> Result<bool, TreeFault>
        ensures { result ≡ flag_at self.now.node }
    {
        if self.value_eq(b"Y") {
            return Ok(true);
        }
        if self.value_eq(b"N") {
            return Ok(false);
        }
        Err(TreeFault::Value(self.node.at as u64))
    }

    fn own_amount(&self) -> Result<Cents, TreeFault>
        ensures { result ≡ amount_of self.now.node }
    {
        match amount_of_raw(self.node.value) {
            Some(amount) => Ok(amount),
            None => Err(TreeFault::Value(self.node.at as u64)),
        }
    }

    fn own_moment(&self) -> Result<Moment, TreeFault>
        ensures { result ≡ moment_of self.now.node }
    {
        match moment_of_raw(self.node.value) {
            Some(moment) => Ok(moment),
            None => Err(TreeFault::Value(self.node.at as u64)),
        }
    }

    fn own_id(&self) -> Result<u64, TreeFault>
        ensures { result ≡ id_at self.now.node }
    {
        match id_of_raw(self.node.value) {
            Some(id) => Ok(id),
            None => Err(TreeFault::Value(self.node.at as u64)),
        }
    }

    /// Whether it has this name and isn't absent.
    pub(crate) fn holds(&self, name: &[u8]) -> bool
        ensures { result ≡ holds name.now self.now }
    {
        self.node.name == name && !self.is_absent()
    }

    /// Whether it has one of three names and isn't absent.
    pub(crate) fn holds_one_of(&self, first: &[u8], second: &[u8], third: &[u8]) -> bool
        ensures { result ≡ holds_one_of (first.now ∷ second.now ∷ third.now ∷ []) self.now }
    {
        self.has_one_of(first, second, third) && !self.is_absent()
    }

    fn has_one_of(&self, first: &[u8], second: &[u8], third: &[u8]) -> bool
        ensures { result ≡ is_one_of (first.now ∷ second.now ∷ third.now ∷ []) self.now.node.name }
    {
        let name = self.node.name;
        name == first || name == second || name == third
    }

    /// Whether it is an element whose trimmed value is empty.
    fn is_absent(&self) -> bool
        ensures { result ≡ is_absent self.now.node }
    {
        self.node.element && is_blank(self.node.value)
    }
}

/// Whether white space alone is in the bytes.
fn is_blank(bytes: &[u8]) -> bool
    ensures { result ≡ list_all is_white bytes.now }
{
    bytes.iter().all(|byte| is_white_space(*byte))
}
