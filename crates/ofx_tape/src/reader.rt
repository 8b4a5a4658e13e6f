//! Reading a body from the left, tag by tag.

ghost use Rattle.std.specs.Prelude.{◌≡◌, ◌≤◌, ◌+◌, ◌∷◌, ◌++◌, ◌==◌, ◌&&◌, true, false, not, length, codes, bytes_eq, List, [], Some, MatchResult, map};
ghost use Rattle.std.specs.List.{before_first};
ghost use Rattle.ofx_types.specs.Sheet.{tag};
ghost use Rattle.ofx_types.specs.TagFault.{is_open, is_name_of};
ghost use Rattle.ofx_types.specs.TagForm.{end_tag};
ghost use Rattle.ofx_types.specs.TagNames.{is_name, is_element};

use crate::names::begins_element;
use crate::scan::{TagAt, is_tag_next, skip_white, split_value, tag_after};
use crate::tape::Node;
use ofx_types::TapeFault;
use std::alloc::Global;

/// A body that is read up to some tag.
#[derive(Drop)]
pub(crate) struct Reader<'a> {
    body: &'a [u8],
    nodes: Vec<Node<'a>>,
    /// The indices of the open aggregates' nodes, the outermost first, and how many of them there are.
    open: [usize; 16],
    depth: usize,
    /// Whether OFX has ended.
    has_ended: bool,
    /// The name of the element just before, whose end tag may still come.
    element: Option<&'a [u8]>,
}

impl<'a> Reader<'a> {
    ghost use Rattle.ofx_types.specs.Nodes.{AreNodesOf};
    ghost use Rattle.ofx_tape.specs.NodeView.{node_view};
    ghost use Rattle.ofx_tape.specs.TapeOutcome.{IsTapeRefusal};
    ghost use Rattle.ofx_tape.specs.TagReading.{IsRead, IsFresh, Advances, IsTagAt, IsStartAt, IsFaultOfEnd, element_in};

    /// A reader of a body, before its first tag.
    pub(crate) fn new(alloc: Global, body: &'a [u8]) -> Result<Reader<'a>, TapeFault>
        ensures { MatchResult result (IsFresh body.now) (λ fault. fault ≡ TapeFault.OutOfMemory) }
    {
        // A request has a tag for every 12 bytes, or fewer. Another body makes room as it goes.
        match Vec::with_capacity(alloc, body.len() / 12) {
            Ok(nodes) => Ok(Reader {
                body,
                nodes,
                open: [0; 16],
                depth: 0,
                has_ended: false,
                element: None,
            }),
            Err(_refused) => Err(TapeFault::OutOfMemory),
        }
    }

    /// The nodes of a body that is read to its end, which is cut where OFX has not ended.
    pub(crate) fn finish(self) -> Result<Vec<Node<'a>>, TapeFault>
        requires { IsRead self [] }
        ensures { MatchResult result (λ nodes. AreNodesOf self.entry.body.now (map node_view nodes.items)) (IsTapeRefusal self.entry.body.now) }
    {
        let Reader {
            body,
            nodes,
            has_ended,
            ..
        } = self;
        if has_ended {
            return Ok(nodes);
        }
        Err(TapeFault::Cut(body.len() as u64))
    }

    /// Reads one tag and the text after it: from a `<`, with the bytes after that, to the next tag.
    pub(crate) fn read_tag(
        &mut self,
        rest: &'a [u8],
        suffix: &'a [u8],
    ) -> Result<&'a [u8], TapeFault>
        requires read { IsRead self.old rest.now }
        requires at_tag { rest.now ≡ 60 ∷ suffix.now }
        ensures { Advances self.old self.new rest.now result }
    {
        match tag_after(suffix) {
            TagAt::Start(name, more) => self.start(rest, name, more),
            TagAt::End(name, more) => self.end(rest, name, more),
            TagAt::Unfinished => Err(TapeFault::Cut(self.body.len() as u64)),
            TagAt::Broken => Err(TapeFault::Tag(self.offset(rest))),
        }
    }

    /// The number of bytes before the rest.
    fn offset(&self, rest: &[u8]) -> u64
        requires { length rest.now ≤ length self.now.body.now }
        ensures { result + length rest.now ≡ length self.now.body.now }
    {
        (self.body.len() - rest.len()) as u64
    }

    /// Reads a start tag of this name, with the text after it.
    fn start(
        &mut self,
        rest: &'a [u8],
        name: &'a [u8],
        suffix: &'a [u8],
    ) -> Result<&'a [u8], TapeFault>
        requires { IsTagAt tag self.old rest.now name.now suffix.now }
        ensures { Advances self.old self.new rest.now result }
    {
        if self.has_ended {
            return Err(TapeFault::Tag(self.offset(rest)));
        }
        if self.is_wrong_first(name) {
            return Err(TapeFault::Tag(self.offset(rest)));
        }
        if begins_element(name, suffix) {
            self.element(rest, name, suffix)
        } else {
            self.aggregate(rest, name, suffix)
        }
    }

    /// Whether this would be the name of the first tag, and isn't OFX.
    fn is_wrong_first(&self, name: &[u8]) -> bool
        ensures { result ≡ ((self.now.depth == 0) && not (bytes_eq name.now (codes "OFX"))) }
    {
        self.depth == 0 && name != b"OFX".as_slice()
    }

    /// Reads the start tag of an element, with its value.
    fn element(
        &mut self,
        rest: &'a [u8],
        name: &'a [u8],
        suffix: &'a [u8],
    ) -> Result<&'a [u8], TapeFault>
        requires start { IsStartAt self.old rest.now name.now suffix.now }
        requires is_one { is_element name.now (before_first is_open suffix.now) ≡ true }
        ensures { Advances self.old self.new rest.now result }
    {
        let (value, next) = split_value(suffix);
        if !is_tag_next(next) {
            return Err(TapeFault::Tag(self.offset(next)));
        }
        let node = Node {
            element: true,
            name,
            value,
            at: self.body.len() - rest.len(),
            after: self.nodes.len() + 1,
        };
        if self.nodes.push(node).is_err() {
            return Err(TapeFault::OutOfMemory);
        }
        self.element = Some(name);
        Ok(next)
    }

    /// Reads the start tag of an aggregate, and the white space after it.
    fn aggregate(
        &mut self,
        rest: &'a [u8],
        name: &'a [u8],
        suffix: &'a [u8],
    ) -> Result<&'a [u8], TapeFault>
        requires start { IsStartAt self.old rest.now name.now suffix.now }
        requires is_none { is_element name.now (before_first is_open suffix.now) ≡ false }
        ensures { Advances self.old self.new rest.now result }
    {
        if self.depth == 16 {
            return Err(TapeFault::Depth(self.offset(rest)));
        }
        let next = skip_white(suffix);
        if !is_tag_next(next) {
            return Err(TapeFault::Tag(self.offset(next)));
        }
        let index = self.nodes.len();
        let node = Node {
            element: false,
            name,
            value: suffix.split_at(suffix.len() - next.len()).0,
            at: self.body.len() - rest.len(),
            after: 0,
        };
        if self.nodes.push(node).is_err() {
            return Err(TapeFault::OutOfMemory);
        }
        self.open[self.depth] = index;
        self.depth += 1;
        self.element = None;
        Ok(next)
    }

    /// Reads an end tag of this name, and the white space after it.
    fn end(
        &mut self,
        rest: &'a [u8],
        name: &'a [u8],
        suffix: &'a [u8],
    ) -> Result<&'a [u8], TapeFault>
        requires { IsTagAt end_tag self.old rest.now name.now suffix.now }
        ensures { Advances self.old self.new rest.now result }
    {
        if !self.is_end_of_element(name) {
            return self.end_aggregate(rest, name, suffix);
        }
        let next = skip_white(suffix);
        if !is_tag_next(next) {
            return Err(TapeFault::Tag(self.offset(next)));
        }
        self.element = None;
        Ok(next)
    }

    /// Whether an end tag of this name is that of the element just before.
    fn is_end_of_element(&self, name: &[u8]) -> bool
        ensures { result ≡ is_name_of name.now (element_in self.now) }
    {
        match self.element {
            Some(element) => element == name,
            None => false,
        }
    }

    /// Reads the end tag of the innermost open aggregate, and the white space after it.
    fn end_aggregate(
        &mut self,
        rest: &'a [u8],
        name: &'a [u8],
        suffix: &'a [u8],
    ) -> Result<&'a [u8], TapeFault>
        requires at { IsTagAt end_tag self.old rest.now name.now suffix.now }
        requires is_other { is_name_of name.now (element_in self.old) ≡ false }
        ensures { Advances self.old self.new rest.now result }
    {
        if self.depth == 0 {
            return Err(self.fault_of_end(rest));
        }
        let index = self.open[self.depth - 1];
        if self.nodes[index].name != name {
            return Err(TapeFault::Mismatch(self.offset(rest)));
        }
        let next = skip_white(suffix);
        if !is_tag_next(next) {
            return Err(TapeFault::Tag(self.offset(next)));
        }
        let after = self.nodes.len();
        self.nodes[index].after = after;
        self.depth -= 1;
        self.has_ended = self.depth == 0;
        self.element = None;
        Ok(next)
    }

    /// The fault of an end tag where no aggregate is open.
    fn fault_of_end(&self, rest: &[u8]) -> TapeFault
        requires { length rest.now ≤ length self.now.body.now }
        ensures { IsFaultOfEnd self.now.has_ended (length self.now.body.now) rest.now result }
    {
        if self.has_ended {
            TapeFault::Mismatch(self.offset(rest))
        } else {
            TapeFault::Tag(self.offset(rest))
        }
    }
}
