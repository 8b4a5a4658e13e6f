//! Nodes, and the tape that holds those of a body.

ghost use Rattle.std.specs.Prelude.{◌≡◌, map, IfOk, MatchResult};
ghost use Rattle.ofx_tape.specs.NodeView.{node_view, AreNested};
ghost use Rattle.ofx_types.specs.Nodes.{AreNodesOf};
ghost use Rattle.ofx_tape.specs.TapeOutcome.{IsTapeOf, IsTapeRefusal, ReadsAll};
ghost use Rattle.ofx_tape.specs.Slices.{AreSlices};

use crate::reader::Reader;
use crate::scan::{is_tag_next, skip_white};
use ofx_types::TapeFault;
use std::alloc::Global;
use std::marker::Model;

/// An element or an aggregate, as it is in the body (OFX 1.6, "SGML Basics").
#[derive(Clone, Copy, Debug)]
pub struct Node<'a> {
    /// Whether it is an element; otherwise it is an aggregate.
    pub element: bool,
    /// The name in its start tag.
    pub name: &'a [u8],
    /// The bytes between its start tag and the next `<`: an element's value, and white space in an aggregate.
    pub value: &'a [u8],
    /// The offset of its start tag, the number of bytes before it.
    pub at: usize,
    /// The index after its last inner node.
    pub after: usize,
}

/// The nodes of a body in the order of their start tags, each aggregate before what is in it.
///
/// ```rust
/// use ofx_tape::{Tape, TapeFault};
///
/// let tape = Tape::read(rt.alloc(), b"<OFX><USERID>alice</OFX>").expect(&rt, "a tape");
/// let [ofx, user] = tape.nodes() else {
///     panic!(rt; "two start tags");
/// };
/// assert!(rt; !ofx.element && user.element && user.value == b"alice".as_slice());
/// // The end tag at offset 5 closes nothing that is open.
/// let fault = Tape::read(rt.alloc(), b"<OFX></FI></OFX>").err();
/// assert!(rt; fault == Some(TapeFault::Mismatch(5)));
/// ```
#[derive(Debug, Drop)]
pub struct Tape<'a> {
    nodes: Vec<Node<'a>>,
}

impl<'a> Model for Tape<'a> {
    ghost use Rattle.std.specs.Prelude.{List, map};
    ghost use Rattle.ofx_types.specs.Nodes.{TagNode};
    ghost use Rattle.ofx_tape.specs.NodeView.{node_view, AreNested};

    ghost Value = { List TagNode };

    ghost view = { λ t. map node_view t.nodes.items };

    ghost invariant = { λ t. AreNested (map node_view t.nodes.items) };
}

impl<'a> Tape<'a> {
    /// The tape of a body.
    ///
    /// `Tag`, `Mismatch`, `Depth` or `Cut` is the leftmost fault of the tags, `OutOfMemory` where memory for the nodes
    /// is refused.
    pub fn read(alloc: Global, body: &'a [u8]) -> Result<Tape<'a>, TapeFault>
        ensures tape { IsTapeOf body.now result }
        ensures all { ReadsAll body.now result }
        ensures slices { IfOk result (AreSlices body.now) }
    {
        match read_nodes(alloc, body) {
            Ok(nodes) => Ok(Tape { nodes }),
            Err(fault) => Err(fault),
        }
    }

    /// The nodes, lent.
    pub fn nodes(&self) -> &[Node<'a>]
        ensures nodes { map node_view result.now ≡ self.now }
        ensures nested { AreNested self.now }
    {
        self.nodes.as_slice()
    }
}

/// Reads a body tag by tag.
fn read_nodes(alloc: Global, body: &[u8]) -> Result<Vec<Node<'_>>, TapeFault>
    ensures { MatchResult result (λ nodes. AreNodesOf body.now (map node_view nodes.items)) (IsTapeRefusal body.now) }
{
    let mut rest = skip_white(body);
    if !is_tag_next(rest) {
        return Err(TapeFault::Tag((body.len() - rest.len()) as u64));
    }
    let mut reader = match Reader::new(alloc, body) {
        Ok(reader) => reader,
        Err(fault) => return Err(fault),
    };
    while let [_, suffix @ ..] = rest {
        match reader.read_tag(rest, suffix) {
            Ok(next) => rest = next,
            Err(fault) => return Err(fault),
        }
    }
    reader.finish()
}
