//! What the definitions of tags and nodes tell: laws, which make no call.

ghost use Rattle.ofx_tape.specs.TapeOutcome.{TagsAreUnambiguous, SpelledTagsHaveNoFault, FaultlessTagsAreSpelled};
ghost use Rattle.ofx_tape.specs.Slices.{NodesAreSlices};
ghost use Rattle.ofx_tape.specs.NodeCounts.{TagsFit, NamedTagsFit, StatementTagsFit};

/// A body has one list of nodes at most: its bytes tell its elements and aggregates.
pub fn tags_are_unambiguous()
    ensures { TagsAreUnambiguous }
{}

/// A body whose tags are spelled as the format has them has no fault.
pub fn spelled_tags_have_no_fault()
    ensures { SpelledTagsHaveNoFault }
{}

/// A body whose tags have no fault has nodes: nothing lies between the grammar and the faults.
pub fn faultless_tags_are_spelled()
    ensures { FaultlessTagsAreSpelled }
{}

/// The nodes of a body are slices of it, in order, each inside its parent.
pub fn nodes_are_slices()
    ensures { NodesAreSlices }
{}

/// The start tags of a body's nodes fit in it, so a body of n bytes has at most n / 11 statement requests.
pub fn nodes_fit_the_body()
    ensures all { TagsFit }
    ensures named { NamedTagsFit }
    ensures statements { StatementTagsFit }
{}
