//! What a sheet writes reads back as it was written, and what a cursor reads is what the grammar says is there. Nothing
//! here runs: each contract is a law.

ghost use Rattle.ofx_tree.specs.PrintedForm.{ElementsReadBack, AggregatesReadBack, BodiesReadBack};
ghost use Rattle.ofx_tree.specs.Documents.{DocumentsReadBack, BodiesHoldTheirDocuments, BranchesHoldTheirDocuments, DocumentsAreFound, LeavesHaveTheirValues};
ghost use Rattle.ofx_tree.specs.ValueLaws.{TextsAreFound, FlagsAreFound, MaybeFlagsAreFound, AmountsAreFound, MomentsAreFound, MaybeMomentsAreFound, NumbersAreFound, IdsAreFound, MaybeIdsAreFound};

/// The line of an element spells that element, and stands for the value that was written.
pub fn elements_read_back()
    ensures { ElementsReadBack }
{}

/// The lines of an aggregate spell an aggregate of what its inner lines spell.
pub fn aggregates_read_back()
    ensures { AggregatesReadBack }
{}

/// The lines of OFX spell a body.
pub fn bodies_read_back()
    ensures { BodiesReadBack }
{}

/// Leaves and branches that are printed spell their tree, also between the tags of OFX. The children of a branch's item are
/// the items of what is there in it: a name finds those that have it, and a leaf's item stands for its value.
pub fn documents_read_back()
    ensures spelled { DocumentsReadBack }
    ensures body { BodiesHoldTheirDocuments }
    ensures children { BranchesHoldTheirDocuments }
    ensures found { DocumentsAreFound }
    ensures values { LeavesHaveTheirValues }
{}

/// `Cursor::text` and its kin give a value exactly where the child occurs once and its value spells it in the grammar: texts,
/// flags, amounts, dates, numbers and ids.
pub fn values_are_found()
    ensures texts { TextsAreFound }
    ensures flags { FlagsAreFound }
    ensures maybe_flags { MaybeFlagsAreFound }
    ensures amounts { AmountsAreFound }
    ensures moments { MomentsAreFound }
    ensures maybe_moments { MaybeMomentsAreFound }
    ensures numbers { NumbersAreFound }
    ensures ids { IdsAreFound }
    ensures maybe_ids { MaybeIdsAreFound }
{}
