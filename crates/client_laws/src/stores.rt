//! All stores of a client at once.

ghost use Rattle.client_laws.specs.ClientStores.{MadeFilesAskRightly, AcceptedRepliesKeepStores, DiscardedFilesKeepStores, StoresStayRight};

/// After a reply of the bank that a client accepted, each of its stores holds its object's entries up to its token, or is
/// marked lost. The premises are what making a file gives.
pub fn all_stores_hold()
    ensures makes { MadeFilesAskRightly }
    ensures accepts { AcceptedRepliesKeepStores }
    ensures discards { DiscardedFilesKeepStores }
    ensures later { StoresStayRight }
{}
