//! What holds of headers, beyond one reading. Nothing here runs: each contract is a law.

ghost use Rattle.ofx_header.specs.HeaderLaws.{OneHeader, SpelledIsFaultless, FaultlessIsSpelled, BodyIsAfter, WrittenIsSpelled};

/// No bytes begin with two headers.
pub fn one_header()
    ensures { OneHeader }
{}

/// Bytes that begin with a header have no fault.
pub fn spelled_is_faultless()
    ensures { SpelledIsFaultless }
{}

/// Bytes without a fault begin with a header.
pub fn faultless_is_spelled()
    ensures { FaultlessIsSpelled }
{}

/// The body is what follows the header's bytes.
pub fn body_is_after()
    ensures { BodyIsAfter }
{}

/// What is written of a known version and uids is spelled so, whatever follows.
pub fn written_is_spelled()
    ensures { WrittenIsSpelled }
{}
