//! What holds of heads, beyond one reading. Nothing here runs: each contract is a law.

ghost use Rattle.http_front.specs.HeadLaws.{OneRequest, OneResponse, RequestsStay, ResponsesStay, BadRequestsStay, BadResponsesStay, WrittenReplyIsRead, WrittenPostIsRead};

/// No bytes begin with two heads.
pub fn one_head()
    ensures requests { OneRequest }
    ensures responses { OneResponse }
{}

/// A head stays the same, whatever bytes follow.
pub fn heads_stay()
    ensures requests { RequestsStay }
    ensures responses { ResponsesStay }
{}

/// Bytes that are bad stay so, whatever bytes follow.
pub fn bad_heads_stay()
    ensures requests { BadRequestsStay }
    ensures responses { BadResponsesStay }
{}

/// What is written is read back.
pub fn written_heads_are_read()
    ensures reply { WrittenReplyIsRead }
    ensures post { WrittenPostIsRead }
{}
