//! Whether a reply answers what was asked.

ghost use Rattle.std.specs.Prelude.{◌≡◌};
ghost use Rattle.client_core.specs.Answering as rules;

use client_saved::is_same_object;
use ofx_types::{Ask, AskReply, Deed, DeedReply, Family, SyncAsk, SyncReply, Text, TrnUid};
use ofx_values::read_number;

/// The most digits of a token.
const MAX_DIGITS: usize = 10;

/// The number of the first ask, from 1, that isn't answered by the reply at its position, or of the first position that one of
/// both lists lacks. Takes no memory.
#[tactic(auto, unfolding(crate::specs::Answering::first_unanswered))]
pub fn first_unanswered(asks: &[Ask], replies: &[AskReply]) -> Option<u64>
    ensures { result ≡ rules.first_unanswered asks.now replies.now }
{
    let count = asks.len();
    let mut index: usize = 0;
    let mut left = asks;
    let mut reported = replies;
    while let [ask, rest @ ..] = left {
        let [reply, others @ ..] = reported else {
            return Some(index as u64 + 1);
        };
        if !is_answered(ask, reply) {
            return Some(index as u64 + 1);
        }
        left = rest;
        reported = others;
        index += 1;
    }
    if reported.is_empty() {
        None
    } else {
        Some(count as u64 + 1)
    }
}

fn is_answered(ask: &Ask, reply: &AskReply) -> bool
    ensures { result ≡ rules.is_answered ask.now reply.now }
{
    match (ask, reply) {
        (Ask::Statement(trnuid, _, _), AskReply::Statement(reported, _, _)) => trnuid == reported,
        (Ask::One(trnuid, deed), AskReply::One(reply)) => {
            *trnuid == reply.trnuid && is_same_family(deed.family(), reply.family)
        }
        (Ask::Sync(ask), AskReply::Sync(reply)) => is_sync_answered(ask, reply),
        _ => false,
    }
}

fn is_same_family(family: Family, other: Family) -> bool
    ensures { result ≡ rules.same_family family other }
{
    match (family, other) {
        (Family::Intra, Family::Intra) => true,
        (Family::RecIntra, Family::RecIntra) => true,
        (Family::BankMail, Family::BankMail) => true,
        (Family::Mail, Family::Mail) => true,
        _ => false,
    }
}

fn is_sync_answered(ask: &SyncAsk, reply: &SyncReply) -> bool
    ensures { result ≡ rules.is_sync_answered ask.now reply.now }
{
    is_same_object(&ask.object, &reply.object)
        && is_token(&reply.token)
        && are_answered(ask.deeds.items(), reply.replies.items())
}

/// Whether a text is a token of 1 to 10 digits.
fn is_token(text: &Text) -> bool
    ensures { result ≡ rules.is_token text.now }
{
    read_number(text.as_bytes(), MAX_DIGITS).is_some()
}

/// Whether the last replies are those to the deeds.
fn are_answered(deeds: &[(TrnUid, Deed)], replies: &[DeedReply]) -> bool
    ensures { result ≡ rules.have_uids deeds.now (rules.last_replies deeds.now replies.now) }
{
    have_uids(deeds, last_replies(deeds, replies))
}

/// The last replies, as many as there are deeds, or all where there are fewer.
pub(crate) fn last_replies<'a>(
    deeds: &[(TrnUid, Deed)],
    replies: &'a [DeedReply],
) -> &'a [DeedReply]
    ensures { result.now ≡ rules.last_replies deeds.now replies.now }
{
    &replies[replies.len().saturating_sub(deeds.len())..]
}

/// Whether replies bear the TRNUIDs of deeds, in order.
fn have_uids(deeds: &[(TrnUid, Deed)], replies: &[DeedReply]) -> bool
    ensures { result ≡ rules.have_uids deeds.now replies.now }
{
    let mut left = deeds;
    let mut reported = replies;
    while let [deed, rest @ ..] = left {
        let [reply, others @ ..] = reported else {
            return false;
        };
        if deed.0 != reply.trnuid {
            return false;
        }
        left = rest;
        reported = others;
    }
    reported.is_empty()
}
