//! A store that takes the bank's own reply, as it comes over the wire.

ghost use Rattle.std.specs.Prelude.{◌≡◌, ℕ, false, List, Some, OnOk, OnErr};
ghost use Rattle.ofx_types.specs.Wire.{wire_sync};
ghost use Rattle.ofx_types.specs.declared.number.Moment.{Moment};
ghost use Rattle.ofx_types.specs.declared.number.UserId.{UserId};
ghost use Rattle.ofx_types.specs.declared.sync.SyncKind.TheVariants.{After, TokenOnly, Refresh};
ghost use Rattle.bank_model.specs.declared.event.State.{State};
ghost use Rattle.bank_model.specs.declared.setup.Setup.{Setup};
ghost use Rattle.bank_model.specs.SetupForm.{IsWithinLimits};
ghost use Rattle.bank_model.specs.Sound.{IsSoundSync};
ghost use Rattle.bank_model.specs.Stores.{IsRight};
ghost use Rattle.bank_model.specs.Sync.{token_of, sync_answer};
ghost use Rattle.sync_laws.specs.Histories.{IsInOrder};
ghost use Rattle.sync_laws.specs.SyncRound.{bank_after};

use client_store::Store;
use ofx_types::{OutOfMemory, SyncAsk, SyncReply};
use sync_laws::{
    stores_are_right_by_refresh, stores_are_right_by_token, strangers_stores_are_lost,
    token_alone_leaves_stores,
};

/// Takes in the bank's reply to a synchronisation of the object that bears the store's name, as it comes over the wire. The
/// object may be any, also of an account that isn't the user's.
///
/// A store that is right and isn't marked lost, and whose client asks by its token, is right after the reply, whatever the bank
/// did for it. So is any store whose client asks for all, also one that is marked lost. One whose client asks for the token
/// alone is as right as it was. Where memory is refused the store is as before.
pub fn accept_bank_reply(
    store: &mut Store,
    ask: &SyncAsk,
    reply: &SyncReply,
) -> Result<(), OutOfMemory>
    ensures by_token { (setup : Setup) (S : State) (user : UserId) (at : Moment) (text : List ℕ)
        → IsWithinLimits setup → IsInOrder setup S → IsSoundSync ask.now → store.old.name ≡ ask.now.object
        → ask.now.kind ≡ After text → token_of text ≡ Some store.old.token
        → store.old.is_lost ≡ false → IsRight setup user store.old S.entries
        → reply.now ≡ wire_sync (sync_answer setup S user at ask.now).reply
        → OnOk result (IsRight setup user store.new (bank_after setup S user at ask.now).entries) }
    ensures by_refresh { (setup : Setup) (S : State) (user : UserId) (at : Moment)
        → IsWithinLimits setup → IsInOrder setup S → IsSoundSync ask.now → store.old.name ≡ ask.now.object
        → ask.now.kind ≡ Refresh
        → reply.now ≡ wire_sync (sync_answer setup S user at ask.now).reply
        → OnOk result (IsRight setup user store.new (bank_after setup S user at ask.now).entries) }
    ensures token_alone { (setup : Setup) (S : State) (user : UserId) (at : Moment)
        → IsInOrder setup S → ask.now.kind ≡ TokenOnly → IsRight setup user store.old S.entries
        → reply.now ≡ wire_sync (sync_answer setup S user at ask.now).reply
        → OnOk result (IsRight setup user store.new (bank_after setup S user at ask.now).entries) }
    ensures err { OnErr result (store.new ≡ store.old) }
{
    stores_are_right_by_token();
    stores_are_right_by_refresh();
    strangers_stores_are_lost();
    token_alone_leaves_stores();
    store.take(&ask.kind, reply)
}
