//! What clients keep of objects.

ghost use Rattle.std.specs.Prelude.{◌≡◌, ℕ, nat_lt, true, false, List, Option, None, Some};
ghost use Rattle.std.specs.Fmt.{decimal};
ghost use Rattle.ofx_types.specs.SyncForm.{object_family};
ghost use Rattle.ofx_types.specs.declared.number.Moment.{Moment};
ghost use Rattle.ofx_types.specs.declared.number.ObjectId.{ObjectId};
ghost use Rattle.ofx_types.specs.declared.number.UserId.{UserId};
ghost use Rattle.ofx_types.specs.declared.request.Ask.{Ask};
ghost use Rattle.ofx_types.specs.declared.transfer.Family.{Family};
ghost use Rattle.ofx_types.specs.declared.sync.ObjectName.{ObjectName};
ghost use Rattle.ofx_types.specs.declared.sync.SyncAsk.{SyncAsk};
ghost use Rattle.ofx_types.specs.declared.sync.SyncKind.{SyncKind};
ghost use Rattle.ofx_types.specs.declared.sync.SyncKind.TheVariants.{After, TokenOnly, Refresh};
ghost use Rattle.ofx_types.specs.declared.sync.SyncReply.{SyncReply};
ghost use Rattle.bank_model.specs.declared.event.Event.{Event};
ghost use Rattle.bank_model.specs.declared.event.State.{State};
ghost use Rattle.bank_model.specs.declared.setup.Setup.{Setup};
ghost use Rattle.bank_model.specs.SetupForm.{IsWithinLimits};
ghost use Rattle.bank_model.specs.Objects.{object_named, newest, floor};
ghost use Rattle.bank_model.specs.Sync.{token_of, sync_answer};
ghost use Rattle.bank_model.specs.Stores.{Store, IsRight, empty_store, marked_lost, rows_entered, taken};
ghost use Rattle.bank_model.specs.Rules.{IsLegal, state_after, ask_answers};
ghost use Rattle.bank_model.specs.Sound.{IsSoundSync};
ghost use Rattle.sync_laws.specs.Folding.{rows_up_to};
ghost use Rattle.sync_laws.specs.ObjectFamilies.{IsObjectOf};
ghost use Rattle.sync_laws.specs.Histories.{IsInOrder, IsLater};
ghost use Rattle.sync_laws.specs.SyncRound.{store_after, bank_after};

/// A store with the token 0 and no rows is right at any time.
pub fn empty_stores_are_right()
    ensures { (setup : Setup) (S : State) (user : UserId) (name : ObjectName) → IsInOrder setup S
        → IsRight setup user (empty_store name) S.entries }
{}

/// A store that is right stays right whatever other clients and the bank itself do.
pub fn stores_stay_right()
    ensures later { (setup : Setup) (S T : State) (user : UserId) (store : Store) → IsInOrder setup S → IsInOrder setup T
        → IsLater S T → IsRight setup user store S.entries → IsRight setup user store T.entries }
    ensures event { (setup : Setup) (S : State) (at : Moment) (event : Event) (user : UserId) (store : Store)
        → IsInOrder setup S → IsLegal setup S at event → IsRight setup user store S.entries
        → IsRight setup user store (state_after setup S at event).entries }
    ensures asks { (setup : Setup) (S : State) (user : UserId) (at : Moment) (asks : List Ask) (owner : UserId) (store : Store)
        → IsInOrder setup S → IsRight setup owner store S.entries
        → IsRight setup owner store (ask_answers setup S user at asks).after.entries }
{}

/// Whoever asks for the token alone has the same store as before, and it is as right as it was.
pub fn token_alone_leaves_stores()
    ensures same { (store : Store) (reply : SyncReply) → taken store TokenOnly reply ≡ store }
    ensures right { (setup : Setup) (S : State) (user : UserId) (at : Moment) (ask : SyncAsk) (owner : UserId) (store : Store)
        → IsInOrder setup S → ask.kind ≡ TokenOnly → IsRight setup owner store S.entries
        → IsRight setup owner (store_after setup S user at ask store) (bank_after setup S user at ask).entries }
{}

/// Where all was asked for, or what came after a token, the store is marked lost exactly where the reply says so. A user's store
/// of an object that is right and isn't marked lost, and whose client asks by its token, is marked so exactly where its token
/// is below the floor of the object. A store keeps its name.
pub fn stores_are_lost_where_the_reply_says_so()
    ensures after { (store : Store) (text : List ℕ) (reply : SyncReply) → (taken store (After text) reply).is_lost ≡ reply.lost }
    ensures refresh { (store : Store) (reply : SyncReply) → (taken store Refresh reply).is_lost ≡ reply.lost }
    ensures floor { (setup : Setup) (S : State) (user : UserId) (at : Moment) (ask : SyncAsk) (object : ObjectId)
        (store : Store) (text : List ℕ) → object_named setup user ask.object ≡ Some object → store.name ≡ ask.object
        → ask.kind ≡ After text → token_of text ≡ Some store.token → store.is_lost ≡ false → IsRight setup user store S.entries
        → (store_after setup S user at ask store).is_lost ≡ nat_lt store.token (floor setup.window object S.entries) }
    ensures name { (store : Store) (kind : SyncKind) (reply : SyncReply) → (taken store kind reply).name ≡ store.name }
{}

/// A user's store of an object that is right and isn't marked lost, and whose client asks for what came after its token, is right
/// after the reply, and has the newest token unless it is marked lost. The text of its token, in decimal digits, stands for it.
/// The synchronisation is sound, and names the object as the store does.
pub fn stores_are_right_by_token()
    ensures text { (setup : Setup) (S : State) (user : UserId) (store : Store) → IsWithinLimits setup → IsInOrder setup S
        → store.is_lost ≡ false → IsRight setup user store S.entries → token_of (decimal store.token) ≡ Some store.token }
    ensures right { (setup : Setup) (S : State) (user : UserId) (at : Moment) (ask : SyncAsk) (object : ObjectId)
        (store : Store) (text : List ℕ) → IsWithinLimits setup → IsInOrder setup S → IsSoundSync ask
        → object_named setup user ask.object ≡ Some object → store.name ≡ ask.object → ask.kind ≡ After text
        → token_of text ≡ Some store.token → store.is_lost ≡ false → IsRight setup user store S.entries
        → IsRight setup user (store_after setup S user at ask store) (bank_after setup S user at ask).entries }
    ensures token { (setup : Setup) (S : State) (user : UserId) (at : Moment) (ask : SyncAsk) (object : ObjectId)
        (store : Store) (text : List ℕ) → IsWithinLimits setup → IsInOrder setup S
        → object_named setup user ask.object ≡ Some object → ask.kind ≡ After text
        → (store_after setup S user at ask store).is_lost ≡ false
        → (store_after setup S user at ask store).token ≡ newest object (bank_after setup S user at ask).entries }
{}

/// Any store of a user's object whose client asks for all is right after the reply, has the newest token, and isn't marked lost.
/// The synchronisation is sound, and names the object as the store does.
pub fn stores_are_right_by_refresh()
    ensures right { (setup : Setup) (S : State) (user : UserId) (at : Moment) (ask : SyncAsk) (object : ObjectId)
        (store : Store) → IsWithinLimits setup → IsInOrder setup S → IsSoundSync ask
        → object_named setup user ask.object ≡ Some object → store.name ≡ ask.object → ask.kind ≡ Refresh
        → IsRight setup user (store_after setup S user at ask store) (bank_after setup S user at ask).entries }
    ensures token { (setup : Setup) (S : State) (user : UserId) (at : Moment) (ask : SyncAsk) (object : ObjectId)
        (store : Store) → IsWithinLimits setup → IsInOrder setup S → object_named setup user ask.object ≡ Some object
        → ask.kind ≡ Refresh
        → (store_after setup S user at ask store).token ≡ newest object (bank_after setup S user at ask).entries }
    ensures kept { (setup : Setup) (S : State) (user : UserId) (at : Moment) (ask : SyncAsk) (object : ObjectId)
        (store : Store) → object_named setup user ask.object ≡ Some object → ask.kind ≡ Refresh
        → (store_after setup S user at ask store).is_lost ≡ false }
{}

/// Whoever synchronises an account that isn't the user's is reported lost, and nothing happens at the bank. The store is
/// marked lost after the reply, with its token and its rows as they were, or stays as it is where the token alone was
/// asked for.
pub fn strangers_stores_are_lost()
    ensures reported { (setup : Setup) (S : State) (user : UserId) (at : Moment) (ask : SyncAsk)
        → object_named setup user ask.object ≡ None → (sync_answer setup S user at ask).reply.lost ≡ true }
    ensures bank { (setup : Setup) (S : State) (user : UserId) (at : Moment) (ask : SyncAsk)
        → object_named setup user ask.object ≡ None → bank_after setup S user at ask ≡ S }
    ensures after { (setup : Setup) (S : State) (user : UserId) (at : Moment) (ask : SyncAsk) (store : Store) (text : List ℕ)
        → object_named setup user ask.object ≡ None → ask.kind ≡ After text
        → store_after setup S user at ask store ≡ marked_lost store }
    ensures refresh { (setup : Setup) (S : State) (user : UserId) (at : Moment) (ask : SyncAsk) (store : Store)
        → object_named setup user ask.object ≡ None → ask.kind ≡ Refresh
        → store_after setup S user at ask store ≡ marked_lost store }
    ensures token { (setup : Setup) (S : State) (user : UserId) (at : Moment) (ask : SyncAsk) (store : Store)
        → object_named setup user ask.object ≡ None → ask.kind ≡ TokenOnly → store_after setup S user at ask store ≡ store }
{}

/// The rows that a client's own rule makes of an object's entries up to a token, one after another, are those that the entries
/// say: each row as its last entry gave it, without those that were cancelled, and each mail. So nothing that is in an object is
/// left out for being of another family. The family is the object's, by the index of the object; of an object that a
/// user names it is the name's.
pub fn rows_are_those_of_the_entries()
    ensures object { (setup : Setup) (S : State) (family : Family) (object : ObjectId) (token : ℕ) → IsInOrder setup S
        → IsObjectOf setup family object.0
        → rows_up_to family object token S.entries ≡ rows_entered object token S.entries }
    ensures named { (setup : Setup) (S : State) (user : UserId) (name : ObjectName) (object : ObjectId) (token : ℕ)
        → IsInOrder setup S → object_named setup user name ≡ Some object
        → rows_up_to (object_family name) object token S.entries ≡ rows_entered object token S.entries }
{}
