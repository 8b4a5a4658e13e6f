//! The client, as its user's program has it.

ghost use Rattle.std.specs.Prelude.{◌≡◌, ◌<◌, ◌⊎◌, ℕ, None, Ok, Err, IfOk, IfErr, OnOk, OnErr, IsErrAnd, MatchResult};
ghost use Rattle.std.specs.Option.{option_copied, option_map};
ghost use Rattle.std.specs.List.{AllByRecursion};
ghost use Rattle.ofx_types.specs.Calendar.{IsMoment};
ghost use Rattle.bank_model.specs.Sound.{IsTextWithin};
ghost use Rattle.client_saved.specs.declared.state.ClientState.{ClientState};
ghost use Rattle.client_saved.specs.declared.state.Outstanding.{Outstanding};
ghost use Rattle.client_saved.specs.Bounds.{IsName, IsSoundState};
ghost use Rattle.client_saved.specs.SavedText.{IsSavedText, IsFirstFault, GivesState};
ghost use Rattle.client_core.specs.ClientForm.{new_client, discarded};
ghost use Rattle.client_core.specs.Wishes.{IsSoundWish};
ghost use Rattle.client_core.specs.Making.{made, poll_of};
ghost use Rattle.client_core.specs.Accepting.{accepted};
ghost use Rattle.client_core.specs.ReportLines.{IsRefusal, IsSoundReply};

use crate::accepting::accept;
use crate::fault::ClientFault;
use crate::making::make;
use crate::polling::poll_of;
use crate::report::Report;
use crate::wish::Wish;
use client_saved::{ClientState, StoreFault, Stores, is_name, read_state, write_state};
use client_store::Store;
use ofx_types::{AcctName, FileUid, Moment, OutOfMemory, ReplyFile, RequestFile, Text};
use std::alloc::Global;
use std::marker::Model;

/// The number of a client's first file.
const FIRST: u64 = 1;

/// A customer's program: what it knows of its user's accounts, and the file that it waits to have answered.
///
/// Contracts see all that it knows, whose values are always within their bounds.
///
/// ```rust
/// use client_core::{Client, Wish};
/// use ofx_types::{Moment, Text};
///
/// let alloc = rt.alloc();
/// let text = |word: &str| Text::new(alloc, word.as_bytes(), 64).expect(&rt, "a text");
/// let mut client = Client::new(alloc, text("c1"), text("alice")).expect(&rt, "a client");
/// let wish = Wish::Mail(text("Hello"), text("Hi"));
/// client
///     .make_file(&wish, Moment(1_706_702_400))
///     .expect(&rt, "a file");
/// // The client is saved before its file is sent. One that is loaded has the same file outstanding.
/// let saved = client.save_text().expect(&rt, "room");
/// let loaded = Client::load_text(alloc, &saved).expect(&rt, "the same client");
/// assert!(rt; loaded.outstanding().is_some() && loaded.next() == client.next());
/// ```
pub struct Client {
    state: ClientState,
    alloc: Global,
}

impl Model for Client {
    ghost use Rattle.client_saved.specs.declared.state.ClientState.{ClientState};
    ghost use Rattle.client_saved.specs.Bounds.{IsSoundState};

    ghost Value = { ClientState };

    ghost view = { λ c. c.state };

    ghost invariant = { λ c. IsSoundState c.state };
}

impl Drop for Client {
    fn drop(self) {
        let Client { state: _, alloc: _ } = self;
    }
}

impl Client {
    /// A new client of that name, for that user of 1 to 32 bytes. It has made no file and keeps nothing.
    ///
    /// `BadName` exactly where the name isn't 1 to 12 letters and digits of ASCII. Takes no memory.
    pub fn new(alloc: Global, name: Text, user: Text) -> Result<Client, ClientFault>
        requires { IsTextWithin 32 user }
        ensures { MatchResult result (λ client. IsName name × (client ≡ new_client name user))
            (λ fault. (IsName name → ⊥) × (fault ≡ ClientFault.BadName)) }
    {
        if !is_name(&name) {
            return Err(ClientFault::BadName);
        }
        Ok(Client {
            state: ClientState {
                name,
                user,
                next: FIRST,
                done: None,
                outstanding: None,
                stores: Stores::new(alloc),
            },
            alloc,
        })
    }

    /// What is true of every client.
    pub fn known(&self)
        ensures { IsSoundState self.now }
    {
        let _ = &self.state;
    }

    /// The client's name.
    pub fn name(&self) -> &Text
        ensures { result.now ≡ self.now.name }
    {
        &self.state.name
    }

    /// The user for whom it acts.
    pub fn user(&self) -> &Text
        ensures { result.now ≡ self.now.user }
    {
        &self.state.user
    }

    /// The number of its next file.
    pub fn next(&self) -> u64
        ensures { result ≡ self.now.next }
    {
        self.state.next
    }

    /// The last file whose reply was accepted.
    pub fn done(&self) -> Option<&FileUid>
        ensures { option_copied result ≡ self.now.done }
    {
        self.state.done.as_ref()
    }

    /// What it keeps of objects, in the order in which the stores were made.
    pub fn stores(&self) -> &[Store]
        ensures { result.now ≡ self.now.stores }
    {
        self.state.stores.items()
    }

    /// The file that was made and is not yet answered.
    pub fn outstanding(&self) -> Option<&RequestFile>
        ensures { option_copied result ≡ option_map (λ (kept : Outstanding). kept.file) self.now.outstanding }
    {
        match &self.state.outstanding {
            Some(kept) => Some(&kept.file),
            None => None,
        }
    }

    /// The moment at which the outstanding file was made.
    pub fn made_at(&self) -> Option<Moment>
        ensures { result ≡ option_map (λ (kept : Outstanding). kept.at) self.now.outstanding }
    {
        match &self.state.outstanding {
            Some(kept) => Some(kept.at),
            None => None,
        }
    }

    /// Makes the file of a wish, which is outstanding from then on and was made at this moment of the years 1900 to 9999.
    ///
    /// Nothing is outstanding before, and there is a number left for the file. The wish is neither `Check` nor `Show`, and its
    /// texts and numbers are within the bounds of a request file. `NoRow(id)` exactly where no store has the row that the wish
    /// names. After any refusal the client is as before.
    pub fn make_file(&mut self, wish: &Wish, at: Moment) -> Result<(), ClientFault>
        requires free { self.old.outstanding ≡ None }
        requires number { self.old.next < 9999999999 }
        requires wish { IsSoundWish wish.now }
        requires moment { IsMoment at.0 }
        ensures made { OnOk result (made self.old wish.now at ≡ Ok self.new) }
        ensures refusal { IfErr result (λ fault. IsRefusal (made self.old wish.now at) fault) }
        ensures err { OnErr result (self.new ≡ self.old) }
    {
        make(self.alloc, &mut self.state, wish, at)
    }

    /// The file that asks for the newest tokens of the three objects of an account. It is no file that is outstanding.
    pub fn poll_file(&self, account: &AcctName) -> Result<RequestFile, OutOfMemory>
        ensures { IfOk result (λ file. file ≡ poll_of self.now account.now) }
    {
        poll_of(self.alloc, &self.state, account)
    }

    /// Takes the reply to the outstanding file in, and says what is to be printed of it. The file has ended then, and the next
    /// one names it as the last whose reply was accepted.
    ///
    /// The caller knows that the rows that the reply brings are within their bounds. `NotMine` exactly where it doesn't bear the
    /// outstanding file's name or nothing is outstanding; then `Signon(code)` exactly where the signon failed; then `Shape(n)`
    /// exactly where reply n, from 1, doesn't answer ask n, or one of both is missing. After any refusal the client is as
    /// before, and the file stays outstanding.
    pub fn accept(&mut self, reply: &ReplyFile) -> Result<Report, ClientFault>
        requires { AllByRecursion IsSoundReply reply.now.replies }
        ensures accepted { IfOk result (λ report. accepted self.old reply.now ≡ Ok (record { after = self.new; lines = report.lines })) }
        ensures refusal { IfErr result (λ fault. IsRefusal (accepted self.old reply.now) fault) }
        ensures err { OnErr result (self.new ≡ self.old) }
    {
        accept(self.alloc, &mut self.state, reply)
    }

    /// Gives the outstanding file up. The number of the next one stays as it is. Takes no memory.
    pub fn discard(&mut self)
        ensures { self.new ≡ discarded self.old }
    {
        self.state.outstanding = None;
    }

    /// The saved text of what the client knows.
    pub fn save_text(&self) -> Result<Vec<u8>, OutOfMemory>
        ensures { IfOk result (λ text. IsSavedText text.items self.now) }
    {
        write_state(self.alloc, &self.state)
    }

    /// The client that a saved text describes. What `save_text` gives is read back as it was.
    ///
    /// `Bad(at)` exactly where the text describes none: the first field without a form begins at `at`, or all have one and more
    /// bytes follow from `at` on.
    pub fn load_text(alloc: Global, bytes: &[u8]) -> Result<Client, StoreFault>
        // The bytes are the saved text of the client that is found.
        ensures found { IfOk result (λ client. IsSavedText bytes.now client) }
        // The client whose saved text they are is found, unless memory is refused.
        ensures only { (client : ClientState) → IsSavedText bytes.now client → GivesState result (Ok client) }
        // A refusal is at the first fault, or memory was refused.
        ensures fault { (at : ℕ) → result ≡ Err (StoreFault.Bad at) → IsFirstFault bytes.now at }
        // A text with a fault is refused.
        ensures faulty { (at : ℕ) → IsFirstFault bytes.now at
            → IsErrAnd result (λ reported. (reported ≡ StoreFault.Bad at) ⊎ (reported ≡ StoreFault.OutOfMemory)) }
    {
        let state = read_state(alloc, bytes)?;
        Ok(Client { state, alloc })
    }
}
