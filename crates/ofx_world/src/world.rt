//! The world, and its steps.

ghost use Rattle.std.specs.Prelude.{◌≡◌, [], length, slice_get, IfOk, OnOk, OnErr};
ghost use Rattle.std.specs.List.{AllByRecursion};
ghost use Rattle.std.specs.Option.{option_copied, option_map};
ghost use Rattle.bank_model.specs.SetupForm.{IsWithinLimits};
ghost use Rattle.bank_solo.specs.Solo.{AreAccountsIn};
ghost use Rattle.ofx_world.specs.Customer.{CustomerView};
ghost use Rattle.ofx_world.specs.Kept.{AreNew, HasLawfulClock};
ghost use Rattle.ofx_world.specs.Truths.{IsRightWorld};
ghost use Rattle.ofx_world.specs.World.{AreCutSteps, AreSteps, Begins, IsCut, IsStep};

use crate::customer::Customer;
use crate::laws::laws_below;
use crate::parts::Parts;
use crate::step::Step;
use bank_accounts::Account;
use bank_core::Book;
use bank_model::Setup;
use client_core::Client;
use ofx_file::OfxPrinter;
use ofx_types::{Moment, OutOfMemory, Sequence};
use std::alloc::Global;
use std::hash::RandomState;
use std::marker::Model;

/// A bank and its clients, with all files that were ever sent.
///
/// ```rust
/// use bank_model::Setup;
/// use client_core::{Client, Wish};
/// use ofx_types::Text;
/// use ofx_world::{Step, World};
/// use std::hash::RandomState;
///
/// let alloc = rt.alloc();
/// let bytes = b"OFXBANK 1\nBANK 1\nLEAD 5\nWINDOW 3\nENTRIES 99\n\
///     USER alice secret\nACCT 1001 CHECKING 0 alice\n";
/// let setup = Setup::read(alloc, bytes).expect(&rt, "a setup");
/// let keys = RandomState::new(&rt).expect(&rt, "keys");
/// let text = |word: &str| Text::new(alloc, word.as_bytes(), 64).expect(&rt, "a text");
/// let client = Client::new(alloc, text("c1"), text("alice")).expect(&rt, "a client");
/// let clients = vec![in alloc; client].expect(&rt, "room");
/// let mut world = World::new(alloc, keys, setup, clients).expect(&rt, "a world");
/// // The client's file arrives twice, and is answered by the same bytes.
/// let wish = Wish::Mail(text("Hello"), text("Hi"));
/// let steps = vec![in alloc; Step::Make(0, wish), Step::Deliver(0), Step::Deliver(0)];
/// world.run(&steps.expect(&rt, "room")).expect(&rt, "room");
/// let [first, second] = world.replies() else {
///     panic!(rt; "two replies");
/// };
/// assert!(rt; first.items() == second.items());
/// ```
pub struct World {
    parts: Parts,
}

impl Model for World {
    ghost use Rattle.ofx_world.specs.Sound.{IsSoundWorld};
    ghost use Rattle.ofx_world.specs.World.{WorldView};

    ghost Value = { WorldView };

    ghost view = { λ w. w.parts };

    ghost invariant = { λ w. IsSoundWorld w.parts };
}

impl Drop for World {
    fn drop(self) {
        let World { parts: _ } = self;
    }
}

impl World {
    /// A fresh bank of that setup and these clients, each with its saved text, at 1 January 2024, 00:00:00. Both bags are empty,
    /// no record is pending and no fault is set. Clients' names are found by hashes with these keys.
    ///
    /// Each client is as `Client::new` makes it. The names of the clients are distinct, and their users are in the setup.
    pub fn new(
        alloc: Global,
        keys: RandomState,
        setup: Setup,
        clients: Vec<Client>,
    ) -> Result<World, OutOfMemory>
        requires within { IsWithinLimits setup }
        requires new { AreNew setup clients.items }
        ensures { IfOk result (λ world. Begins setup clients.items world) }
    {
        laws_below();
        let parts = Parts::begin(alloc, keys, setup, clients)?;
        Ok(World { parts })
    }

    /// Makes these steps, one after another. The moment of each step of the clock lies in the years 1900 to 9999.
    ///
    /// After `OutOfMemory` the world is as after the steps before the refused one, but that a pending record may have been
    /// settled.
    #[tactic(auto, using(crate::proofs::Steps::first_step, crate::proofs::Steps::no_steps, crate::proofs::Steps::first_cut, crate::proofs::Steps::cut_now))]
    pub fn run(&mut self, steps: &[Step]) -> Result<(), OutOfMemory>
        requires { AllByRecursion HasLawfulClock steps.now }
        ensures steps { OnOk result (AreSteps self.old steps.now self.new) }
        ensures cut { OnErr result (AreCutSteps self.old steps.now self.new) }
        ensures truth { IsRightWorld self.new }
    {
        let mut left = steps;
        while let [step, rest @ ..] = left {
            let taken = self.take(step);
            self.known();
            taken?;
            left = rest;
        }
        self.known();
        Ok(())
    }

    /// Makes a step.
    fn take(&mut self, step: &Step) -> Result<(), OutOfMemory>
        requires { HasLawfulClock step.now }
        ensures step { OnOk result (IsStep self.old step.now self.new) }
        ensures refused { OnErr result (IsCut self.old self.new) }
    {
        laws_below();
        self.parts.take(step)
    }

    /// What is true of every world.
    pub fn known(&self)
        ensures { IsRightWorld self.now }
    {
        laws_below();
        // For the proof alone: a look at the parts tells that they are sound.
        let _clock = self.parts.clock;
    }

    /// The moment that the clock shows.
    pub fn clock(&self) -> Moment
        ensures { result ≡ self.now.clock }
    {
        self.parts.clock
    }

    /// The client of a number, lent. None where there is none.
    pub fn client(&self, number: u32) -> Option<&Client>
        ensures { option_copied result ≡ option_map (λ (customer : CustomerView). customer.client) (slice_get self.now.customers number) }
    {
        match self.parts.customers.get(number as usize) {
            Some(customer) => Some(customer.client()),
            None => None,
        }
    }

    /// The clients with their saved texts, lent.
    pub(crate) fn customers(&self) -> &[Customer]
        ensures { result.now ≡ self.now.customers }
    {
        self.parts.customers.as_slice()
    }

    /// All request files that were sent, lent, in the order in which they were.
    pub fn requests(&self) -> &[Sequence<u8>]
        ensures { result.now ≡ self.now.requests }
    {
        self.parts.requests.files()
    }

    /// All reply files that the bank gave, lent, in that order.
    pub fn replies(&self) -> &[Sequence<u8>]
        ensures { result.now ≡ self.now.replies }
    {
        self.parts.replies.files()
    }

    /// The number of events that have happened at the bank: the records that aren't pending.
    pub fn event_count(&self) -> u64
        ensures { result ≡ length self.now.server.records }
    {
        self.parts.server.record_count()
    }

    /// The book and the accounts of the bank, when the world is over.
    pub fn into_parts(self, alloc: Global) -> Result<(Book<OfxPrinter>, Vec<Account>), OutOfMemory>
        ensures setup { IfOk result (λ parts. parts.0.setup ≡ self.server.setup) }
        ensures state { IfOk result (λ parts. parts.0.state ≡ self.server.state) }
        ensures accounts { IfOk result (λ parts. AreAccountsIn self.server.setup self.server.state parts.1.items) }
    {
        let World { parts } = self;
        parts.into_bank_parts(alloc)
    }
}
