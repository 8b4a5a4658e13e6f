//! The parts of the world, and what each kind of step does to them.

ghost use Rattle.std.specs.Prelude.{◌≡◌, [], slice_get, IfOk, OnOk, OnErr};
ghost use Rattle.bank_model.specs.SetupForm.{IsWithinLimits};
ghost use Rattle.bank_solo.specs.Solo.{AreAccountsIn};
ghost use Rattle.ofx_world.specs.Kept.{HasLawfulClock, IsRecorded};
ghost use Rattle.ofx_world.specs.Server.{due_done};
ghost use Rattle.ofx_world.specs.Sound.{IsSoundWorld};
ghost use Rattle.ofx_world.specs.declared.step.Step.TheVariants as steps;
ghost use Rattle.ofx_world.specs.World.{Begins, DeliverReplyStep, DeliverStep, HaveSaved, IsCut, IsStep, LetterStep, MakeStep, RestartServerStep, RestartStep, sent_again, with_server};

use crate::bag::Bag;
use crate::customer::Customer;
use crate::server::Server;
use crate::step::Step;
use bank_accounts::Account;
use bank_core::Book;
use bank_model::Setup;
use client_core::{Client, Wish};
use ofx_file::OfxPrinter;
use ofx_types::{Moment, OutOfMemory, Text, UserId};
use std::alloc::Global;
use std::hash::RandomState;
use std::marker::Model;

/// 1 January 2024, 00:00:00.
const BEGINNING: Moment = Moment(1_704_067_200);

/// A bank and its clients, all files that were ever sent, and the clock.
pub(crate) struct Parts {
    pub(crate) server: Server,
    pub(crate) customers: Vec<Customer>,
    pub(crate) requests: Bag,
    pub(crate) replies: Bag,
    pub(crate) clock: Moment,
    alloc: Global,
}

impl Model for Parts {
    ghost use Rattle.ofx_world.specs.World.{WorldView};

    ghost Value = { WorldView };

    ghost view = { λ p. record {
      server = p.server;
      customers = p.customers.items;
      requests = p.requests.files;
      replies = p.replies.files;
      clock = p.clock;
    } };
}

impl Drop for Parts {
    fn drop(self) {
        let Parts {
            server: _,
            customers: _,
            requests: _,
            replies: _,
            clock: _,
            alloc: _,
        } = self;
    }
}

impl Parts {
    /// A fresh bank of that setup, and these clients, each with its saved text. Both bags are empty.
    pub(crate) fn begin(
        alloc: Global,
        keys: RandomState,
        setup: Setup,
        clients: Vec<Client>,
    ) -> Result<Parts, OutOfMemory>
        requires { IsWithinLimits setup }
        ensures { IfOk result (λ parts. Begins setup clients.items parts) }
    {
        Ok(Parts {
            server: Server::begin(alloc, keys, setup)?,
            customers: customers_of(alloc, clients)?,
            requests: Bag::new(alloc),
            replies: Bag::new(alloc),
            clock: BEGINNING,
            alloc,
        })
    }

    /// Makes a step. Where memory is refused nothing has changed, but that what was pending may have been settled.
    pub(crate) fn take(&mut self, step: &Step) -> Result<(), OutOfMemory>
        requires sound { IsSoundWorld self.old }
        requires clock { HasLawfulClock step.now }
        ensures step { OnOk result (IsStep self.old step.now self.new) }
        ensures recorded { OnOk result (IsRecorded self.old step.now) }
        ensures refused { OnErr result (IsCut self.old self.new) }
    {
        match step {
            Step::Make(client, wish) => self.make(*client, wish),
            Step::SendAgain(client) => self.send_again(*client),
            Step::RestartClient(client) => self.restart_client(*client),
            Step::Deliver(request) => self.deliver(*request),
            Step::DeliverReply(client, reply) => self.deliver_reply(*client, *reply),
            Step::Due => self.do_due(),
            Step::Letter(user, subject, body) => self.write_letter(*user, subject, body),
            Step::Fault(landed) => {
                self.server.fail_next(*landed);
                Ok(())
            }
            Step::RestartServer => self.restart_server(),
            Step::Clock(at) => {
                self.clock = *at;
                Ok(())
            }
        }
    }

    fn make(&mut self, number: u32, wish: &Wish) -> Result<(), OutOfMemory>
        requires { IsSoundWorld self.old }
        ensures step { OnOk result (MakeStep self.old number wish.now (slice_get self.old.customers number) self.new) }
        ensures refused { OnErr result (self.new ≡ self.old) }
    {
        let Some(customer) = self.customers.get(number as usize) else {
            return Ok(());
        };
        self.requests.reserve()?;
        match customer.made(self.alloc, self.server.setup(), wish, self.clock)? {
            Some((customer, file)) => {
                self.requests.put(file);
                self.customers[number as usize] = customer;
                Ok(())
            }
            None => Ok(()),
        }
    }

    fn send_again(&mut self, number: u32) -> Result<(), OutOfMemory>
        requires { IsSoundWorld self.old }
        ensures step { OnOk result (self.new ≡ sent_again self.old (slice_get self.old.customers number)) }
        ensures refused { OnErr result (self.new ≡ self.old) }
    {
        let Some(customer) = self.customers.get(number as usize) else {
            return Ok(());
        };
        self.requests.reserve()?;
        match customer.sent(self.alloc, self.server.setup())? {
            Some(file) => {
                self.requests.put(file);
                Ok(())
            }
            None => Ok(()),
        }
    }

    fn restart_client(&mut self, number: u32) -> Result<(), OutOfMemory>
        ensures step { OnOk result (RestartStep self.old number (slice_get self.old.customers number) self.new) }
        ensures refused { OnErr result (self.new ≡ self.old) }
    {
        let Some(customer) = self.customers.get(number as usize) else {
            return Ok(());
        };
        let customer = customer.restarted(self.alloc)?;
        self.customers[number as usize] = customer;
        Ok(())
    }

    fn deliver(&mut self, number: u32) -> Result<(), OutOfMemory>
        requires { IsSoundWorld self.old }
        ensures step { OnOk result (DeliverStep self.old (slice_get self.old.requests number) self.new) }
        ensures refused { OnErr result (IsCut self.old self.new) }
    {
        let Some(file) = self.requests.file(number) else {
            return Ok(());
        };
        self.replies.reserve()?;
        match self.server.deliver(file, self.clock)? {
            Some(reply) => {
                self.replies.put(reply);
                Ok(())
            }
            None => Ok(()),
        }
    }

    fn deliver_reply(&mut self, number: u32, reply: u32) -> Result<(), OutOfMemory>
        requires { IsSoundWorld self.old }
        ensures step { OnOk result (DeliverReplyStep self.old number (slice_get self.old.customers number) (slice_get self.old.replies reply) self.new) }
        ensures refused { OnErr result (self.new ≡ self.old) }
    {
        let Some(customer) = self.customers.get(number as usize) else {
            return Ok(());
        };
        let Some(file) = self.replies.file(reply) else {
            return Ok(());
        };
        match customer.accepted(self.alloc, file)? {
            Some(customer) => {
                self.customers[number as usize] = customer;
                Ok(())
            }
            None => Ok(()),
        }
    }

    fn do_due(&mut self) -> Result<(), OutOfMemory>
        requires { IsSoundWorld self.old }
        ensures step { OnOk result (self.new ≡ with_server self.old (due_done self.old.server self.old.clock)) }
        ensures recorded { OnOk result (IsRecorded self.old steps.Due) }
        ensures refused { OnErr result (IsCut self.old self.new) }
    {
        self.server.do_due(self.clock)
    }

    fn write_letter(&mut self, user: UserId, subject: &Text, body: &Text) -> Result<(), OutOfMemory>
        requires { IsSoundWorld self.old }
        ensures step { OnOk result (LetterStep self.old user subject.now body.now self.new) }
        ensures refused { OnErr result (IsCut self.old self.new) }
    {
        self.server.write_letter(user, subject, body, self.clock)
    }

    fn restart_server(&mut self) -> Result<(), OutOfMemory>
        ensures step { OnOk result (RestartServerStep self.old self.new) }
        ensures refused { OnErr result (IsCut self.old self.new) }
    {
        self.server.restart()
    }

    /// The book and the accounts of the bank, when the world is over.
    pub(crate) fn into_bank_parts(
        self,
        alloc: Global,
    ) -> Result<(Book<OfxPrinter>, Vec<Account>), OutOfMemory>
        ensures setup { IfOk result (λ parts. parts.0.setup ≡ self.server.setup) }
        ensures state { IfOk result (λ parts. parts.0.state ≡ self.server.state) }
        ensures accounts { IfOk result (λ parts. AreAccountsIn self.server.setup self.server.state parts.1.items) }
    {
        let Parts {
            server,
            customers: _,
            requests: _,
            replies: _,
            clock: _,
            alloc: _,
        } = self;
        server.into_parts(alloc)
    }
}

/// Clients that save what they know.
#[tactic(auto, using(crate::proofs::Turns::have_saved_then))]
fn customers_of(alloc: Global, clients: Vec<Client>) -> Result<Vec<Customer>, OutOfMemory>
    ensures { IfOk result (λ customers. HaveSaved clients.items customers.items) }
{
    let mut customers = Vec::with_capacity(alloc, clients.len())?;
    for client in clients {
        customers.push(Customer::new(client)?)?;
    }
    Ok(customers)
}
