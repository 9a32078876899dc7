//! The transactions that a client holds, and when a recipient is asked for.
ghost use Rattle.std.specs.Prelude.{◌≡◌, ◌<◌, ◌^◌, [], ℕ, List, length, is_some, Option, Some};
ghost use Rattle.std.specs.Prelude.{None};
ghost use Rattle.std.specs.Prelude.{IfOk, OnOk, OnErr, IfSome, if◌then◌else◌, ◌==◌, ◌+◌, true};
ghost use Rattle.std.specs.Option.{option_copied};
ghost use Rattle.mq_client.specs.Past.{find, is_other, refuses, let_through, opened};
ghost use Rattle.mq_client.specs.Causes.{cause_by};
ghost use Rattle.mq_client.specs.declared.held_transaction.HeldTransaction.{HeldTransaction as AnyHeldTransaction};

use crate::held_transaction::HeldTransaction;
use crate::recipient_answer::RecipientAnswer;
use crate::refusal::RefusalCause;
use mq_request::Login;
use mq_request::bounds::COUNT_LIMIT;
use std::alloc::{AllocError, Global};
use std::collections::BTreeMap;
use std::marker::Model;

/// The most transactions that are held and closings that wait.
const PLACES: usize = 4096;

/// The transactions that a client holds, each from its first request until its closing.
#[derive(Drop)]
pub struct Transactions {
    alloc: Global,
    records: BTreeMap<u32, HeldTransaction>,
}

impl Model for Transactions {
    ghost use Rattle.std.specs.Prelude.{List, ℕ};
    ghost use Rattle.mq_client.specs.declared.held_transaction.HeldTransaction.{HeldTransaction as AnyHeldTransaction};

    ghost Value = { List (ℕ × AnyHeldTransaction) };

    ghost view = { λ held. held.records.entries };
}

/// Whether a transaction is held with another login or moment.
fn is_other(known: &HeldTransaction, moment: u64, login: &[u8]) -> bool
    ensures { result ≡ is_other known.now moment login.now }
{
    known.login.as_slice() != login || known.moment != moment
}

/// What is known of a transaction at its first request.
fn opened(alloc: Global, moment: u64, login: &[u8]) -> Result<HeldTransaction, AllocError>
    ensures { IfOk result (λ held. held ≡ opened moment login.now None) }
{
    Ok(HeldTransaction {
        login: Login::from_slice(alloc, login)?,
        moment,
        granted: 0,
    })
}

impl Transactions {
    /// No transaction.
    pub fn new(alloc: Global) -> Transactions
        ensures { result ≡ [] }
    {
        Transactions {
            alloc,
            records: BTreeMap::new(alloc),
        }
    }

    /// How many there are.
    pub fn len(&self) -> usize
        ensures { result ≡ length self.now }
    {
        self.records.len()
    }

    /// What is known of a transaction, where it is held.
    pub fn get(&self, txn: u32) -> Option<&HeldTransaction>
        ensures { option_copied result ≡ find self.now txn }
    {
        self.records.get(&txn)
    }

    /// Why a recipient isn't asked for: its transaction is held with another login or moment, or
    /// has let its last one through; or it isn't held and no place is left; or a number would be
    /// lacking for this request or for the closing of a held transaction.
    pub fn refusal(
        &self,
        numbers: u32,
        waiting: usize,
        txn: u32,
        moment: u64,
        login: &[u8],
    ) -> Option<RefusalCause>
        requires { waiting < 2 ^ 32 }
        ensures refuses { is_some result ≡ refuses (find self.now txn)
            (length self.now) numbers waiting moment
            login.now }
        ensures cause { result ≡ cause_by (find self.now txn)
            (length self.now) numbers waiting moment login.now }
    {
        let live = self.records.len();
        let unused = (u32::MAX - numbers) as usize;
        // A number is kept for the closing of each live transaction, and of this one where it is
        // new.
        match self.records.get(&txn) {
            Some(known) => {
                if is_other(known, moment, login) {
                    Some(RefusalCause::Changed)
                } else if known.granted >= COUNT_LIMIT {
                    // (one settle has to count them all)
                    Some(RefusalCause::Recipients)
                } else if unused < 1 + live {
                    Some(RefusalCause::Numbers)
                } else {
                    None
                }
            }
            None => {
                if live + waiting >= PLACES {
                    Some(RefusalCause::Places)
                } else if unused < 2 + live {
                    Some(RefusalCause::Numbers)
                } else {
                    None
                }
            }
        }
    }

    /// Holds a transaction, if it isn't held. An `Err` changes nothing.
    pub fn hold(&mut self, txn: u32, moment: u64, login: &[u8]) -> Result<(), AllocError>
        ensures find { OnOk result ((t : ℕ) → find self.new t ≡ (if txn == t
            then Some (opened moment login.now (find self.old txn)) else find self.old t)) }
        ensures len { OnOk result (length self.new ≡ (if is_some (find self.old txn)
            then length self.old else length self.old + 1)) }
        ensures err { OnErr result (self.new ≡ self.old) }
    {
        if self.records.contains_key(&txn) {
            return Ok(());
        }
        let opened = opened(self.alloc, moment, login)?;
        self.records.insert(txn, opened)?;
        Ok(())
    }

    /// Counts a recipient that was let through.
    pub fn count(&mut self, txn: u32, answer: RecipientAnswer)
        requires { IfSome (find self.old txn) (λ h. h.granted < 1000) }
        ensures find { (h : AnyHeldTransaction) → find self.old txn ≡ Some h → (t : ℕ) →
            find self.new t ≡ (if txn == t then Some (let_through answer h) else find self.old t) }
        ensures len { length self.new ≡ length self.old }
    {
        if answer != RecipientAnswer::Granted {
            return;
        }
        if let Some(known) = self.records.get_mut(&txn) {
            known.granted += 1;
        }
    }

    /// A transaction is held no longer.
    pub fn release(&mut self, txn: u32)
        requires { is_some (find self.old txn) ≡ true }
        ensures find { (t : ℕ) → find self.new t ≡ (if txn == t then None else find self.old t) }
        ensures len { length self.new + 1 ≡ length self.old }
    {
        self.records.remove(&txn);
    }
}
