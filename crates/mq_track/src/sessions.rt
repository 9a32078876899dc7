//! The map of sessions: of each its login, its open transaction, or both.
ghost use Rattle.std.specs.Prelude.{◌≡◌, [], ℕ, Some, None, OnOk, OnErr, is_some, IsTrue, ◌||◌};
ghost use Rattle.std.specs.Prelude.{◌<◌};
ghost use Rattle.std.specs.Option.{option_copied};

use std::alloc::{AllocError, Global};
use std::collections::BTreeMap;
use std::marker::Model;

/// A transaction that began and hasn't ended.
#[derive(Drop)]
pub(crate) struct Transaction {
    pub(crate) txn: u32,
    pub(crate) message: Vec<u8>,
    pub(crate) moment: u64,
    ghost numbered: { 0 < txn },
}

/// What is known of a session: a login, an open transaction, or both.
#[derive(Drop)]
pub(crate) struct Session {
    pub(crate) login: Option<Vec<u8>>,
    pub(crate) transaction: Option<Transaction>,
    ghost in_use: { IsTrue (is_some login || is_some transaction) },
}

/// The sessions of which something is known. Of no other session there is a record.
#[derive(Drop)]
pub(crate) struct Sessions {
    alloc: Global,
    records: BTreeMap<Vec<u8>, Session>,
}

impl Model for Sessions {
    ghost use Rattle.std.specs.Prelude.{List, ℕ, map};
    ghost use Rattle.mq_track.specs.State.{Known};

    ghost Value = { List (List ℕ × Known) };

    ghost use Rattle.mq_track.specs.Inside.{entry};

    ghost view = { λ s. map entry s.records.entries };
}

impl Sessions {
    ghost use Rattle.std.specs.Prelude.{◌≡◌, [], Some, None, OnOk, OnErr, is_some};
    ghost use Rattle.std.specs.Option.{option_copied, option_map};
    ghost use Rattle.mq_track.specs.State.{known, Learns, nothing};
    ghost use Rattle.mq_track.specs.Inside.{known_in, kept};

    pub(crate) fn new(alloc: Global) -> Sessions
        ensures { result ≡ [] }
    {
        Sessions {
            alloc,
            records: BTreeMap::new(alloc),
        }
    }

    /// The record of a session.
    pub(crate) fn get(&self, session: &[u8]) -> Option<&Session>
        ensures { known self.now session.now ≡ known_in (option_copied result) }
    {
        self.records.get(session)
    }

    /// The open transaction of a session.
    pub(crate) fn transaction(&self, session: &[u8]) -> Option<&Transaction>
        ensures { (known self.now session.now).transaction
            ≡ option_map kept (option_copied result) }
    {
        match self.get(session) {
            Some(record) => record.transaction.as_ref(),
            None => None,
        }
    }

    /// Notes a login. An `Err` changes nothing.
    pub(crate) fn log_in(&mut self, session: &[u8], login: &[u8]) -> Result<(), AllocError>
        ensures ok { OnOk result (Learns self.old self.new session.now
            (record {
              login = Some login.now;
              transaction =
                  (known self.old session.now).transaction;
            })) }
        ensures err { OnErr result (self.new ≡ self.old) }
    {
        let login = Some(Vec::from_slice(self.alloc, login)?);
        if let Some(record) = self.records.get_mut(session) {
            record.login = login;
            return Ok(());
        }
        let record = Session {
            login,
            transaction: None,
        };
        self.records
            .insert(Vec::from_slice(self.alloc, session)?, record)?;
        Ok(())
    }

    /// Notes a transaction that began. An `Err` changes nothing.
    pub(crate) fn begin(
        &mut self,
        session: &[u8],
        transaction: Transaction,
    ) -> Result<(), AllocError>
        ensures ok { OnOk result (Learns self.old self.new session.now
            (record {
              login = (known self.old session.now).login;
              transaction = Some (kept transaction);
            })) }
        ensures err { OnErr result (self.new ≡ self.old) }
    {
        if let Some(record) = self.records.get_mut(session) {
            record.transaction = Some(transaction);
            return Ok(());
        }
        let record = Session {
            login: None,
            transaction: Some(transaction),
        };
        self.records
            .insert(Vec::from_slice(self.alloc, session)?, record)?;
        Ok(())
    }

    /// Forgets the open transaction of a session.
    pub(crate) fn end(&mut self, session: &[u8])
        ensures { Learns self.old self.new session.now
            (record { login = (known self.old session.now).login; transaction = None }) }
    {
        // (of a session without a login and a transaction there is no record)
        if !self.has_login(session) {
            self.forget(session);
            return;
        }
        let Some(record) = self.records.get_mut(session) else {
            return;
        };
        record.transaction = None;
    }

    fn has_login(&self, session: &[u8]) -> bool
        ensures { result ≡ is_some (known self.now session.now).login }
    {
        match self.get(session) {
            Some(record) => record.login.is_some(),
            None => false,
        }
    }

    /// Forgets a session.
    pub(crate) fn forget(&mut self, session: &[u8])
        ensures { Learns self.old self.new session.now nothing }
    {
        self.records.remove(session);
    }
}
