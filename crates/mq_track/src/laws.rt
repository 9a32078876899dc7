//! What holds of sessions and transactions after any accepted lines. Each function states a law in
//! its contract and does nothing.
ghost use Rattle.mq_track.specs.Laws.{LoginsAreApart, TransactionsAreApart, AreNumbered};
ghost use Rattle.mq_track.specs.Laws.{HaveOneSession};
ghost use Rattle.mq_track.specs.Laws.{StayClosed, NoneVanishes, NoneStandsClosed, AreClosedOnce};
ghost use Rattle.mq_track.specs.Laws.{ClosedBegan};

/// Two sessions never disturb each other: a line that isn't of a session changes neither its login
/// nor its open transaction.
pub fn sessions_are_apart()
    ensures logins { LoginsAreApart }
    ensures transactions { TransactionsAreApart }
{}

/// An open transaction has one of the numbers from 1 to the count of tx-begins, and no two sessions
/// have one of the same number open.
pub fn open_numbers_differ()
    ensures numbered { AreNumbered }
    ensures one_session { HaveOneSession }
{}

/// No later transaction has the number of a closed one: it is never opened again.
pub fn closed_stays_closed()
    ensures { StayClosed }
{}

/// No transaction is forgotten: one that is open stays open, or the line brings its closing.
pub fn none_vanishes()
    ensures { NoneVanishes }
{}

/// A closing is the last of its transaction: no session stands in one that was closed, so that
/// nothing is asked for it again, and none is closed twice. What is closed has the number of a
/// tx-begin.
pub fn closings_are_last()
    ensures standing { NoneStandsClosed }
    ensures once { AreClosedOnce }
    ensures began { ClosedBegan }
{}
