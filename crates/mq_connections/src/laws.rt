//! A law of the serving of connections: the contract of a function that does nothing.
ghost use Rattle.std.specs.Prelude.{Ok};
ghost use Rattle.mq_ledger.specs.Legal.{IsLegalBook};
ghost use Rattle.mq_connections.specs.Gained.{Callers};
ghost use Rattle.mq_connections.specs.Sessions.{EndsServing, Outside};

use crate::fault::RoomFault;
use mq_server::laws::{a_life_is_served, more_exchanges};

/// Where nothing was served the book is as before, no call was made, and nothing came on any
/// connection.
pub fn nothing_is_served()
    ensures { (who : Callers) (o : Outside) → IsLegalBook o.book
        → EndsServing {A = Unit {0}} who o o RoomFault.Store (Ok tt) }
{
    a_life_is_served();
    more_exchanges();
}
