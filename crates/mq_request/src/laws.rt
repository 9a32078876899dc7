//! Laws of requests and their fields. Each is the contract of a function that does nothing.
ghost use Rattle.std.specs.Prelude.{◌≡◌, ◌↔◌, true};
ghost use Rattle.mq_request.specs.declared.bounds.TheConstants.{HOST_LIMIT, LOGIN_LIMIT, LAST_RUN};
ghost use Rattle.mq_request.specs.declared.bounds.TheConstants.{LAST_ORDINAL};
ghost use Rattle.mq_request.specs.declared.bounds.TheConstants.{FIRST_MOMENT, LAST_MOMENT};
ghost use Rattle.mq_request.specs.declared.bounds.TheConstants.{LAST_DAY, COUNT_LIMIT};
ghost use Rattle.mq_request.specs.declared.bounds.TheConstants.{AMOUNT_LIMIT, ROW_LIMIT};
ghost use Rattle.mq_request.specs.Same.{same_id, same_request};
ghost use Rattle.mq_request.specs.declared.message.Id.{Id};
ghost use Rattle.mq_request.specs.declared.message.Request.{Request};

/// The bounds of the fields, as numbers: the definitions have their names alone.
pub fn numbers_of_fields()
    ensures names { (HOST_LIMIT ≡ 64) × (LOGIN_LIMIT ≡ 255) }
    ensures places { (LAST_RUN ≡ 281474976710655) × (LAST_ORDINAL ≡ 4294967295) }
    ensures moments { (FIRST_MOMENT ≡ 86400) × (LAST_MOMENT ≡ 32503680000) }
    ensures days { LAST_DAY ≡ 376200 }
    ensures recipients { (COUNT_LIMIT ≡ 1000) × (AMOUNT_LIMIT ≡ 1000000) }
    ensures rows { ROW_LIMIT ≡ 100 }
{}

/// The tests that two ids or two requests are the same are true exactly of equal ones.
pub fn same_is_equal()
    ensures id { (id other : Id) → (same_id id other ≡ true) ↔ (id ≡ other) }
    ensures request { (request other : Request)
        → (same_request request other ≡ true) ↔ (request ≡ other) }
{}
