//! What a fault of the database is to who asks.

ghost use Rattle.std.specs.Prelude.{◌≡◌};
ghost use Rattle.room_store.specs.StoreFaults.{refusal_of};

use room_tables_schema::database_faults::Fault;
use room_types::refusal_statuses::Refusal;

/// The refusal by which a fault is reported.
pub(crate) fn refusal_of(fault: Fault) -> Refusal
    ensures { result ≡ refusal_of fault }
{
    match fault {
        Fault::Memory => Refusal::Memory,
        Fault::Storage => Refusal::Storage,
    }
}
