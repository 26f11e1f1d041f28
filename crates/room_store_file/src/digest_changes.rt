//! Changes of a room that are made where it comes to a digest by them.
ghost use Rattle.std.specs.Prelude.{◌≡◌, ◌↔◌, false, IsTrue, IfErr, OnOk};
ghost use Rattle.hex.specs.Hex.{encode_lower};
ghost use Rattle.sqlite.specs.Held.{state};
ghost use Rattle.sqlite.specs.State.{Survives};
ghost use Rattle.room_model.specs.Room.{apply};
ghost use Rattle.room_tables.specs.RoomsInTables.{Stands};
ghost use Rattle.room_tables_schema.specs.FileConnections.{HasRoomSchema, MayWrite, IsClean};
ghost use Rattle.room_tables_schema.specs.DatabaseFaults.{fault_of};
ghost use Rattle.room_tables_schema.specs.Outcomes.{CommitsNothing};
ghost use Rattle.room_store_writes.specs.Transactions.{Commits, MakesAll, LeavesOnErr};
ghost use Rattle.room_store_writes.specs.Transactions.{StandsSettled};
ghost use Rattle.room_store_file.specs.DigestChanges.{Misses, Reaches};
ghost use Rattle.room_store_file.specs.declared.digest_changes.FailedStep.TheVariants.{OtherDigest};
ghost use Rattle.room_store_file.specs.declared.digest_changes.FailedStep.TheVariants.{Unavailable};

use crate::room_digest::digest_inside;
use room_model::digests::StartDigest;
use room_store_writes::transactions::{end, put_each};
use room_tables_schema::database_faults::Fault;
use room_types::changes::Change;
use sqlite::{Alter, Connection, Error, Transaction};

/// Why changes were undone.
#[derive(Clone, Copy)]
pub enum FailedStep {
    /// The room comes to another digest by them.
    OtherDigest,
    /// Memory was refused, or storage failed.
    Unavailable(Fault),
}

impl From<Fault> for FailedStep {
    ghost from_gives = { λ fault undone. undone ≡ Unavailable fault };

    fn from(fault: Fault) -> FailedStep {
        FailedStep::Unavailable(fault)
    }
}

impl From<Error> for FailedStep {
    ghost from_gives = { λ error undone. undone ≡ Unavailable (fault_of error) };

    fn from(error: Error) -> FailedStep {
        FailedStep::Unavailable(Fault::from(error))
    }
}

/// Makes all changes where the room comes by them to the digest of this head, or none. What a stop
/// may leave is what it could before, or the room after all of them, which has the digest.
pub fn write_towards<S: Alter>(
    conn: &mut Connection<S>,
    changes: &[Change],
    head: &StartDigest,
) -> Result<(), FailedStep>
    requires room { HasRoomSchema S.Store conn.old }
    requires outside { conn.old.in_transaction ≡ false }
    requires settled { StandsSettled S.Store conn.old }
    ensures ok { IsClean S.Store conn.new
        → OnOk result (Commits (state S.Store conn.old) (state S.Store conn.new)
        (Stands (state S.Store conn.old).now.trees) (λ room. apply room changes.now)) }
    ensures reaches { IsClean S.Store conn.new
        → OnOk result (Reaches changes.now head.now (state S.Store conn.old).now.trees
        (state S.Store conn.new).now.trees) }
    ensures another { IsClean S.Store conn.new
        → IfErr result (λ e. e ≡ OtherDigest
        → Misses changes.now head.now (state S.Store conn.old).now.trees) }
    ensures err { LeavesOnErr S.Store conn.old conn.new result }
    ensures ended { conn.new.in_transaction ≡ false }
    ensures survives { Survives (state S.Store conn.old) (state S.Store conn.new)
        (Reaches changes.now head.now (state S.Store conn.old).now.trees) }
{
    let mut tx = conn.transaction();
    let done = make_towards(&mut tx, changes, head);
    end(tx, done)
}

// Makes the changes. It fails where the room doesn't come to the digest by them.
fn make_towards<S: Alter>(
    tx: &mut Transaction<'_, S>,
    changes: &[Change],
    head: &StartDigest,
) -> Result<(), FailedStep>
    requires inside { MayWrite S.Store tx.old.conn.now }
    ensures same_reference { tx.new.conn.ghost_name ≡ tx.old.conn.ghost_name }
    ensures ok { IsClean S.Store tx.new.conn.now
        → OnOk result (MakesAll (state S.Store tx.old.conn.now)
        (state S.Store tx.new.conn.now) changes.now
        × Reaches changes.now head.now (state S.Store tx.old.conn.now).now.trees
        (state S.Store tx.new.conn.now).now.trees) }
    ensures another { IsClean S.Store tx.new.conn.now
        → IfErr result (λ e. e ≡ OtherDigest
        → Misses changes.now head.now (state S.Store tx.old.conn.now).now.trees) }
    ensures commits { CommitsNothing S.Store tx.old.conn.now tx.new.conn.now }
{
    put_each(tx, changes)?;
    let hash = digest_inside(tx, head.version)?;
    if is_written(&hash, &head.digits) {
        Ok(())
    } else {
        Err(FailedStep::OtherDigest)
    }
}

// Whether these are the digits of a SHA-256.
fn is_written(hash: &[u8; 32], digits: &[u8; 64]) -> bool
    ensures { IsTrue result ↔ (encode_lower hash.now ≡ digits.now) }
{
    let mut written = [0; 64];
    let _ = hex::encode_to_slice(hash.as_slice(), &mut written);
    written.as_slice() == digits.as_slice()
}
