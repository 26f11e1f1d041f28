//! The names of the files that a database uses beside its own.
ghost use Rattle.std.specs.Prelude.{◌↔◌, IsTrue, MatchBool};
ghost use Rattle.dispatch_room_cli.specs.DatabaseNames.{IsApart, IsBeside, IsLastName};
ghost use Rattle.dispatch_room_cli.specs.DatabaseNames.{IsOfDatabase};

/// What SQLite appends to the name of its file for the files that it has beside it.
pub const ENDS: [&str; 3] = ["-journal", "-wal", "-shm"];

/// Whether a path has the name of a file that the database of another path uses, whichever folder
/// it lies in. A journal of that name would be taken for the database's own, which no longer opens.
pub fn is_of_database(file: &str, path: &str) -> bool
    ensures { MatchBool result (IsOfDatabase file.now path.now) (IsApart file.now path.now) }
{
    is_beside(name_in(file), name_in(path))
}

fn is_beside(own: &str, name: &str) -> bool
    ensures { IsTrue result ↔ IsBeside own.now name.now }
{
    match name.strip_prefix(own) {
        Some(end) => ENDS.contains(&end),
        None => false,
    }
}

// The last name of a path.
fn name_in(path: &str) -> &str
    ensures { IsLastName path.now result.now }
{
    match path.rsplit_once('/') {
        Some((_, name)) => name,
        None => path,
    }
}
