//! What holds of the tables. Each law is the contract of a function that does nothing; `before` and
//! `after` are the two sides of a call.

ghost use Rattle.std.specs.Prelude.{◌≡◌, ℕ, IsTrue, List, []};
ghost use Rattle.std.specs.declared.cmp.Ordering.{Ordering};
ghost use Rattle.sqlite.specs.Held.{state};
ghost use Rattle.sqlite.specs.Order.{Row};
ghost use Rattle.sqlite.specs.Schema.{Schema};
ghost use Rattle.sqlite.specs.Tree.{Trees};
ghost use Rattle.room_tables_schema.specs.Laws.{
  ShowsPassing,
  ShowsAll,
  RowidsShow,
  CreateMakes,
  IndexMakes,
  StandsForOne,
  StandsForRead,
  NumbersRead,
  SelectionIsChosen,
  InsertionPuts,
  UpsertPuts,
  OverwritePuts,
  DeletionDrops,
};
ghost use Rattle.room_tables_schema.specs.TableTrees.{Holds};

use sqlite::{Alter, Connection};

/// A tree stands for only one list of rows, in key order.
pub fn a_tree_stands_for_one_list<X, K>()
    ensures { (order : K → K → Ordering) (key : X → K) (row : X → Row)
        → StandsForOne order key row }
{}

/// Rows that were read of any tree, with keys that rise, are what the tree stands for, if its
/// rowids differ. Rowids that were read, and rise, do.
pub fn a_tree_stands_for_what_was_read<X, K>()
    ensures rows { (order : K → K → Ordering) (key : X → K) (row : X → Row)
        → StandsForRead order key row }
    ensures rowids { (order : K → K → Ordering) (key : X → K) (row : X → Row)
        → NumbersRead order key row }
{}

/// A selection shows the rows of any tree that pass, each once and in key order. The rowids that
/// it shows rise where the tree is numbered, and only there.
pub fn a_selection_shows_the_rows_that_pass<S: Alter>(before: &Connection<S>, after: &Connection<S>)
    ensures passing { (schema : Schema) (text : List ℕ)
        → ShowsPassing schema text (state S.Store before.now) (state S.Store after.now) }
    ensures all { (schema : Schema) (text : List ℕ)
        → ShowsAll schema text (state S.Store before.now) (state S.Store after.now) }
    ensures rowids { (schema : Schema) (text : List ℕ)
        → RowidsShow schema text (state S.Store before.now) (state S.Store after.now) }
{}

/// A selection of a table that stands for a list is a selection of the list.
pub fn a_selection_is_chosen<S: Alter, X, K>(before: &Connection<S>, after: &Connection<S>)
    ensures { (order : K → K → Ordering) (key : X → K) (row : X
        → Row) (schema : Schema) (text : List ℕ)
        → SelectionIsChosen order key row schema text (state S.Store before.now)
        (state S.Store after.now) }
{}

/// An insertion that was made puts its row among those of the list, none of which had its key.
pub fn an_insertion_puts_its_row<S: Alter, X, K>(before: &Connection<S>, after: &Connection<S>)
    ensures { (order : K → K → Ordering) (key : X → K) (row : X
        → Row) (schema : Schema) (text : List ℕ)
        → InsertionPuts order key row schema text (state S.Store before.now)
        (state S.Store after.now) }
{}

/// An upsert puts its row among those of the list, in place of the one with its key.
pub fn an_upsert_puts_its_row<S: Alter, X, K>(before: &Connection<S>, after: &Connection<S>)
    ensures { (order : K → K → Ordering) (key : X → K) (row : X
        → Row) (schema : Schema) (text : List ℕ)
        → UpsertPuts order key row schema text (state S.Store before.now)
        (state S.Store after.now) }
{}

/// An update of one row puts it in place of the one with its key, or writes none where that isn't
/// there, as its count says.
pub fn an_update_puts_its_row<S: Alter, X, K>(before: &Connection<S>, after: &Connection<S>)
    ensures { (order : K → K → Ordering) (key : X → K) (row : X
        → Row) (schema : Schema) (text : List ℕ)
        → OverwritePuts order key row schema text (state S.Store before.now)
        (state S.Store after.now) }
{}

/// A deletion by key drops the row of that key from the list.
pub fn a_deletion_drops_the_row_of_a_key<S: Alter, X, K>(
    before: &Connection<S>,
    after: &Connection<S>,
)
    ensures { (order : K → K → Ordering) (key : X → K) (row : X
        → Row) (schema : Schema) (text : List ℕ)
        → DeletionDrops order key row schema text (state S.Store before.now)
        (state S.Store after.now) }
{}

/// A new table is empty, a new index leaves all rows, and either leaves the other tables.
pub fn a_definition_leaves_the_rows<S: Alter>(before: &Connection<S>, after: &Connection<S>)
    ensures table { (schema : Schema) (text : List ℕ)
        → CreateMakes schema text (state S.Store before.now) (state S.Store after.now) }
    ensures index { (schema : Schema) (text : List ℕ)
        → IndexMakes schema text (state S.Store before.now) (state S.Store after.now) }
{}

/// While the connection is open, a stop leaves what was last committed, and nothing else.
pub fn a_stop_leaves_the_last_commit<S: Alter>(conn: &Connection<S>)
    ensures leaves { IsTrue (state S.Store conn.now).is_open → (trees : Trees)
        → (state S.Store conn.now).may_leave trees
        → trees ≡ (state S.Store conn.now).committed.trees }
    ensures stays { IsTrue (state S.Store conn.now).is_open
        → (state S.Store conn.now).may_leave (state S.Store conn.now).committed.trees }
{}

/// An empty tree stands for no rows.
pub fn an_empty_tree_stands_for_no_rows()
    ensures { (places key : List ℕ) → Holds places key [] [] }
{}
