//! Rows by key: what a row is, a table of rows in key order, and a part of one.
ghost use Rattle.std.specs.Prelude.{◌≡◌, ℕ, Bool, false, List, [], length, IsTrue, ◌↔◌, IfOk};
ghost use Rattle.std.specs.Prelude.{IfErr, OnOk, OnErr, filter, option_copied, None, if◌then◌else◌};
ghost use Rattle.std.specs.Iterator.Adapters.{IterYieldsInOrder};
ghost use Rattle.std.specs.Slice.Iter.{iter_rest};
ghost use Rattle.std.specs.Cow.{cow_slice_items};
ghost use Rattle.std.specs.declared.cmp.Ordering.TheVariants.{Equal};
ghost use Rattle.room_types.specs.KeyedRows.{IsKeyed, row_at, put_row, drop_row, keep, listed};
ghost use Rattle.room_types.specs.KeyedRows.{IsAt, IsGapFor};
ghost use Rattle.room_types.specs.declared.refusal_statuses.Refusal.TheVariants.{Memory};

use crate::refusal_statuses::Refusal;
use room_place::plans::DivisionNumber;
use std::alloc::Global;
use std::borrow::CowSlice;
use std::marker::Model;
use std::slice::Iter;

/// A row of a table. It has a key, of which a table holds one row at most, and divisions that own
/// it: only the desks of these divisions see and change it.
///
/// The law of the keys: two that compare alike are one and the same.
pub trait Row: Copy {
    type Key: Ord + Copy;

    ghost key_of: { Self → Self.Key };

    ghost owned: { ℕ → Self → Bool };

    /// The key of the row.
    fn key(&self) -> Self::Key
        ensures { result ≡ key_of self.now };

    /// Whether the division owns the row.
    fn owned_by(&self, division: DivisionNumber) -> bool
        ensures { result ≡ owned division self.now };

    ghost exact: { (a b : Self.Key) → Self.Key.cmp a b ≡ Equal → a ≡ b };
}

/// Rows in key order, no two of one key. A contract sees the list of the rows.
#[derive(Drop)]
pub struct Rows<R: Row> {
    rows: Vec<R>,
}

impl<R: Row> Model for Rows<R> {
    ghost Value = { List R };

    ghost view = { λ a. a.rows.items };

    ghost invariant = { λ a. IsKeyed R.Key.cmp R.key_of a.rows.items };
}

impl<R: Row> Rows<R> {
    /// No rows yet. It takes no memory before the first put.
    pub fn new(alloc: Global) -> Self
        ensures { result ≡ [] }
    {
        Rows {
            rows: Vec::new(alloc),
        }
    }

    /// The rows, in key order.
    pub fn as_slice(&self) -> &[R]
        ensures all { result.now ≡ self.now }
        ensures keyed { IsKeyed R.Key.cmp R.key_of self.now }
    {
        self.rows.as_slice()
    }

    /// The rows one after another, in key order.
    pub fn iter(&self) -> Iter<'_, R>
        ensures rest { iter_rest result ≡ self.now }
        ensures runs { IterYieldsInOrder R }
    {
        self.rows.iter()
    }

    /// How many rows there are.
    pub fn len(&self) -> usize
        ensures { result ≡ length self.now }
    {
        self.rows.len()
    }

    /// Whether there is no row.
    pub fn is_empty(&self) -> bool
        ensures { IsTrue result ↔ (self.now ≡ []) }
    {
        self.rows.is_empty()
    }

    /// The row of a key; none where no row has it.
    pub fn get(&self, key: &R::Key) -> Option<&R>
        ensures { option_copied result ≡ row_at R.Key.cmp R.key_of self.now key.now }
    {
        find(self.as_slice(), key)
    }

    /// Puts a row in its key's place, and returns the row of that key that was there before. Rows
    /// that come in key order are put at the end, at no search. The one refusal is `Memory`; it
    /// changes nothing.
    pub fn put(&mut self, row: R) -> Result<Option<R>, Refusal>
        ensures before { IfOk result (λ before.
            before ≡ row_at R.Key.cmp R.key_of self.old (R.key_of row)) }
        ensures ok { OnOk result (self.new ≡ put_row R.Key.cmp R.key_of self.old row) }
        ensures err { OnErr result (self.new ≡ self.old) }
        ensures memory { IfErr result (λ refusal. refusal ≡ Memory) }

        // A division's rows change only where it owns the old row or the new one.
        ensures local { (d : ℕ) → R.owned d row ≡ false
            → keep (R.owned d) (row_at R.Key.cmp R.key_of self.old (R.key_of row)) ≡ None
            → filter (R.owned d) self.new ≡ filter (R.owned d) self.old }
        // They are the rows with this one, where it is the division's, and else without that of its
        // key.
        ensures own { OnOk result ((d : ℕ)
            → filter (R.owned d) self.new ≡
            (if R.owned d row then put_row R.Key.cmp R.key_of
            (filter (R.owned d) self.old) row else drop_row R.Key.cmp R.key_of
            (filter (R.owned d) self.old) (R.key_of row))) }
    {
        match self.search(&row.key()) {
            Ok(at) => {
                let before = self.rows[at];
                self.rows[at] = row;
                Ok(Some(before))
            }
            Err(at) => {
                self.rows.insert(at, row)?;
                Ok(None)
            }
        }
    }

    /// Takes the row of a key out, and returns it; none where no row has that key.
    pub fn take(&mut self, key: &R::Key) -> Option<R>
        ensures before { result ≡ row_at R.Key.cmp R.key_of self.old key.now }
        ensures removed { self.new ≡ drop_row R.Key.cmp R.key_of self.old key.now }
    {
        match self.search(key) {
            Ok(at) => Some(self.rows.remove(at)),
            Err(_) => None,
        }
    }

    /// The rows that the division owns. The one refusal is `Memory`.
    pub fn owned_by(&self, alloc: Global, division: DivisionNumber) -> Result<Rows<R>, Refusal>
        ensures ok { IfOk result (λ own. own ≡ filter (R.owned division) self.now) }
        ensures memory { IfErr result (λ refusal. refusal ≡ Memory) }
    {
        let mut rows = Vec::new(alloc);
        for row in &self.rows {
            if row.owned_by(division) {
                rows.push(*row)?;
            }
        }
        Ok(Rows { rows })
    }

    /// The row of a key, where the division owns it. It is lent: nothing is copied.
    pub fn lend(&self, division: DivisionNumber, key: &R::Key) -> Part<'_, R>
        ensures { result
            ≡ listed (keep (R.owned division) (row_at R.Key.cmp R.key_of self.now key.now)) }
    {
        match self.search(key) {
            Ok(at) => {
                if self.rows[at].owned_by(division) {
                    return Part {
                        kept: CowSlice::Borrowed(&self.rows[at..=at]),
                    };
                }
                Part::none()
            }
            Err(_) => Part::none(),
        }
    }

    // Where the key is, or where it would go.
    fn search(&self, key: &R::Key) -> Result<usize, usize>
        ensures found { IfOk result (IsAt R.Key.cmp R.key_of self.now key.now) }
        ensures absent { IfErr result (IsGapFor R.Key.cmp R.key_of self.now key.now) }
    {
        search(self.as_slice(), key)
    }
}

/// Part of a table's rows, in key order, no two of one key: rows of its own, or one that the table
/// lends. A contract sees the list of the rows.
#[derive(Drop)]
pub struct Part<'a, R: Row> {
    kept: CowSlice<'a, R>,
}

impl<'a, R: Row> Model for Part<'a, R> {
    ghost Value = { List R };

    ghost view = { λ a. cow_slice_items a.kept };

    ghost invariant = { λ a. IsKeyed R.Key.cmp R.key_of (cow_slice_items a.kept) };
}

impl<'a, R: Row> Part<'a, R> {
    /// No rows. It takes no memory.
    pub fn none() -> Part<'a, R>
        ensures { result ≡ [] }
    {
        Part {
            kept: CowSlice::Borrowed(&[]),
        }
    }

    /// These rows.
    pub fn own(rows: Rows<R>) -> Part<'a, R>
        ensures { result ≡ rows }
    {
        Part {
            kept: CowSlice::Owned(rows.rows),
        }
    }

    /// The rows, in key order.
    pub fn as_slice(&self) -> &[R]
        ensures all { result.now ≡ self.now }
        ensures keyed { IsKeyed R.Key.cmp R.key_of self.now }
    {
        self.kept.as_slice()
    }

    /// The row of a key; none where no row has it.
    pub fn get(&self, key: &R::Key) -> Option<&R>
        ensures { option_copied result ≡ row_at R.Key.cmp R.key_of self.now key.now }
    {
        find(self.as_slice(), key)
    }
}

// The row of a key among rows in key order; none where no row has it.
fn find<'a, R: Row>(rows: &'a [R], key: &R::Key) -> Option<&'a R>
    requires { IsKeyed R.Key.cmp R.key_of rows.now }
    ensures { option_copied result ≡ row_at R.Key.cmp R.key_of rows.now key.now }
{
    match search(rows, key) {
        Ok(at) => Some(&rows[at]),
        Err(_) => None,
    }
}

// Where a key is among rows in key order, or where it would go. The end is looked at first, since
// rows mostly come in key order.
fn search<R: Row>(rows: &[R], key: &R::Key) -> Result<usize, usize>
    requires { IsKeyed R.Key.cmp R.key_of rows.now }
    ensures found { IfOk result (IsAt R.Key.cmp R.key_of rows.now key.now) }
    ensures absent { IfErr result (IsGapFor R.Key.cmp R.key_of rows.now key.now) }
{
    if let Some(last) = rows.last()
        && last.key().cmp(key).is_lt()
    {
        return Err(rows.len());
    }
    rows.binary_search_by_key(key, |row| row.key())
}
