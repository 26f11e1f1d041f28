//! Rows of SQL as bytes that are added to a hash. What is added of a row can't be taken for that of
//! another: a number shows where it ends, and a list begins with its length.
ghost use Rattle.std.specs.Prelude.{◌∷◌, ◌++◌, length};
ghost use Rattle.room_store_file.specs.RowHash.{Adds};
ghost use Rattle.room_store_file.specs.DigestTexts.{number_text, row_text, table_text, value_text};
ghost use Rattle.sqlite_value.specs.Value.{owned};
ghost use Rattle.sqlite_value.specs.declared.value.Value.TheVariants.{Int};

use sha2::{Digest, Sha256};
use sqlite::Row;
use sqlite_value::value::ValueRef;

/// Adds the rows of a table.
pub fn add_rows(hasher: &mut Sha256, rows: &[Row])
    ensures { Adds hasher.old hasher.new (table_text rows.now) }
{
    add_length(hasher, rows.len());
    for row in rows {
        add_row(hasher, row);
    }
}

fn add_row(hasher: &mut Sha256, row: &Row)
    ensures { Adds hasher.old hasher.new (row_text row.now) }
{
    let width = row.column_count();
    add_length(hasher, width);
    for at in 0..width {
        if let Ok(value) = row.get_ref(at) {
            add_value(hasher, value);
        }
    }
}

fn add_value(hasher: &mut Sha256, value: ValueRef<'_>)
    ensures { Adds hasher.old hasher.new (value_text (owned value.entry)) }
{
    match value {
        ValueRef::Null => add(hasher, &[0]),
        ValueRef::Int(number) => add_integer(hasher, number),
        ValueRef::Text(text) => add_bytes(hasher, 3, text),
        ValueRef::Blob(bytes) => add_bytes(hasher, 4, bytes),
        ValueRef::Real(_) => add(hasher, &[5]),
    }
}

fn add_integer(hasher: &mut Sha256, number: i64)
    ensures { Adds hasher.old hasher.new (value_text (Int number)) }
{
    if number < 0 {
        add(hasher, &[2]);
        add_number(hasher, -(number + 1) as u64);
    } else {
        add(hasher, &[1]);
        add_number(hasher, number as u64);
    }
}

// Adds bytes after their kind and their length.
fn add_bytes(hasher: &mut Sha256, kind: u8, bytes: &[u8])
    ensures { Adds hasher.old hasher.new (kind ∷ number_text (length bytes.now) ++ bytes.now) }
{
    add(hasher, &[kind]);
    add_length(hasher, bytes.len());
    add(hasher, bytes);
}

fn add_length(hasher: &mut Sha256, length: usize)
    ensures { Adds hasher.old hasher.new (number_text length) }
{
    add_number(hasher, length as u64);
}

// Adds a number in groups of seven bits, the lowest first.
fn add_number(hasher: &mut Sha256, number: u64)
    ensures { Adds hasher.old hasher.new (number_text number) }
{
    let mut rest = number;
    while rest >= 128 {
        add(hasher, &[128 + (rest % 128) as u8]);
        rest /= 128;
    }
    add(hasher, &[rest as u8]);
}

fn add(hasher: &mut Sha256, bytes: &[u8])
    ensures { Adds hasher.old hasher.new bytes.now }
{
    hasher.update(bytes);
}
