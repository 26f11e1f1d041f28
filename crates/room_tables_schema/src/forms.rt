//! What a table or an index is tested for. They are tuples and not structs, so that a contract can
//! name them: a struct with a reference in it has no name there.

use sqlite_schema::schema::Kind;

/// What a column takes: values of one kind, and NULL only where none is needed.
#[derive(Clone, Copy)]
pub struct Rule {
    pub kind: Kind,
    pub is_needed: bool,
}

pub(crate) const INTEGER: Rule = Rule {
    kind: Kind::Integer,
    is_needed: true,
};

pub(crate) const INTEGER_OR_NULL: Rule = Rule {
    kind: Kind::Integer,
    is_needed: false,
};

pub(crate) const TEXT: Rule = Rule {
    kind: Kind::Text,
    is_needed: true,
};

pub(crate) const TEXT_OR_NULL: Rule = Rule {
    kind: Kind::Text,
    is_needed: false,
};

pub(crate) const BLOB: Rule = Rule {
    kind: Kind::Blob,
    is_needed: true,
};

/// A column's name, and what it takes.
pub(crate) type ColumnForm = (&'static str, Rule);

/// A table's name, its tree, the places of its key (none where the rowid is the key), and its
/// columns.
pub(crate) type TableForm = (&'static str, u32, &'static [usize], &'static [ColumnForm]);

/// An index's name, its tree, its table's tree, the places of its columns, and whether it keeps a
/// key.
pub(crate) type IndexForm = (&'static str, u32, u32, &'static [usize], bool);
