//! The tables and indexes of a room, as their texts make them. (Written by tools/tables.py.)

use crate::forms::{BLOB, INTEGER, INTEGER_OR_NULL, IndexForm, TEXT, TEXT_OR_NULL, TableForm};

pub(crate) const META: TableForm = (
    "meta",
    0,
    &[],
    &[("id", INTEGER), ("version", INTEGER), ("zone", TEXT)],
);

pub(crate) const AREAS: TableForm = (
    "areas",
    1,
    &[],
    &[
        ("n", INTEGER),
        ("division", INTEGER),
        ("west", INTEGER),
        ("south", INTEGER),
        ("east", INTEGER),
        ("north", INTEGER),
    ],
);

pub(crate) const TERMINALS: TableForm = (
    "terminals",
    2,
    &[1],
    &[
        ("token", TEXT),
        ("role", INTEGER),
        ("number", INTEGER),
        ("callsign", TEXT_OR_NULL),
    ],
);

pub(crate) const DIVISIONS: TableForm = (
    "divisions",
    4,
    &[],
    &[("number", INTEGER), ("last_incident", INTEGER)],
);

pub(crate) const INCIDENTS: TableForm = (
    "incidents",
    5,
    &[1, 2],
    &[
        ("division", INTEGER),
        ("number", INTEGER),
        ("east", INTEGER),
        ("north", INTEGER),
        ("class", INTEGER),
        ("need1", INTEGER),
        ("need2", INTEGER),
        ("need3", INTEGER),
        ("opened", INTEGER),
        ("first_order", INTEGER_OR_NULL),
        ("state", INTEGER),
        ("into_number", INTEGER_OR_NULL),
    ],
);

pub(crate) const CALLS: TableForm = (
    "calls",
    7,
    &[1, 2],
    &[
        ("position", INTEGER),
        ("serial", INTEGER),
        ("division", INTEGER),
        ("incident", INTEGER),
        ("given", INTEGER),
        ("linked", INTEGER),
        ("east", INTEGER),
        ("north", INTEGER),
        ("class", INTEGER),
        ("need1", INTEGER),
        ("need2", INTEGER),
        ("need3", INTEGER),
        ("note", BLOB),
        ("moment", INTEGER),
    ],
);

pub(crate) const VEHICLES: TableForm = (
    "vehicles",
    9,
    &[1],
    &[
        ("callsign", TEXT),
        ("home", INTEGER),
        ("holder", INTEGER),
        ("kind", INTEGER),
        ("east", INTEGER),
        ("north", INTEGER),
        ("status", INTEGER),
        ("shift_end", INTEGER),
        ("post", INTEGER_OR_NULL),
        ("last_order", INTEGER),
        ("last_report", INTEGER),
    ],
);

pub(crate) const TURNS: TableForm = (
    "turns",
    11,
    &[1, 2],
    &[
        ("callsign", TEXT),
        ("ord", INTEGER),
        ("division", INTEGER),
        ("incident", INTEGER),
        ("kind", INTEGER),
        ("ordered", INTEGER),
        ("acknowledged", INTEGER_OR_NULL),
        ("scene", INTEGER_OR_NULL),
        ("left_at", INTEGER_OR_NULL),
        ("hospital", INTEGER_OR_NULL),
        ("ended", INTEGER_OR_NULL),
        ("stood_down", INTEGER),
    ],
);

pub(crate) const ASSIGNMENTS: TableForm = (
    "assignments",
    13,
    &[1],
    &[
        ("callsign", TEXT),
        ("division", INTEGER),
        ("incident", INTEGER),
        ("ord", INTEGER),
        ("east", INTEGER),
        ("north", INTEGER),
        ("class", INTEGER),
    ],
);

pub(crate) const POINTS: TableForm = (
    "points",
    15,
    &[1, 2],
    &[
        ("division", INTEGER),
        ("number", INTEGER),
        ("east", INTEGER),
        ("north", INTEGER),
        ("cover", INTEGER),
    ],
);

pub(crate) const LOANS: TableForm = (
    "loans",
    17,
    &[1],
    &[
        ("callsign", TEXT),
        ("lender", INTEGER),
        ("borrower", INTEGER),
        ("since", INTEGER),
        ("until", INTEGER),
        ("recalled", INTEGER),
    ],
);

pub(crate) const REPORTS: TableForm = (
    "reports",
    19,
    &[1, 2],
    &[
        ("callsign", TEXT),
        ("number", INTEGER),
        ("button", INTEGER),
        ("ord", INTEGER),
        ("east", INTEGER),
        ("north", INTEGER),
        ("moment", INTEGER),
        ("division", INTEGER),
        ("outcome", INTEGER),
        ("status", INTEGER),
        ("cleared", INTEGER),
    ],
);

pub(crate) const OFFERS: TableForm = (
    "offers",
    21,
    &[1],
    &[
        ("callsign", TEXT),
        ("lender", INTEGER),
        ("borrower", INTEGER),
        ("since", INTEGER),
        ("until", INTEGER),
    ],
);

pub(crate) const INCIDENTS_BY_STATE: IndexForm = ("incidents_by_state", 23, 5, &[11, 1], false);

pub(crate) const INCIDENTS_BY_OPENING: IndexForm = ("incidents_by_opening", 24, 5, &[9, 1], false);

pub(crate) const CALLS_BY_INCIDENT: IndexForm = ("calls_by_incident", 25, 7, &[4, 3], false);

pub(crate) const TURNS_BY_INCIDENT: IndexForm = ("turns_by_incident", 26, 11, &[4, 3], false);

pub(crate) const REPORTS_BY_OUTCOME: IndexForm = ("reports_by_outcome", 27, 19, &[9, 11, 8], false);

/// The tables of a room, in the order in which they are made.
pub(crate) const TABLES: [TableForm; 13] = [
    META,
    AREAS,
    TERMINALS,
    DIVISIONS,
    INCIDENTS,
    CALLS,
    VEHICLES,
    TURNS,
    ASSIGNMENTS,
    POINTS,
    LOANS,
    REPORTS,
    OFFERS,
];

/// The indexes of a room: those of the keys, and those that find its working rows.
pub(crate) const INDEXES: [IndexForm; 15] = [
    ("sqlite_autoindex_terminals_1", 3, 2, &[1], true),
    ("sqlite_autoindex_incidents_1", 6, 5, &[1, 2], true),
    ("sqlite_autoindex_calls_1", 8, 7, &[1, 2], true),
    ("sqlite_autoindex_vehicles_1", 10, 9, &[1], true),
    ("sqlite_autoindex_turns_1", 12, 11, &[1, 2], true),
    ("sqlite_autoindex_assignments_1", 14, 13, &[1], true),
    ("sqlite_autoindex_points_1", 16, 15, &[1, 2], true),
    ("sqlite_autoindex_loans_1", 18, 17, &[1], true),
    ("sqlite_autoindex_reports_1", 20, 19, &[1, 2], true),
    ("sqlite_autoindex_offers_1", 22, 21, &[1], true),
    INCIDENTS_BY_STATE,
    INCIDENTS_BY_OPENING,
    CALLS_BY_INCIDENT,
    TURNS_BY_INCIDENT,
    REPORTS_BY_OUTCOME,
];

/// How many of the indexes are those of the keys.
pub(crate) const KEY_INDEXES: usize = 10;

/// How many of the tables the first version had: all but the last, `offers`.
pub(crate) const FIRST_TABLES: usize = 12;

/// The indexes of the first version. Those that find working rows took the trees behind its tables.
pub(crate) const FIRST_INDEXES: [IndexForm; 14] = [
    ("sqlite_autoindex_terminals_1", 3, 2, &[1], true),
    ("sqlite_autoindex_incidents_1", 6, 5, &[1, 2], true),
    ("sqlite_autoindex_calls_1", 8, 7, &[1, 2], true),
    ("sqlite_autoindex_vehicles_1", 10, 9, &[1], true),
    ("sqlite_autoindex_turns_1", 12, 11, &[1, 2], true),
    ("sqlite_autoindex_assignments_1", 14, 13, &[1], true),
    ("sqlite_autoindex_points_1", 16, 15, &[1, 2], true),
    ("sqlite_autoindex_loans_1", 18, 17, &[1], true),
    ("sqlite_autoindex_reports_1", 20, 19, &[1, 2], true),
    ("incidents_by_state", 21, 5, &[11, 1], false),
    ("incidents_by_opening", 22, 5, &[9, 1], false),
    ("calls_by_incident", 23, 7, &[4, 3], false),
    ("turns_by_incident", 24, 11, &[4, 3], false),
    ("reports_by_outcome", 25, 19, &[9, 11, 8], false),
];

/// How many of the first version's indexes are those of the keys.
pub(crate) const FIRST_KEY_INDEXES: usize = 9;
