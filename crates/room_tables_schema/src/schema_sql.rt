//! The texts that make the tables of a room, and the indexes that find its working rows, in the
//! order in which they are made.
//!
//! A callsign or a token is TEXT, a note BLOB, all else INTEGER, a truth value as 0 or 1. Only what
//! may be absent may be NULL.
//!
//! A column is written only here: `tools/tables.py` reads these texts, and writes
//! `schema_tables.rt`.

const META: &str = "CREATE TABLE meta (\
    id INTEGER PRIMARY KEY NOT NULL, version INTEGER NOT NULL, zone TEXT NOT NULL\
    ) STRICT";

const AREAS: &str = "CREATE TABLE areas (\
    n INTEGER PRIMARY KEY NOT NULL, division INTEGER NOT NULL, west INTEGER NOT NULL, \
    south INTEGER NOT NULL, east INTEGER NOT NULL, north INTEGER NOT NULL\
    ) STRICT";

const TERMINALS: &str = "CREATE TABLE terminals (\
    token TEXT PRIMARY KEY NOT NULL, role INTEGER NOT NULL, number INTEGER NOT NULL, \
    callsign TEXT\
    ) STRICT";

const DIVISIONS: &str = "CREATE TABLE divisions (\
    number INTEGER PRIMARY KEY NOT NULL, last_incident INTEGER NOT NULL\
    ) STRICT";

const INCIDENTS: &str = "CREATE TABLE incidents (\
    division INTEGER NOT NULL, number INTEGER NOT NULL, east INTEGER NOT NULL, \
    north INTEGER NOT NULL, class INTEGER NOT NULL, need1 INTEGER NOT NULL, \
    need2 INTEGER NOT NULL, need3 INTEGER NOT NULL, opened INTEGER NOT NULL, \
    first_order INTEGER, state INTEGER NOT NULL, into_number INTEGER, \
    PRIMARY KEY (division, number)\
    ) STRICT";

const CALLS: &str = "CREATE TABLE calls (\
    position INTEGER NOT NULL, serial INTEGER NOT NULL, division INTEGER NOT NULL, \
    incident INTEGER NOT NULL, given INTEGER NOT NULL, linked INTEGER NOT NULL, \
    east INTEGER NOT NULL, north INTEGER NOT NULL, class INTEGER NOT NULL, \
    need1 INTEGER NOT NULL, need2 INTEGER NOT NULL, need3 INTEGER NOT NULL, note BLOB NOT NULL, \
    moment INTEGER NOT NULL, PRIMARY KEY (position, serial)\
    ) STRICT";

const VEHICLES: &str = "CREATE TABLE vehicles (\
    callsign TEXT PRIMARY KEY NOT NULL, home INTEGER NOT NULL, holder INTEGER NOT NULL, \
    kind INTEGER NOT NULL, east INTEGER NOT NULL, north INTEGER NOT NULL, \
    status INTEGER NOT NULL, shift_end INTEGER NOT NULL, post INTEGER, \
    last_order INTEGER NOT NULL, last_report INTEGER NOT NULL\
    ) STRICT";

const TURNS: &str = "CREATE TABLE turns (\
    callsign TEXT NOT NULL, ord INTEGER NOT NULL, division INTEGER NOT NULL, \
    incident INTEGER NOT NULL, kind INTEGER NOT NULL, ordered INTEGER NOT NULL, \
    acknowledged INTEGER, scene INTEGER, left_at INTEGER, hospital INTEGER, ended INTEGER, \
    stood_down INTEGER NOT NULL, PRIMARY KEY (callsign, ord)\
    ) STRICT";

const ASSIGNMENTS: &str = "CREATE TABLE assignments (\
    callsign TEXT PRIMARY KEY NOT NULL, division INTEGER NOT NULL, incident INTEGER NOT NULL, \
    ord INTEGER NOT NULL, east INTEGER NOT NULL, north INTEGER NOT NULL, class INTEGER NOT NULL\
    ) STRICT";

const POINTS: &str = "CREATE TABLE points (\
    division INTEGER NOT NULL, number INTEGER NOT NULL, east INTEGER NOT NULL, \
    north INTEGER NOT NULL, cover INTEGER NOT NULL, PRIMARY KEY (division, number)\
    ) STRICT";

const LOANS: &str = "CREATE TABLE loans (\
    callsign TEXT PRIMARY KEY NOT NULL, lender INTEGER NOT NULL, borrower INTEGER NOT NULL, \
    since INTEGER NOT NULL, until INTEGER NOT NULL, recalled INTEGER NOT NULL\
    ) STRICT";

const REPORTS: &str = "CREATE TABLE reports (\
    callsign TEXT NOT NULL, number INTEGER NOT NULL, button INTEGER NOT NULL, \
    ord INTEGER NOT NULL, east INTEGER NOT NULL, north INTEGER NOT NULL, \
    moment INTEGER NOT NULL, division INTEGER NOT NULL, outcome INTEGER NOT NULL, \
    status INTEGER NOT NULL, cleared INTEGER NOT NULL, PRIMARY KEY (callsign, number)\
    ) STRICT";

const OFFERS: &str = "CREATE TABLE offers (\
    callsign TEXT PRIMARY KEY NOT NULL, lender INTEGER NOT NULL, borrower INTEGER NOT NULL, \
    since INTEGER NOT NULL, until INTEGER NOT NULL\
    ) STRICT";

const INCIDENTS_BY_STATE: &str = "CREATE INDEX incidents_by_state ON incidents (state, division)";

const INCIDENTS_BY_OPENING: &str =
    "CREATE INDEX incidents_by_opening ON incidents (opened, division)";

const CALLS_BY_INCIDENT: &str = "CREATE INDEX calls_by_incident ON calls (incident, division)";

const TURNS_BY_INCIDENT: &str = "CREATE INDEX turns_by_incident ON turns (incident, division)";

const REPORTS_BY_OUTCOME: &str =
    "CREATE INDEX reports_by_outcome ON reports (outcome, cleared, division)";

const DROP_INCIDENTS_BY_STATE: &str = "DROP INDEX incidents_by_state";

const DROP_INCIDENTS_BY_OPENING: &str = "DROP INDEX incidents_by_opening";

const DROP_CALLS_BY_INCIDENT: &str = "DROP INDEX calls_by_incident";

const DROP_TURNS_BY_INCIDENT: &str = "DROP INDEX turns_by_incident";

const DROP_REPORTS_BY_OUTCOME: &str = "DROP INDEX reports_by_outcome";

/// What makes a room's schema: a text a table, and then a text an index.
pub(crate) const DEFINITIONS: [&str; 18] = [
    META,
    AREAS,
    TERMINALS,
    DIVISIONS,
    INCIDENTS,
    CALLS,
    VEHICLES,
    TURNS,
    ASSIGNMENTS,
    POINTS,
    LOANS,
    REPORTS,
    OFFERS,
    INCIDENTS_BY_STATE,
    INCIDENTS_BY_OPENING,
    CALLS_BY_INCIDENT,
    TURNS_BY_INCIDENT,
    REPORTS_BY_OUTCOME,
];

/// How many of the definitions are those of the tables.
pub(crate) const TABLE_DEFINITIONS: usize = 13;

/// What makes a room's schema of the first version's: its indexes are dropped, and then the last
/// table and all indexes are made as in a new room.
pub(crate) const MOVES: [&str; 11] = [
    DROP_INCIDENTS_BY_STATE,
    DROP_INCIDENTS_BY_OPENING,
    DROP_CALLS_BY_INCIDENT,
    DROP_TURNS_BY_INCIDENT,
    DROP_REPORTS_BY_OUTCOME,
    OFFERS,
    INCIDENTS_BY_STATE,
    INCIDENTS_BY_OPENING,
    CALLS_BY_INCIDENT,
    TURNS_BY_INCIDENT,
    REPORTS_BY_OUTCOME,
];

/// How many of these drop an index.
pub(crate) const DROPS: usize = 5;
