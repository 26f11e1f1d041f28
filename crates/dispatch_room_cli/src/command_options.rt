//! The commands of the program, with their words, options and help texts.

use clap::builder::ValueParser;
use room_types::numbers::LAST_MOMENT;

/// A command: its name, what it does, the text at the end of its help, and its words.
#[derive(Clone, Copy)]
pub struct CommandForm {
    pub name: &'static str,
    pub about: &'static str,
    pub end: &'static str,
    pub words: &'static [Word],
}

/// A word of a command, or an option.
#[derive(Clone, Copy)]
pub struct Word {
    pub name: &'static str,
    pub kind: WordKind,
    pub help: &'static str,
}

/// How a word is given.
#[derive(Clone, Copy)]
pub enum WordKind {
    /// At its place; it must be given.
    Placed(ValueParser<'static>),
    /// At its place, if it is given.
    Optional(ValueParser<'static>),
    /// By its name only.
    Flag,
    /// Behind its name, and it must be given: its name in help, and which values it takes.
    Needed {
        value: &'static str,
        parser: ValueParser<'static>,
    },
    /// Behind its name: its name in help, which values it takes, and the default.
    Named {
        value: &'static str,
        parser: ValueParser<'static>,
        default: &'static [&'static str],
    },
}

const TEXT: WordKind = WordKind::Placed(ValueParser::String);

const PATIENCE: WordKind = WordKind::Named {
    value: "SECONDS",
    parser: ValueParser::Signed(1, 3600),
    default: &["2"],
};

const FILE: Word = Word {
    name: "FILE",
    kind: TEXT,
    help: "The room's file",
};

const EXPLAIN: Word = Word {
    name: "explain",
    kind: WordKind::Flag,
    help: "Before the line that names a failure, print what failed, where and why; on a terminal \
         this is the default",
};

const LIST: Word = Word {
    name: "journal",
    kind: WordKind::Named {
        value: "LIST",
        parser: ValueParser::String,
        default: &[],
    },
    help: "Append the change to this journal before it is made, so that `replay` makes it too; no \
         service may use the journal meanwhile",
};

const INIT: CommandForm = CommandForm {
    name: "init",
    about: "Creates a room in an empty file, or in one that is not there",
    end: "Example: dispatch_room init room.db plan.csv",
    words: &[
        FILE,
        Word {
            name: "PLAN",
            kind: TEXT,
            help: "The plan as CSV: zone, areas, and the terminals of desks and positions",
        },
        EXPLAIN,
    ],
};

const IMPORT: CommandForm = CommandForm {
    name: "import",
    about: "Enrols a fleet, and prints what became of each row",
    end: "Where it says `refused: file`, `check` says what is wrong.\n\n\
         Example: dispatch_room import room.db fleet.csv",
    words: &[
        FILE,
        Word {
            name: "FLEET",
            kind: TEXT,
            help: "The fleet as CSV: callsign, division, kind, place, token",
        },
        LIST,
        EXPLAIN,
    ],
};

const MIGRATE: CommandForm = CommandForm {
    name: "migrate",
    about: "Moves a room of version 1, which had no offers, to this version",
    end: "There is no way back but a copy of the file, so make one first.\n\n\
         Example: dispatch_room migrate room.db",
    words: &[FILE, EXPLAIN],
};

const CHECK: CommandForm = CommandForm {
    name: "check",
    about: "Prints what a room has, or the first thing that is wrong with its file",
    end: "No row is written. The exit status is 0 where the file is a well-formed room.\n\n\
         Example: dispatch_room check room.db",
    words: &[FILE, EXPLAIN],
};

const DIGEST: CommandForm = CommandForm {
    name: "digest",
    about: "Prints the digest of a room: SHA-256 of all its rows",
    end: "A journal of the room begins with it. Two rooms have one digest only where all rows are \
         the same.\n\n\
         Example: dispatch_room digest copy.db",
    words: &[FILE, EXPLAIN],
};

const RESTORE: CommandForm = CommandForm {
    name: "restore",
    about: "Puts a copy of a room in the place of a file, and prints what it has",
    end: "The copy stays, with its log in it. Another room that was there goes to FILE.old, or to \
         FILE.old.1 and so on, with its log, and that name is printed: neither may be served \
         meanwhile. After a stop do it again; where the copy's room is there already, it stays.\n\n\
         Example: dispatch_room restore /backup/room.db room.db",
    words: &[
        Word {
            name: "COPY",
            kind: TEXT,
            help: "The file of the copy",
        },
        FILE,
        EXPLAIN,
    ],
};

const SERVE: CommandForm = CommandForm {
    name: "serve",
    about: "Serves a room over HTTP",
    end: "Where it says `refused: file`, `check` says what is wrong.\n\n\
         Example: dispatch_room serve room.db 127.0.0.1:8080",
    words: &[
        FILE,
        Word {
            name: "ADDRESS",
            kind: TEXT,
            help: "Where to listen: an address of this machine only, with a port",
        },
        Word {
            name: "connections",
            kind: WordKind::Named {
                value: "N",
                parser: ValueParser::Unsigned(1, u64::MAX),
                default: &[],
            },
            help: "How many connections to serve, one after another, and then end; by default it \
                 goes on",
        },
        Word {
            name: "idle",
            kind: WordKind::Named {
                value: "MILLISECONDS",
                parser: ValueParser::Signed(1, 60000),
                default: &["200"],
            },
            help: "With --connections: how long a connection may be silent before each request, \
                 while all others wait",
        },
        Word {
            name: "keep",
            kind: WordKind::Named {
                value: "SECONDS",
                parser: ValueParser::Signed(1, 3600),
                default: &["75"],
            },
            help: "Without --connections: how long a connection may be silent before each \
                 request",
        },
        Word {
            name: "patience",
            kind: PATIENCE,
            help: "How long a request may take to arrive, and its answer to be taken",
        },
        Word {
            name: "history",
            kind: WordKind::Flag,
            help: "Serve also GET /incidents/N, what came of an incident, GET /vehicles/C/reports, \
                 what became of a vehicle's reports, GET /job, what a crew is told of its incident, \
                 and GET /last, the last numbers of a terminal",
        },
        Word {
            name: "log",
            kind: WordKind::Flag,
            help: "Write a line to standard error for each message: moment, who, method, path, \
                 status, milliseconds",
        },
        Word {
            name: "journal",
            kind: WordKind::Named {
                value: "LIST",
                parser: ValueParser::String,
                default: &[],
            },
            help: "Append each message to this file before the room acts on it, and then its \
                 answer's status",
        },
        Word {
            name: "journal-of",
            kind: WordKind::Named {
                value: "WHICH",
                parser: ValueParser::Names(&["all", "changes"]),
                default: &["all"],
            },
            help: "Which messages the journal keeps: all, or all but GET and HEAD",
        },
        Word {
            name: "journal-sync",
            kind: WordKind::Named {
                value: "WHEN",
                parser: ValueParser::Names(&["always", "system"]),
                default: &["system"],
            },
            help: "When the journal is synced: always, before the room acts on a message, or when \
                 the system does it",
        },
        EXPLAIN,
    ],
};

const REPLAY: CommandForm = CommandForm {
    name: "replay",
    about: "Replays a journal from standard input to a room, each message at its moment",
    end: "The room must be as it was where the journal begins. Where an answer has another status \
         than the recorded one, or the input is no journal, the record is reported.\n\n\
         Example: dispatch_room replay copy.db --until $(date -d '03:15' +%s) <room.list",
    words: &[
        FILE,
        Word {
            name: "until",
            kind: WordKind::Named {
                value: "MOMENT",
                parser: ValueParser::Signed(0, LAST_MOMENT as i64),
                default: &[],
            },
            help: "Stop before the first later message; whole seconds since 1970, in UTC",
        },
        Word {
            name: "answers",
            kind: WordKind::Flag,
            help: "Write the answer to each message as soon as it has come: for a program that \
                 drives the room by pipes",
        },
        Word {
            name: "history",
            kind: WordKind::Flag,
            help: "The room was served with --history",
        },
        Word {
            name: "open",
            kind: WordKind::Flag,
            help: "The journal is still written: where it ends within a record, leave that out and \
                 report it",
        },
        Word {
            name: "digest",
            kind: WordKind::Flag,
            help: "At the end, print the digest of the room too, as `digest` does",
        },
        EXPLAIN,
    ],
};

const VERIFY: CommandForm = CommandForm {
    name: "verify",
    about: "Prints how much a journal holds, or the first record at which it is no journal",
    end: "In a journal of version 2 each changed byte is found, and each record that was lost or \
         comes twice. The exit status is 0 where the journal is whole.\n\n\
         Example: dispatch_room verify room.list",
    words: &[
        Word {
            name: "LIST",
            kind: TEXT,
            help: "The journal's file",
        },
        EXPLAIN,
    ],
};

const BOARD: CommandForm = CommandForm {
    name: "board",
    about: "Shows what a desk sees in a room that is served: queue, incidents, vehicles, points, \
         offers and loans",
    end: "It only reads. A live board: watch -c -n 5 dispatch_room board .. --color always\n\n\
         Example: dispatch_room board 127.0.0.1:8080 --token desk1.token --incident 1",
    words: &[
        Word {
            name: "ADDRESS",
            kind: TEXT,
            help: "Where the room is served: an address with a port",
        },
        Word {
            name: "TOKEN",
            kind: WordKind::Optional(ValueParser::String),
            help: "The token of the desk, if not by --token: others on the machine can see it here",
        },
        Word {
            name: "token",
            kind: WordKind::Named {
                value: "FILE",
                parser: ValueParser::String,
                default: &[],
            },
            help: "Take the token from the first line of this file",
        },
        Word {
            name: "plain",
            kind: WordKind::Flag,
            help: "Send the token in plain HTTP to another machine too: without this ADDRESS is of \
                 127.0.0.0/8, [::1] or localhost",
        },
        Word {
            name: "incident",
            kind: WordKind::Named {
                value: "N",
                parser: ValueParser::Signed(1, 2147483647),
                default: &[],
            },
            help: "Show this incident too: proposed vehicles, and where the room is served with \
                 --history its calls and turns",
        },
        Word {
            name: "patience",
            kind: PATIENCE,
            help: "How long it may take in all",
        },
        Word {
            name: "color",
            kind: WordKind::Named {
                value: "WHEN",
                parser: ValueParser::Names(&["auto", "always", "never"]),
                default: &["auto"],
            },
            help: "Whether lines have colours; auto: on a terminal",
        },
        EXPLAIN,
    ],
};

const RENEW: CommandForm = CommandForm {
    name: "renew",
    about: "Makes a new room of an old one: what is going on, and what happened since a day",
    end: "OLD must not be served meanwhile. No row of it is written: it stays as the archive, for \
         `check` and `times`.\n\n\
         Example: dispatch_room renew room.db new.db --since 2026-03-22",
    words: &[
        Word {
            name: "OLD",
            kind: TEXT,
            help: "The file of the old room",
        },
        Word {
            name: "NEW",
            kind: TEXT,
            help: "The file of the new room: empty, or not there yet",
        },
        Word {
            name: "since",
            kind: WordKind::Needed {
                value: "DAY",
                parser: ValueParser::String,
            },
            help: "The first day that the new room keeps whole, as YYYY-MM-DD: at least two days \
                 before the room's last moment",
        },
        EXPLAIN,
    ],
};

const TIMES: CommandForm = CommandForm {
    name: "times",
    about: "Writes the activation times of a division's day as CSV",
    end: "Where it says `refused: file`, `check` says what is wrong.\n\n\
         Example: dispatch_room times room.db 1 2026-03-29 --and old.db",
    words: &[
        FILE,
        Word {
            name: "DIVISION",
            kind: WordKind::Placed(ValueParser::Names(&[
                "1", "2", "3", "4", "5", "6", "7", "8", "9",
            ])),
            help: "The division, 1 to 9",
        },
        Word {
            name: "DAY",
            kind: TEXT,
            help: "The day, as YYYY-MM-DD, from 1970 to 2099",
        },
        Word {
            name: "and",
            kind: WordKind::Named {
                value: "OLD",
                parser: ValueParser::String,
                default: &[],
            },
            help: "The room of which `renew` made FILE: incidents that only OLD has count too; \
                 neither file is written",
        },
        EXPLAIN,
    ],
};

const TERMINALS: CommandForm = CommandForm {
    name: "terminals",
    about: "Lists who has a terminal; or gives a new token, takes a terminal away, or sets those \
            that a file names",
    end: "WHO is desk:1, position:3 or crew:A1. No token is listed; a new one is printed once. \
         The room must not be served.\n\n\
         Example: dispatch_room terminals room.db --new crew:A1",
    words: &[
        FILE,
        Word {
            name: "new",
            kind: WordKind::Named {
                value: "WHO",
                parser: ValueParser::String,
                default: &[],
            },
            help: "Give WHO a new token and print it; the old ones are refused from then on",
        },
        Word {
            name: "revoke",
            kind: WordKind::Named {
                value: "WHO",
                parser: ValueParser::String,
                default: &[],
            },
            help: "Refuse all tokens of WHO from now on; a crew gets one that nobody knows",
        },
        Word {
            name: "from",
            kind: WordKind::Named {
                value: "CSV",
                parser: ValueParser::String,
                default: &[],
            },
            help: "Give the desks and positions of this plan, or the crews of this fleet, its \
                 tokens and no others; all that it does not name keep theirs",
        },
        LIST,
        EXPLAIN,
    ],
};

const REPLAN: CommandForm = CommandForm {
    name: "replan",
    about: "Gives a room another plan: its zone, its areas and its tokens",
    end: "The plan needs an area for each division of the room, and may add divisions. Desks and \
         positions that it does not name keep their tokens. The room must not be served.\n\n\
         Example: dispatch_room replan room.db plan.csv",
    words: &[
        FILE,
        Word {
            name: "PLAN",
            kind: TEXT,
            help: "The plan as CSV: zone, areas, and the terminals of desks and positions",
        },
        LIST,
        EXPLAIN,
    ],
};

/// All commands, as help lists them.
pub const FORMS: [CommandForm; 14] = [
    INIT, IMPORT, TERMINALS, REPLAN, MIGRATE, CHECK, DIGEST, RESTORE, SERVE, REPLAY, VERIFY, RENEW,
    BOARD, TIMES,
];
