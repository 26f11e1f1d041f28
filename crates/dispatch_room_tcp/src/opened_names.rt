//! The names at which the files of a served room were opened, and whether the files still lie
//! there. The room is served from the files that were opened, wherever these were moved; but the
//! next start would open what lies at the names then.
ghost use Rattle.std.specs.Prelude.{◌≡◌, ◌+◌, ◌&&◌, min, nat_lt, not, if◌then◌else◌};
ghost use Rattle.std.specs.Duration.{as_nanos, max_nanos};

use dispatch_room_exit::failure_causes::Explainer;
use std::alloc::Global;
use std::fs;
use std::os::unix::fs::MetadataExt;
use std::time::{Clock, Duration};

// How many milliseconds pass at least between two looks. A look asks the system twice: a look after
// each answer would add a tenth to the answer's cost.
const BETWEEN_LOOKS: u64 = 1000;

/// The names of a room's file and of its log, with what lay there once the room was opened: none
/// where the system does not say.
#[derive(Drop)]
pub struct OpenedNames {
    room: Option<OpenedName>,
    log: Option<OpenedName>,
    // Until when they are not looked at, by a clock that is never set back.
    rests_until: Duration,
}

impl OpenedNames {
    /// No names.
    pub fn none() -> OpenedNames {
        OpenedNames {
            room: None,
            log: None,
            rests_until: Duration::ZERO,
        }
    }

    /// Those of the room whose file was opened at a path. The log lies where the file does, to
    /// which a link may lead.
    pub fn of(rt: &HostRuntime, alloc: Global, path: &str) -> OpenedNames {
        OpenedNames {
            room: OpenedName::of(rt, format!(in alloc; "{path}").ok()),
            log: OpenedName::of(rt, log_of(rt, alloc, path)),
            rests_until: Duration::ZERO,
        }
    }

    /// Looks at both, by a question to the system for each, if the last look is at least a second
    /// old. If a file is not there any more, that is explained once.
    pub fn look(&mut self, rt: &HostRuntime, explainer: Explainer<'_>) {
        let Ok(now) = rt.monotonic() else {
            return;
        };
        if !self.is_due(now) {
            return;
        }
        if let Some(room) = &mut self.room {
            room.look(rt, explainer);
        }
        if let Some(log) = &mut self.log {
            log.look(rt, explainer);
        }
    }

    // Whether a look is due now. If it is, the next one is due in a second.
    fn is_due(&mut self, now: Duration) -> bool
        ensures due { result ≡ not (nat_lt (as_nanos now) (as_nanos self.old.rests_until)) }
        ensures rests { as_nanos self.new.rests_until ≡ if result
            then min (as_nanos now + 1_000_000_000) max_nanos
            else as_nanos self.old.rests_until }
        ensures same { (self.new.room ≡ self.old.room) × (self.new.log ≡ self.old.log) }
    {
        if !self.rests_until.saturating_sub(now).is_zero() {
            return false;
        }
        self.rests_until = now.saturating_add(Duration::from_millis(BETWEEN_LOOKS));
        true
    }
}

fn log_of(rt: &HostRuntime, alloc: Global, path: &str) -> Option<String> {
    let file = fs::canonicalize(rt, path).ok()?;
    format!(in alloc; "{}-wal", file.as_str()).ok()
}

// A name, and the file that lay there, by its device and its number.
#[derive(Drop)]
struct OpenedName {
    path: String,
    device: u64,
    inode: u64,
    is_missed: bool,
}

impl OpenedName {
    fn of(rt: &HostRuntime, path: Option<String>) -> Option<OpenedName> {
        let path = path?;
        let found = fs::metadata(rt, path.as_str()).ok()?;
        Some(OpenedName {
            path,
            device: found.dev(),
            inode: found.ino(),
            is_missed: false,
        })
    }

    fn look(&mut self, rt: &HostRuntime, explainer: Explainer<'_>) {
        let is_there = self.is_there(rt);
        if self.note(is_there) {
            let path = self.path.as_str();
            explainer.explain(format_args!(
                "{path} was moved, replaced or removed: the room is served on from the file that \
                 was opened, which a start would not find"
            ));
        }
    }

    // Notes whether the file lies there, and returns whether to explain: only if it does not and
    // did at the look before.
    fn note(&mut self, is_there: bool) -> bool
        ensures once { result ≡ (not is_there && not self.old.is_missed) }
        ensures missed { self.new.is_missed ≡ not is_there }
        ensures same { (self.new.path ≡ self.old.path) × (self.new.device ≡ self.old.device)
            × (self.new.inode ≡ self.old.inode) }
    {
        let was_missed = self.is_missed;
        self.is_missed = !is_there;
        self.is_missed && !was_missed
    }

    fn is_there(&self, rt: &HostRuntime) -> bool {
        match fs::metadata(rt, self.path.as_str()) {
            Ok(found) => found.dev() == self.device && found.ino() == self.inode,
            Err(_) => false,
        }
    }
}
