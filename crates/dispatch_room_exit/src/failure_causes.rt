//! Explains failures where that is asked for.
ghost use Rattle.std.specs.Prelude.{◌≡◌};

use std::fmt::Display;

/// Explains failures on standard error where that is asked for: prints what failed, where and why,
/// on a line before the one that names the failure.
#[derive(Clone, Copy)]
pub struct Explainer<'a> {
    rt: &'a HostRuntime,
    is_wanted: bool,
}

impl<'a> Explainer<'a> {
    pub fn new(rt: &'a HostRuntime, is_wanted: bool) -> Explainer<'a>
        ensures { result.is_wanted ≡ is_wanted }
    {
        Explainer { rt, is_wanted }
    }

    /// Whether failures are explained. Only then need a cause be looked for.
    pub fn is_wanted(self) -> bool
        ensures { result ≡ self.entry.is_wanted }
    {
        self.is_wanted
    }

    /// Prints such a line. One that can't be written is dropped; the failure is named all the same.
    pub fn explain<L: Display + Drop>(self, line: L) {
        if self.is_wanted {
            let _ = eprintln!(self.rt; "{line}");
        }
    }
}
