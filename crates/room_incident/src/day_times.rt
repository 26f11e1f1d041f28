//! The times of a day.
ghost use Rattle.std.specs.List.{list_all, list_any};
ghost use Rattle.std.specs.Prelude.{◌≡◌, ◌<◌, ◌^◌, ℕ, IfErr, IfOk, OnErr, filter, is_some, length};
ghost use Rattle.std.specs.Prelude.{map, true};
ghost use Rattle.std.specs.Ordering.{nat_cmp};
ghost use Rattle.room_types.specs.KeyedRows.{IsKeyed};
ghost use Rattle.room_types.specs.Keys.{owns_incident};
ghost use Rattle.room_types.specs.declared.answers.Answer.TheVariants as answer;
ghost use Rattle.room_types.specs.declared.refusal_statuses.Refusal.TheVariants.{Memory};
ghost use Rattle.room_model.specs.DayTimes.{activation_of, is_prompt, show_times, times_line};
ghost use Rattle.room_model.specs.Decisions.{show};
ghost use Rattle.room_model.specs.Room.{Room};
ghost use Rattle.room_incident.specs.DayIncidents.{AreOneDivisions, is_opened_between, line_number};

use room_types::answers::{Listed, Times, TimesLine};
use room_types::refusal_statuses::Refusal;
use room_types::rows::Rows;
use room_types::tables::Incident;
use std::alloc::Global;

/// An incident whose first order came within so many seconds is prompt.
const PROMPT: u32 = 180;

/// The times of the active and closed incidents that were opened from one second (of UTC since
/// 1970) and before another, in number order.
///
/// The incidents are one division's. The one refusal is `Memory`, where there is such an incident.
pub fn times(
    alloc: Global,
    incidents: &Rows<Incident>,
    from: i64,
    to: i64,
) -> Result<Times, Refusal>
    requires { AreOneDivisions incidents.now }
    // In any room of these incidents.
    ensures times { IfOk result (λ times. (d : ℕ) (r : Room) → r.incidents ≡ incidents.now
        → list_all (owns_incident d) incidents.now ≡ true
        → show (answer.Times times) ≡ show_times d from to r) }
    ensures rising { IfOk result (λ times. IsKeyed nat_cmp line_number times.lines) }
    ensures memory { IfErr result (λ refusal. refusal ≡ Memory) }
    ensures listing { OnErr result (list_any (is_opened_between from to) incidents.now ≡ true) }
{
    let lines = lines_between(alloc, incidents, from, to)?;
    Ok(Times {
        from,
        to,
        activated: activated(lines.as_slice()),
        within: prompt(lines.as_slice()),
        lines,
    })
}

fn lines_between(
    alloc: Global,
    incidents: &Rows<Incident>,
    from: i64,
    to: i64,
) -> Result<Listed<TimesLine>, Refusal>
    requires { AreOneDivisions incidents.now }
    ensures lines { IfOk result (λ lines.
        lines ≡ map times_line (filter (is_opened_between from to) incidents.now)) }
    ensures rising { IfOk result (λ lines. IsKeyed nat_cmp line_number lines) }
    ensures few { IfOk result (λ lines. length lines < 2 ^ 32) }
    ensures memory { IfErr result (λ refusal. refusal ≡ Memory) }
    ensures listing { OnErr result (list_any (is_opened_between from to) incidents.now ≡ true) }
{
    let mut lines = Listed::new(alloc);
    for incident in incidents.as_slice() {
        if is_opened_between(incident, from, to) {
            // Numbers rise, so 32 bits can count the lines.
            let fits = lines.len() <= incident.number.get() as usize;
            prove!(fits);
            lines.push(times_line(incident))?;
        }
    }
    Ok(lines)
}

/// Whether the incident is active or closed, and was opened in these seconds. Merged incidents have
/// no times.
pub(crate) fn is_opened_between(incident: &Incident, from: i64, to: i64) -> bool
    ensures { result ≡ is_opened_between from to incident.now }
{
    let opened = i64::from(incident.opened.get());
    incident.state.merged_into().is_none() && from <= opened && opened < to
}

fn times_line(incident: &Incident) -> TimesLine
    ensures { result ≡ times_line incident.now }
{
    TimesLine {
        number: incident.number,
        opened: incident.opened,
        activation: activation_of(incident),
    }
}

/// The seconds from the opening of the incident to its first order; none where it had no order.
pub(crate) fn activation_of(incident: &Incident) -> Option<u32>
    ensures { result ≡ activation_of incident.now }
{
    incident
        .first_order
        .map(|order| order.get().saturating_sub(incident.opened.get()))
}

fn activated(lines: &[TimesLine]) -> u32
    requires { length lines.now < 2 ^ 32 }
    ensures { result ≡ length (filter (λ l. is_some l.activation) lines.now) }
{
    lines
        .iter()
        .filter(|line| line.activation.is_some())
        .count() as u32
}

fn prompt(lines: &[TimesLine]) -> u32
    requires { length lines.now < 2 ^ 32 }
    ensures { result ≡ length (filter (λ l. is_prompt l.activation) lines.now) }
{
    lines
        .iter()
        .filter(|line| is_prompt(line.activation))
        .count() as u32
}

/// Whether there is a first order, and it was prompt.
pub(crate) fn is_prompt(activation: Option<u32>) -> bool
    ensures { result ≡ is_prompt activation }
{
    activation.is_some_and(|seconds| seconds <= PROMPT)
}
