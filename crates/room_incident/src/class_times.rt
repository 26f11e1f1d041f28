//! The times of a day by class.
ghost use Rattle.std.specs.Prelude.{◌≡◌, List, Ok, filter, is_some, length};
ghost use Rattle.room_place.specs.declared.plans.Area.{Area};
ghost use Rattle.room_model.specs.DayTimes.{activation_of, class_line, is_prompt, show_class_times};
ghost use Rattle.room_model.specs.RoomSlices.{room_of};
ghost use Rattle.room_incident.specs.DayIncidents.{is_of_class_between, is_opened_between};

use crate::day_times::{activation_of, is_opened_between, is_prompt};
use room_types::answers::{Answer, ClassLine, ClassTimes};
use room_types::decisions::Decision;
use room_types::numbers::Class;
use room_types::rows::Rows;
use room_types::slices::Slice;
use room_types::tables::Incident;

/// Shows how many of the division's active and closed incidents of each class were opened from one
/// second (of UTC since 1970) and before another, and how many of them had an order. Takes no
/// memory.
pub fn day_class_times(slice: &Slice, from: i64, to: i64) -> Decision
    ensures { (plan : List Area) → show_class_times slice.now.division from to
        (room_of plan slice.now.rows) ≡ Ok result }
{
    let incidents = &slice.rows.incidents;
    Decision::show(Answer::ClassTimes(ClassTimes {
        from,
        to,
        lines: [
            class_line(incidents, from, to, Class::of(1)),
            class_line(incidents, from, to, Class::of(2)),
            class_line(incidents, from, to, Class::of(3)),
        ],
    }))
}

fn class_line(incidents: &Rows<Incident>, from: i64, to: i64, class: Class) -> ClassLine
    ensures { result ≡ class_line (filter (is_opened_between from to) incidents.now) class }
{
    ClassLine {
        class,
        opened: opened(incidents, from, to, class),
        activated: activated(incidents, from, to, class),
        within: within(incidents, from, to, class),
    }
}

fn opened(incidents: &Rows<Incident>, from: i64, to: i64, class: Class) -> u64
    ensures { result ≡ length (filter (is_of_class_between from to class) incidents.now) }
{
    incidents
        .iter()
        .filter(|incident| is_of_class_between(incident, from, to, class))
        .count() as u64
}

fn activated(incidents: &Rows<Incident>, from: i64, to: i64, class: Class) -> u64
    ensures { result ≡ length (filter (λ i. is_some (activation_of i))
        (filter (is_of_class_between from to class) incidents.now)) }
{
    incidents
        .iter()
        .filter(|incident| is_of_class_between(incident, from, to, class))
        .filter(|incident| activation_of(incident).is_some())
        .count() as u64
}

fn within(incidents: &Rows<Incident>, from: i64, to: i64, class: Class) -> u64
    ensures { result ≡ length (filter (λ i. is_prompt (activation_of i))
        (filter (is_of_class_between from to class) incidents.now)) }
{
    incidents
        .iter()
        .filter(|incident| is_of_class_between(incident, from, to, class))
        .filter(|incident| is_prompt(activation_of(incident)))
        .count() as u64
}

fn is_of_class_between(incident: &Incident, from: i64, to: i64, class: Class) -> bool
    ensures { result ≡ is_of_class_between from to class incident.now }
{
    is_opened_between(incident, from, to) && incident.class == class
}
