//! The content of each answer, with the lines of longer ones, and of each refusal.
ghost use Rattle.std.specs.Prelude.{◌≡◌, IfOk};
ghost use Rattle.room_http.specs.Objects.{Sends};
ghost use Rattle.room_http.specs.AnswerJson.{answer_json, assignment_json, call_json};
ghost use Rattle.room_http.specs.AnswerJson.{callsign_or_empty, class_line_json, class_times_json};
ghost use Rattle.room_http.specs.AnswerJson.{closed_json, closed_page_json, content, entry_json};
ghost use Rattle.room_http.specs.AnswerJson.{history_json, incident_json, job_json, json_of};
ghost use Rattle.room_http.specs.AnswerJson.{loan_json, move_json, offer_json};
ghost use Rattle.room_http.specs.AnswerJson.{point_json, proposal_json, refusal_json, report_json};
ghost use Rattle.room_http.specs.AnswerJson.{times_json, times_line_json, turn_json, vehicle_json};

use crate::json_values::ToJson;
use crate::objects::{End, Member, write_object};
use room_types::answers::{
    Answer, ClassLine, ClassTimes, ClosedPage, History, IncidentLine, Job, MoveLine, PointLine,
    Proposal, QueueEntry, Times, TimesLine, VehicleLine,
};
use room_types::callsign::Callsign;
use room_types::refusal_statuses::Refusal;
use room_types::tables::{Assignment, Call, Incident, Loan, Offer, Report, Turn};
use serde::{Described, Serialize, Serializer};
use std::alloc::{AllocError, Global};

// Sends an object whose members are these, each with its name and its value.
macro_rules! object {
    ($out:expr, { $($members:tt)* }) => { write_object($out, &members!($($members)*)) };
}

macro_rules! members {
    () => { End };
    ($name:literal: $value:expr $(, $($more:tt)*)?) => {
        Member($name, $value, members!($($($more)*)?))
    };
}

impl ToJson for Answer {
    ghost json = { answer_json };

    fn write_json<S: Serializer>(&self, out: &mut S) -> Result<(), S::Error> {
        match self {
            Answer::Called(division, incident, linked) => {
                object!(out, {
                    "division": division,
                    "incident": incident,
                    "linked": linked,
                })
            }
            Answer::Incidents(lines) => object!(out, { "incidents": lines }),
            Answer::Proposals(proposals) => object!(out, { "proposals": proposals }),
            Answer::Incident(history) => history.write_json(out),
            Answer::Mobilised(order, callsign) =>
                object!(out, { "order": order, "vehicle": callsign }),
            Answer::Moved(lines) => object!(out, { "moves": lines }),
            Answer::Done => object!(out, { "done": &true }),
            Answer::Vehicles(lines) => object!(out, { "vehicles": lines }),
            Answer::Reports(reports) => object!(out, { "reports": reports }),
            Answer::Queue(entries) => object!(out, { "queue": entries }),
            Answer::Points(lines) => object!(out, { "points": lines }),
            Answer::Loans(loans) => object!(out, { "loans": loans }),
            Answer::Offers(offers) => object!(out, { "offers": offers }),
            Answer::Times(times) => times.write_json(out),
            Answer::ClassTimes(times) => times.write_json(out),
            Answer::Closed(page) => page.write_json(out),
            Answer::Order(assignment, post, status) => {
                object!(out, {
                    "order": assignment,
                    "post": post,
                    "status": status,
                })
            }
            Answer::Job(job) => job.write_json(out),
            Answer::Reported(number, outcome, status) => {
                object!(out, {
                    "number": number,
                    "outcome": outcome,
                    "status": status,
                })
            }
            Answer::LastReport(number, order) => object!(out, { "number": number, "order": order }),
            Answer::LastSerial(serial) => object!(out, { "serial": serial }),
        }
    }
}

impl ToJson for Refusal {
    ghost json = { refusal_json };

    fn write_json<S: Serializer>(&self, out: &mut S) -> Result<(), S::Error> {
        let (name, number) = (self.name(), self.number());
        object!(out, {
            "error": &name,
            "number": &number,
        })
    }
}

impl ToJson for IncidentLine {
    ghost json = { incident_json };

    fn write_json<S: Serializer>(&self, out: &mut S) -> Result<(), S::Error> {
        object!(out, {
            "calls": &self.calls,
            "class": &self.class,
            "lack": &self.lack,
            "needs": &self.needs,
            "number": &self.number,
            "opened": &self.opened,
            "place": &self.place,
        })
    }
}

impl ToJson for Proposal {
    ghost json = { proposal_json };

    fn write_json<S: Serializer>(&self, out: &mut S) -> Result<(), S::Error> {
        object!(out, {
            "breaks": &self.breaks,
            "distance": &self.distance,
            "kind": &self.kind,
            "vehicle": &self.callsign,
        })
    }
}

impl ToJson for VehicleLine {
    ghost json = { vehicle_json };

    fn write_json<S: Serializer>(&self, out: &mut S) -> Result<(), S::Error> {
        object!(out, {
            "home": &self.home,
            "incident": &self.incident,
            "kind": &self.kind,
            "place": &self.place,
            "post": &self.post,
            "shift_end": &self.shift_end,
            "status": &self.status,
            "vehicle": &self.callsign,
        })
    }
}

impl ToJson for MoveLine {
    ghost json = { move_json };

    fn write_json<S: Serializer>(&self, out: &mut S) -> Result<(), S::Error> {
        object!(out, {
            "order": &self.order,
            "vehicle": &self.callsign,
        })
    }
}

/// The callsign, or the empty text where there is none.
fn callsign_or_empty(callsign: &Option<Callsign>) -> &str
    ensures { result.now ≡ callsign_or_empty callsign.now }
{
    match callsign {
        Some(callsign) => callsign.as_str(),
        None => "",
    }
}

impl ToJson for QueueEntry {
    ghost json = { entry_json };

    fn write_json<S: Serializer>(&self, out: &mut S) -> Result<(), S::Error> {
        let vehicle = callsign_or_empty(&self.callsign);
        object!(out, {
            "number": &self.number,
            "rank": &self.rank,
            "since": &self.since,
            "vehicle": &vehicle,
        })
    }
}

impl ToJson for PointLine {
    ghost json = { point_json };

    fn write_json<S: Serializer>(&self, out: &mut S) -> Result<(), S::Error> {
        object!(out, {
            "cover": &self.cover,
            "held": &self.held,
            "number": &self.number,
            "place": &self.place,
        })
    }
}

impl ToJson for Loan {
    ghost json = { loan_json };

    fn write_json<S: Serializer>(&self, out: &mut S) -> Result<(), S::Error> {
        object!(out, {
            "borrower": &self.borrower,
            "lender": &self.lender,
            "recalled": &self.recalled,
            "since": &self.since,
            "until": &self.until,
            "vehicle": &self.callsign,
        })
    }
}

impl ToJson for Offer {
    ghost json = { offer_json };

    fn write_json<S: Serializer>(&self, out: &mut S) -> Result<(), S::Error> {
        object!(out, {
            "borrower": &self.borrower,
            "lender": &self.lender,
            "since": &self.since,
            "until": &self.until,
            "vehicle": &self.callsign,
        })
    }
}

impl ToJson for TimesLine {
    ghost json = { times_line_json };

    fn write_json<S: Serializer>(&self, out: &mut S) -> Result<(), S::Error> {
        object!(out, {
            "activation": &self.activation,
            "number": &self.number,
            "opened": &self.opened,
        })
    }
}

impl ToJson for Times {
    ghost json = { times_json };

    fn write_json<S: Serializer>(&self, out: &mut S) -> Result<(), S::Error> {
        object!(out, {
            "activated": &self.activated,
            "from": &self.from,
            "incidents": &self.lines,
            "to": &self.to,
            "within": &self.within,
        })
    }
}

impl ToJson for ClassLine {
    ghost json = { class_line_json };

    fn write_json<S: Serializer>(&self, out: &mut S) -> Result<(), S::Error> {
        object!(out, {
            "activated": &self.activated,
            "class": &self.class,
            "opened": &self.opened,
            "within": &self.within,
        })
    }
}

impl ToJson for ClassTimes {
    ghost json = { class_times_json };

    fn write_json<S: Serializer>(&self, out: &mut S) -> Result<(), S::Error> {
        object!(out, {
            "classes": &self.lines,
            "from": &self.from,
            "to": &self.to,
        })
    }
}

impl ToJson for Incident {
    ghost json = { closed_json };

    fn write_json<S: Serializer>(&self, out: &mut S) -> Result<(), S::Error> {
        object!(out, {
            "class": &self.class,
            "first_order": &self.first_order,
            "into": &self.state.merged_into(),
            "needs": &self.needs,
            "number": &self.number,
            "opened": &self.opened,
            "place": &self.place,
        })
    }
}

impl ToJson for ClosedPage {
    ghost json = { closed_page_json };

    fn write_json<S: Serializer>(&self, out: &mut S) -> Result<(), S::Error> {
        object!(out, {
            "incidents": &self.incidents,
            "next": &self.next,
        })
    }
}

impl ToJson for Assignment {
    ghost json = { assignment_json };

    fn write_json<S: Serializer>(&self, out: &mut S) -> Result<(), S::Error> {
        object!(out, {
            "class": &self.class,
            "division": &self.division,
            "incident": &self.incident,
            "order": &self.order,
            "place": &self.place,
        })
    }
}

impl ToJson for Job {
    ghost json = { job_json };

    fn write_json<S: Serializer>(&self, out: &mut S) -> Result<(), S::Error> {
        object!(out, {
            "class": &self.class,
            "notes": &self.notes,
            "order": &self.order,
            "post": &self.post,
            "status": &self.status,
        })
    }
}

impl ToJson for Call {
    ghost json = { call_json };

    fn write_json<S: Serializer>(&self, out: &mut S) -> Result<(), S::Error> {
        object!(out, {
            "class": &self.class,
            "given": &self.given,
            "linked": &self.linked,
            "moment": &self.at,
            "needs": &self.needs,
            "note": &self.note,
            "place": &self.place,
            "position": &self.position,
            "serial": &self.serial,
        })
    }
}

impl ToJson for Turn {
    ghost json = { turn_json };

    fn write_json<S: Serializer>(&self, out: &mut S) -> Result<(), S::Error> {
        object!(out, {
            "acknowledged": &self.acknowledged,
            "ended": &self.ended,
            "hospital": &self.hospital,
            "incident": &self.incident,
            "kind": &self.kind,
            "left": &self.left,
            "order": &self.order,
            "ordered": &self.ordered,
            "scene": &self.scene,
            "stood_down": &self.stood_down,
            "vehicle": &self.callsign,
        })
    }
}

impl ToJson for Report {
    ghost json = { report_json };

    fn write_json<S: Serializer>(&self, out: &mut S) -> Result<(), S::Error> {
        object!(out, {
            "button": &self.button,
            "cleared": &self.cleared,
            "moment": &self.at,
            "number": &self.number,
            "order": &self.order,
            "outcome": &self.outcome,
            "place": &self.place,
            "status": &self.status,
        })
    }
}

impl ToJson for History {
    ghost json = { history_json };

    fn write_json<S: Serializer>(&self, out: &mut S) -> Result<(), S::Error> {
        let incident = &self.incident;
        object!(out, {
            "calls": &self.calls,
            "class": &incident.class,
            "first_order": &incident.first_order,
            "into": &incident.state.merged_into(),
            "needs": &incident.needs,
            "number": &incident.number,
            "opened": &incident.opened,
            "place": &incident.place,
            "served": &self.served,
            "state": &incident.state.number(),
            "turns": &self.turns,
        })
    }
}

/// An answer or a refusal that is to be sent, as serde takes it.
#[derive(Drop)]
struct AnswerContent<'a>(&'a Result<Answer, Refusal>);

impl Described for AnswerContent<'_> {
    ghost writes = { λ answer_content. Sends (json_of answer_content.0.now) };
}

impl Serialize for AnswerContent<'_> {
    fn serialize<S: Serializer>(&self, out: &mut S) -> Result<(), S::Error> {
        match self.0 {
            Ok(answer) => answer.write_json(out),
            Err(refusal) => refusal.write_json(out),
        }
    }
}

/// The content of the message that gives an answer or a refusal. Only memory can be refused, since
/// no answer has a key or a number that JSON doesn't take.
#[tactic(auto, unfolding(crate::specs::AnswerJson::content))]
pub fn content(alloc: Global, answer: &Result<Answer, Refusal>) -> Result<Vec<u8>, AllocError>
    ensures { IfOk result (λ text. text.items ≡ content answer.now) }
{
    match serde_json::to_vec(alloc, &AnswerContent(answer)) {
        Ok(text) => Ok(text),
        Err(_) => Err(AllocError),
    }
}
