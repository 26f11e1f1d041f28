//! The example room acts on lists of events. What is answered was written by hand, from the rules.
ghost use Rattle.std.specs.Prelude.{◌≡◌, ◌≤◌, true, IsOk};
ghost use Rattle.room_place.specs.References.{parse as reading};
ghost use Rattle.room_types.specs.Texts.{is_callsign};

use crate::memory_room::example_room;
use room_http::reply_messages::render;
use room_place::places::Place;
use room_place::plans::DivisionNumber;
use room_types::asks::{Ask, CallForm, Event, Press, Who};
use room_types::callsign::Callsign;
use room_types::codes::Button;
use room_types::needs::{Counts, Needs};
use room_types::note::Note;
use room_types::numbers::{Class, LastNumber, Moment, Need, Number, PositionNumber};
use std::alloc::Global;
use std::process::Abort;
use std::test::Fail;

// Acts on the events in two runs, and asserts that they are answered so, in their order.
fn assert_answers(
    rt: &impl Abort,
    alloc: Global,
    events: &[Event],
    wanted: &[&str],
) -> Result<(), Fail> {
    let (first, second) = events.split_at(events.len() / 2);
    let mut out = Vec::new(alloc);
    let mut store = example_room(alloc)?;
    let ran = store.run(alloc, first, &mut out);
    // What the first run answered is kept.
    let ran_on = store.run(alloc, second, &mut out);
    let _ = store.close();
    ran?;
    ran_on?;
    assert_eq!(rt; out.len(), wanted.len());
    for (answered, wanted) in out.iter().zip(wanted) {
        let reply = render(alloc, answered, Moment::of(1000), false, false)?;
        let head = reply.strip_suffix(wanted.as_bytes());
        assert!(rt;
            head.is_some_and(|head| head.ends_with(b"\r\n\r\n")),
            "not {wanted}"
        );
    }
    Ok(())
}

// What a desk asks at a second.
fn by_desk(division: u32, at: u32, ask: Ask) -> Event
    requires division { (1 ≤ division) × (division ≤ 9) }
    requires at { at ≤ 4102444799 }
{
    Event {
        who: Who::Desk(DivisionNumber::of(division)),
        ask,
        at: Moment::of(at),
    }
}

// A vehicle's callsign.
fn named(callsign: &str) -> Callsign
    requires { is_callsign callsign.now ≡ true }
{
    Callsign::parse(callsign).unwrap()
}

// The place of a reference.
fn referred(reference: &str) -> Place
    requires { IsOk (reading reference.now) }
{
    Place::parse(reference).unwrap()
}

// A vehicle of division 1 goes on duty until second 50000.
fn on_duty(callsign: &str) -> Event
    requires { is_callsign callsign.now ≡ true }
{
    let ask = Ask::Duty(named(callsign), referred("TQ300800"), Moment::of(50_000));
    by_desk(1, 1000, ask)
}

// A vehicle is asked for, for incident 1 of a division.
fn mobilised(division: u32, at: u32, callsign: &str) -> Event
    requires division { (1 ≤ division) × (division ≤ 9) }
    requires at { at ≤ 4102444799 }
    requires callsign { is_callsign callsign.now ≡ true }
{
    by_desk(division, at, Ask::Mobilise(Number::of(1), named(callsign)))
}

// Division 1 lends A1 to another one, until second 9000.
fn lent(at: u32, to: u32) -> Event
    requires at { at ≤ 4102444799 }
    requires to { (1 ≤ to) × (to ≤ 9) }
{
    by_desk(
        1,
        at,
        Ask::Lend(named("A1"), DivisionNumber::of(to), Moment::of(9000)),
    )
}

// A call of class 2 for one ambulance, the first of position 1, at second 1000.
fn called(reference: &str, note: Note) -> Event
    requires { IsOk (reading reference.now) }
{
    let counts = Counts {
        ambulances: Need::of(1),
        cars: Need::of(0),
        support: Need::of(0),
    };
    Event {
        who: Who::Position(PositionNumber::of(1)),
        ask: Ask::Call(CallForm {
            serial: Number::of(1),
            place: referred(reference),
            class: Class::of(2),
            needs: Needs::new(counts).unwrap(),
            note,
        }),
        at: Moment::of(1000),
    }
}

// A report of the crew of A1, on order 1.
fn reported(at: u32, number: u32, button: Button) -> Event
    requires at { at ≤ 4102444799 }
    requires number { (1 ≤ number) × (number ≤ 2147483647) }
{
    Event {
        who: Who::Crew(named("A1")),
        ask: Ask::Report(Press {
            number: Number::of(number),
            button,
            order: LastNumber::of(1),
            place: referred("TQ300800"),
        }),
        at: Moment::of(at),
    }
}

// A vehicle goes to an incident, and its crew leaves out a button and sends one too late.
#[test]
fn a_vehicle_serves_an_incident(rt: HostRuntime) -> Result<(), Fail> {
    let events = [
        called("TQ300800", Note::new("").expect(&rt, "a note")),
        on_duty("A1"),
        on_duty("A2"),
        mobilised(1, 2000, "A1"),
        mobilised(1, 2000, "A1"),
        mobilised(1, 2000, "A2"),
        by_desk(1, 2000, Ask::Close(Number::of(1))),
        reported(2010, 1, Button::Mobile),
        reported(2020, 3, Button::Leave),
        reported(2030, 2, Button::Scene),
        by_desk(1, 2040, Ask::Clear(named("A1"), Number::of(2))),
        by_desk(1, 2040, Ask::Clear(named("A1"), Number::of(2))),
        by_desk(1, 2040, Ask::Queue),
    ];
    let wanted = [
        r#"{"division":1,"incident":1,"linked":false}"#,
        r#"{"done":true}"#,
        r#"{"done":true}"#,
        r#"{"order":1,"vehicle":"A1"}"#,
        r#"{"error":"WrongStatus","number":5}"#,
        r#"{"error":"NotNeeded","number":7}"#,
        r#"{"error":"StillAssigned","number":9}"#,
        r#"{"number":1,"outcome":"normal","status":2}"#,
        r#"{"number":3,"outcome":"skipped","status":4}"#,
        r#"{"number":2,"outcome":"late","status":4}"#,
        r#"{"done":true}"#,
        r#"{"error":"NoSuchException","number":15}"#,
        r#"{"queue":[{"number":3,"rank":4,"since":2020,"vehicle":"A1"}]}"#,
    ];
    assert_answers(&rt, rt.alloc(), &events, &wanted)
}

// A vehicle is lent, serves the borrower's incident, and goes home by its crew's last report.
#[test]
fn a_vehicle_is_lent(rt: HostRuntime) -> Result<(), Fail> {
    let events = [
        called("TQ600800", Note::new("").expect(&rt, "a note")),
        on_duty("A1"),
        lent(2000, 2),
        by_desk(2, 2000, Ask::Accept(named("A1"))),
        by_desk(1, 2000, Ask::Off(named("A1"))),
        by_desk(1, 2100, Ask::Recall(named("A1"))),
        mobilised(2, 2200, "A1"),
        reported(3000, 1, Button::Home),
        by_desk(2, 3000, Ask::Loans),
        by_desk(2, 3000, Ask::Off(named("A1"))),
        by_desk(1, 3000, Ask::Recall(named("A1"))),
        lent(3000, 7),
        by_desk(1, 3000, Ask::GiveBack(named("A1"))),
    ];
    let wanted = [
        r#"{"division":2,"incident":1,"linked":false}"#,
        r#"{"done":true}"#,
        r#"{"done":true}"#,
        r#"{"done":true}"#,
        r#"{"error":"VehicleLent","number":4}"#,
        r#"{"done":true}"#,
        r#"{"order":1,"vehicle":"A1"}"#,
        r#"{"number":1,"outcome":"skipped","status":1}"#,
        r#"{"loans":[]}"#,
        r#"{"error":"NoSuchVehicle","number":3}"#,
        r#"{"error":"NoSuchLoan","number":14}"#,
        r#"{"error":"NoSuchDivision","number":13}"#,
        r#"{"error":"NoSuchLoan","number":14}"#,
    ];
    assert_answers(&rt, rt.alloc(), &events, &wanted)
}
