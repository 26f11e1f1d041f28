//! What holds of paths and asks. A law is the contract of a function that does nothing.

ghost use Rattle.room_http_requests.specs.TargetExamples.{AreFound, AreRouted, IsListed, Name};
ghost use Rattle.room_http_requests.specs.TargetExamples.{NameNothing, class_requests};
ghost use Rattle.room_http_requests.specs.TargetExamples.{history_requests, incident_names};
ghost use Rattle.room_http_requests.specs.TargetExamples.{other_names, requests, search_names};
ghost use Rattle.room_http_requests.specs.TargetExamples.{search_requests, stray_days};
ghost use Rattle.room_http_requests.specs.TargetExamples.{stray_incidents, stray_metres};
ghost use Rattle.room_http_requests.specs.TargetExamples.{stray_numbers, stray_paths, stray_points};
ghost use Rattle.room_http_requests.specs.TargetExamples.{stray_searches, stray_vehicles};
ghost use Rattle.room_http_requests.specs.TargetExamples.{vehicle_names};
ghost use Rattle.std.specs.Prelude.{◌≡◌, ℕ, ℤ, List, Some, true, false, Err, IfSome};
ghost use Rattle.room_types.specs.declared.refusal_statuses.Refusal.TheVariants.{NoPath};
ghost use Rattle.room_http_requests.specs.RequestTable.{between, is_known, is_of, is_of_history};
ghost use Rattle.room_http_requests.specs.RequestTable.{path_of, request_by, role_of};
ghost use Rattle.room_http_requests.specs.Router.{routed, target_of};
ghost use Rattle.room_types.specs.declared.asks.Ask.{Ask};
ghost use Rattle.room_types.specs.declared.asks.Who.{Who};
ghost use Rattle.room_http_time.specs.Dates.{Date};
ghost use Rattle.room_http_requests.specs.declared.request_table.DayAsk.{DayAsk};
ghost use Rattle.room_http_requests.specs.declared.request_table.Path.{Path};
ghost use Rattle.room_http_requests.specs.declared.request_table.Target.{Target};
ghost use Rattle.room_http_requests.specs.declared.request_table.TheConstants.{PATHS};
ghost use Rattle.room_model.specs.Events.{IsNumbered};
ghost use Rattle.room_model.specs.Room.{Room};
ghost use Rattle.room_model.specs.Step.{is_for};

/// All paths are in the table, and each is found by a target that fills its pattern. What targets
/// name is shown in examples.
pub fn targets_name_paths()
    ensures listed { (path : Path) → IsListed PATHS path }
    ensures found { AreFound PATHS }
    ensures incidents { Name incident_names }
    ensures vehicles { Name vehicle_names }
    ensures searches { Name search_names }
    ensures others { Name other_names }
{}

/// Targets that miss a path narrowly name nothing: with a number out of range or with a leading
/// zero, a day that no calendar has, a place that no reference names, a slash too many, a query.
pub fn strays_name_nothing()
    ensures paths { NameNothing stray_paths }
    ensures incidents { NameNothing stray_incidents }
    ensures numbers { NameNothing stray_numbers }
    ensures vehicles { NameNothing stray_vehicles }
    ensures points { NameNothing stray_points }
    ensures days { NameNothing stray_days }
    ensures searches { NameNothing stray_searches }
    ensures metres { NameNothing stray_metres }
{}

/// The methods of a path are taken, others are refused, and a target that names nothing is refused
/// by any method.
pub fn paths_take_methods()
    ensures plain { AreRouted false requests }
    ensures history { AreRouted true history_requests }
    ensures classes { AreRouted true class_requests }
    ensures searches { AreRouted true search_requests }
{}

/// What names no path of history is the same with history and without, and what names one is none
/// without.
pub fn history_adds_paths()
    ensures same { (method bytes : List ℕ)
        → IfSome (target_of bytes) (λ named. is_of_history (path_of named) ≡ false)
        → routed true method bytes ≡ routed false method bytes }
    ensures none { (method bytes : List ℕ)
        → IfSome (target_of bytes) (λ named. is_of_history (path_of named) ≡ true)
        → routed false method bytes ≡ Err NoPath }
{}

ghost use Rattle.room_http_requests.specs.declared.request_table.Request.TheVariants as request;

/// An ask that a request makes is for any known terminal of its target's role, and so is what it
/// asks of a day; and a report's number is from 1. So a request that passed the test of its role is
/// addressed.
pub fn requests_are_addressed()
    ensures asks { (t : Target) (body : List ℕ) (a : Ask) (who : Who) (r : Room)
        → request_by t body ≡ Some (request.Ask a)
        → is_of (role_of t) who ≡ true → is_for who a r ≡ is_known who r }
    ensures of_days { (t : Target) (body : List ℕ) (day : Date) (x : DayAsk) (from to : ℤ)
        (who : Who) (r : Room)
        → request_by t body ≡ Some (request.OfDay day x)
        → is_of (role_of t) who ≡ true → is_for who (between x from to) r ≡ is_known who r }
    ensures numbered { (t : Target) (body : List ℕ) (a : Ask)
        → request_by t body ≡ Some (request.Ask a) → IsNumbered a }
{}
