//! Rows are written faithfully, and tables stand for one room. The contracts are the laws; the
//! functions do nothing.

ghost use Rattle.std.specs.Prelude.{[], ◌∷◌, ◌≡◌};
ghost use Rattle.std.specs.Ordering.{nat_cmp};
ghost use Rattle.room_tables_schema.specs.TypedRows.{IsFaithful};
ghost use Rattle.room_types.specs.Keys.{callsign_cmp, pair_cmp, numbered_cmp, division_key};
ghost use Rattle.room_types.specs.Keys.{incident_key, call_key, vehicle_key, turn_key};
ghost use Rattle.room_types.specs.Keys.{assignment_key, point_key, loan_key, offer_key, report_key};
ghost use Rattle.room_model.specs.FleetRows.{token_cmp, terminal_key};
ghost use Rattle.room_tables_rows.specs.MetaSql.{meta_key, meta_row};
ghost use Rattle.room_tables_rows.specs.AreaSql.{area_key, area_row};
ghost use Rattle.room_tables_rows.specs.TerminalSql.{terminal_row};
ghost use Rattle.room_tables_rows.specs.DivisionSql.{division_row};
ghost use Rattle.room_tables_rows.specs.IncidentSql.{incident_row};
ghost use Rattle.room_tables_rows.specs.CallSql.{call_row};
ghost use Rattle.room_tables_rows.specs.VehicleSql.{vehicle_row};
ghost use Rattle.room_tables_rows.specs.TurnSql.{turn_row};
ghost use Rattle.room_tables_rows.specs.AssignmentSql.{assignment_row};
ghost use Rattle.room_tables_rows.specs.PointSql.{point_row};
ghost use Rattle.room_tables_rows.specs.LoanSql.{loan_row};
ghost use Rattle.room_tables_rows.specs.ReportSql.{report_row};
ghost use Rattle.room_tables_rows.specs.OfferSql.{offer_row};
ghost use Rattle.sqlite_trees.specs.Tree.{Trees};
ghost use Rattle.room_model.specs.Room.{Room};
ghost use Rattle.room_tables_rows.specs.RoomsInTables.{Configuration, Stands};

/// The rows of every table are written faithfully.
pub fn rows_are_faithful()
    ensures meta { IsFaithful nat_cmp meta_key meta_row (0 ∷ []) }
    ensures areas { IsFaithful nat_cmp area_key area_row (0 ∷ []) }
    ensures terminals { IsFaithful token_cmp terminal_key terminal_row (1 ∷ []) }
    ensures divisions { IsFaithful nat_cmp division_key division_row (0 ∷ []) }
    ensures incidents { IsFaithful pair_cmp incident_key incident_row (1 ∷ 2 ∷ []) }
    ensures calls { IsFaithful pair_cmp call_key call_row (1 ∷ 2 ∷ []) }
    ensures vehicles { IsFaithful callsign_cmp vehicle_key vehicle_row (1 ∷ []) }
    ensures turns { IsFaithful numbered_cmp turn_key turn_row (1 ∷ 2 ∷ []) }
    ensures assignments { IsFaithful callsign_cmp assignment_key assignment_row (1 ∷ []) }
    ensures points { IsFaithful pair_cmp point_key point_row (1 ∷ 2 ∷ []) }
    ensures loans { IsFaithful callsign_cmp loan_key loan_row (1 ∷ []) }
    ensures reports { IsFaithful numbered_cmp report_key report_row (1 ∷ 2 ∷ []) }
    ensures offers { IsFaithful callsign_cmp offer_key offer_row (1 ∷ []) }
{}

/// Tables stand for only one configuration and one room.
pub fn tables_stand_for_one_room()
    ensures config { (trees : Trees) (config other : Configuration) (room another : Room)
        → Stands trees config room → Stands trees other another → config ≡ other }
    ensures room { (trees : Trees) (config other : Configuration) (room another : Room)
        → Stands trees config room → Stands trees other another → room ≡ another }
{}
