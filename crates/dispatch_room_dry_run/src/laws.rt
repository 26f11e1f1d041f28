//! What holds of the example room. Each function does nothing; what it ensures is the law.
ghost use Rattle.std.specs.Prelude.{◌≡◌, replicate};
ghost use Rattle.room_types.specs.declared.fleet.RowFate.TheVariants.{Added};
ghost use Rattle.room_store_writes.specs.NewRoom.{in_order, new_room};
ghost use Rattle.room_model.specs.Fleets.{fates_of};
ghost use Rattle.dispatch_room_dry_run.specs.Example.{example_fleet, example_plan};
ghost use Rattle.dispatch_room_dry_run.specs.Example.{example_terminals};

/// Each of the five vehicles is new to the room when its row is enrolled.
pub fn every_vehicle_is_added()
    ensures { fates_of example_fleet (new_room example_plan)
        (in_order example_terminals) ≡ replicate 5 Added }
{}
