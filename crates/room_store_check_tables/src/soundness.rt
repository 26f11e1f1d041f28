//! Whether what was read makes a well-formed room that the terminals fit.
ghost use Rattle.std.specs.Prelude.{◌≡◌, ◌↔◌, ◌⊎◌, IsTrue, IfErr, IfOk};
ghost use Rattle.room_model.specs.FleetRows.{AreTerminals};
ghost use Rattle.room_model.specs.RoomSlices.{room_of};
ghost use Rattle.room_model.specs.RoomAgreements.{IsWellFormed};
ghost use Rattle.room_store_check_tables.specs.declared.file_faults.FileFault.TheVariants.{Memory};
ghost use Rattle.room_store_check_tables.specs.declared.file_faults.FileFault.TheVariants.{NotARoom};

use crate::file_faults::FileFault;
use crate::whole_file::ReadFile;
use room_place::plans::Plan;
use room_store_check_rows::room_checks::is_well_formed;
use room_store_check_rows::terminal_checks::do_terminals_fit;
use std::alloc::Global;

/// The plan of a file whose rows make a well-formed room that the terminals fit.
pub fn sound_plan(alloc: Global, whole: ReadFile) -> Result<Plan, FileFault>
    ensures sound { IfOk result (λ plan. (plan ≡ whole.config.plan)
        × IsWellFormed (room_of whole.config.plan.areas whole.rows)
        × AreTerminals (room_of whole.config.plan.areas whole.rows) whole.config.terminals.items) }
    ensures no_room { IfErr result (λ e. e ≡ NotARoom
        → ¬ (IsWellFormed (room_of whole.config.plan.areas whole.rows)
        × AreTerminals (room_of whole.config.plan.areas whole.rows) whole.config.terminals.items)) }
    ensures cause { IfErr result (λ e. (e ≡ Memory) ⊎ (e ≡ NotARoom)) }
{
    let test = is_sound(alloc, &whole);
    let ReadFile { config, rows } = whole;
    drop(rows);
    match test {
        Ok(true) => Ok(config.plan),
        Ok(false) => Err(FileFault::NotARoom),
        Err(fault) => Err(fault),
    }
}

// Whether the rows make a well-formed room that the terminals fit.
fn is_sound(alloc: Global, whole: &ReadFile) -> Result<bool, FileFault>
    ensures test { IfOk result (λ yes. IsTrue yes
        ↔ (IsWellFormed (room_of whole.now.config.plan.areas whole.now.rows)
        × AreTerminals
        (room_of whole.now.config.plan.areas whole.now.rows) whole.now.config.terminals.items)) }
    ensures memory { IfErr result (λ e. e ≡ Memory) }
{
    let plan = &whole.config.plan;
    let Ok(formed) = is_well_formed(alloc, plan, &whole.rows) else {
        return Err(FileFault::Memory);
    };
    let Ok(fit) = do_terminals_fit(alloc, plan, &whole.rows, whole.config.terminals.as_slice())
    else {
        return Err(FileFault::Memory);
    };
    Ok(formed && fit)
}
