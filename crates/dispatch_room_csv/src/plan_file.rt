//! The file of a plan.
ghost use Rattle.std.specs.Prelude.{◌≡◌, None, filter_map, IfOk, IfErr};
ghost use Rattle.room_place.specs.Plans.{plan_fault};
ghost use Rattle.dispatch_room_csv.specs.PlanFile.{ExplainsLines, ExplainsPlan, IsPlanOf};
ghost use Rattle.dispatch_room_csv.specs.PlanFile.{IsPlanText, area_in, plan_fault_of, rule_in};
ghost use Rattle.dispatch_room_csv.specs.PlanFile.{terminal_in};

use crate::csv_records::{RecordsFault, read_rows};
use crate::plan_lines::{PlanLine, plan_lines};
use crate::plan_rules::{first_refused, has_zone_and_areas};
use dispatch_room_exit::exit_status::Failure;
use room_place::plans::{Area, Plan, PlanFault};
use room_types::fleet::Terminal;
use room_types::text::Text;
use std::alloc::{AllocError, Global};
use thiserror::Error;

/// The names over the columns.
pub(crate) const HEADER: [&str; 6] = ["what", "number", "a", "b", "c", "d"];

/// What a plan's file gives: the plan, and the terminals of desks and positions in its order.
#[derive(Drop)]
pub struct PlanFile {
    pub plan: Plan,
    pub terminals: Vec<Terminal>,
}

/// Why a text is no plan. Of several reasons the first of this list is given, and `Memory` at any
/// time.
#[derive(Clone, Copy, Debug, PartialEq, Eq, Error)]
pub enum PlanFileFault {
    /// It is no UTF-8, no CSV, has another header, or a row with another number of fields.
    #[error("the file is not a plan in CSV")]
    Input,
    /// The first row that breaks a rule, counted from 1 after the header. It is 0 where there is no
    /// zone or no area, or more than 64 of these.
    #[error("row {0} is refused")]
    Row(u64),
    #[error("out of memory")]
    Memory,
}

impl From<RecordsFault> for PlanFileFault {
    ghost use Rattle.std.specs.Prelude.{◌≡◌};
    ghost use Rattle.dispatch_room_csv.specs.PlanFile.{plan_fault_of};

    ghost from_gives = { λ fault cause. cause ≡ plan_fault_of fault };

    fn from(fault: RecordsFault) -> PlanFileFault {
        match fault {
            RecordsFault::Input => PlanFileFault::Input,
            RecordsFault::Memory => PlanFileFault::Memory,
        }
    }
}

impl From<AllocError> for PlanFileFault {
    ghost use Rattle.std.specs.Prelude.{◌≡◌};
    ghost use Rattle.dispatch_room_csv.specs.declared.plan_file.PlanFileFault.TheVariants.{Memory};

    ghost from_gives = { λ _ cause. cause ≡ Memory };

    fn from(_: AllocError) -> PlanFileFault {
        PlanFileFault::Memory
    }
}

impl From<PlanFileFault> for Failure {
    ghost use Rattle.std.specs.Prelude.{◌≡◌};
    ghost use Rattle.dispatch_room_csv.specs.CsvFaults.{plan_failure};

    ghost from_gives = { λ fault cause. cause ≡ plan_failure fault };

    fn from(fault: PlanFileFault) -> Failure {
        match fault {
            PlanFileFault::Input => Failure::Input,
            PlanFileFault::Row(row) => Failure::PlanRow(row),
            PlanFileFault::Memory => Failure::Memory,
        }
    }
}

/// The plan that a text in CSV gives.
pub fn read_plan(alloc: Global, text: &[u8]) -> Result<PlanFile, PlanFileFault>
    ensures plan { IfOk result (IsPlanText text.now) }
    ensures fault { IfErr result (ExplainsPlan text.now) }
{
    let rows = read_rows(alloc, &HEADER, text)?;
    let lines = plan_lines(alloc, rows.as_slice())?;
    plan_of(alloc, lines.as_slice())
}

/// The plan of rows that break no rule.
fn plan_of(alloc: Global, lines: &[PlanLine]) -> Result<PlanFile, PlanFileFault>
    ensures plan { IfOk result (IsPlanOf lines.now) }
    ensures fault { IfErr result (ExplainsLines lines.now) }
{
    if !has_zone_and_areas(lines) {
        return Err(PlanFileFault::Row(0));
    }
    if let Some(at) = first_refused(lines) {
        return Err(PlanFileFault::Row(at as u64 + 1));
    }
    let areas = areas_in(alloc, lines)?;
    let rules = rules_in(alloc, lines)?;
    let terminals = terminals_in(alloc, lines)?;
    let plan = sound_plan(alloc, areas, rules[0].as_str())?;
    Ok(PlanFile { plan, terminals })
}

/// The plan of areas and a zone without a fault. An error is lack of memory.
fn sound_plan(alloc: Global, areas: Vec<Area>, zone: &str) -> Result<Plan, AllocError>
    requires { plan_fault areas.items zone.now ≡ None }
    ensures { IfOk result (λ plan. (plan.areas ≡ areas.items) × (plan.zone ≡ zone.now)) }
{
    match Plan::new(alloc, areas, zone) {
        Ok(plan) => Ok(plan),
        Err(PlanFault::Memory) => Err(AllocError),
        Err(_) => unreachable!(),
    }
}

fn areas_in(alloc: Global, lines: &[PlanLine]) -> Result<Vec<Area>, AllocError>
    ensures { IfOk result (λ areas. areas.items ≡ filter_map area_in lines.now) }
{
    lines.iter().filter_map(area_in).collect(alloc)
}

fn area_in(line: &PlanLine) -> Option<Area>
    ensures { result ≡ area_in line.now }
{
    match line {
        PlanLine::Area(area) => Some(*area),
        _ => None,
    }
}

fn rules_in(alloc: Global, lines: &[PlanLine]) -> Result<Vec<Text<64>>, AllocError>
    ensures { IfOk result (λ rules. rules.items ≡ filter_map rule_in lines.now) }
{
    lines.iter().filter_map(rule_in).collect(alloc)
}

fn rule_in(line: &PlanLine) -> Option<Text<64>>
    ensures { result ≡ rule_in line.now }
{
    match line {
        PlanLine::Zone(rule) => Some(*rule),
        _ => None,
    }
}

fn terminals_in(alloc: Global, lines: &[PlanLine]) -> Result<Vec<Terminal>, AllocError>
    ensures { IfOk result (λ terminals. terminals.items ≡ filter_map terminal_in lines.now) }
{
    lines.iter().filter_map(terminal_in).collect(alloc)
}

fn terminal_in(line: &PlanLine) -> Option<Terminal>
    ensures { result ≡ terminal_in line.now }
{
    match line {
        PlanLine::Terminal(terminal) => Some(*terminal),
        _ => None,
    }
}
