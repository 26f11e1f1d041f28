//! What came of an incident, read and shown.
ghost use Rattle.std.specs.Prelude.{OnOk};
ghost use Rattle.dispatch_room_board.specs.Histories.{IsHistory, history_lines};
ghost use Rattle.dispatch_room_board.specs.Pages.{Adds};

use crate::answer_contents::FromAnswer;
use crate::answer_rows::rows_in;
use crate::board_pages::Page;
use crate::call_columns::CallLine;
use crate::json_members::FromJson;
use crate::summary_columns::{IncidentSummary, put_summary};
use crate::table_layouts::put_rows;
use crate::turn_columns::TurnLine;
use room_types::answers::Listed;
use room_types::numbers::Moment;
use serde_json::Value;
use std::alloc::{AllocError, Global};

/// An incident with its calls, and with the turns of the vehicles that were sent to it.
#[derive(Drop)]
pub struct History {
    pub summary: IncidentSummary,
    pub calls: Listed<CallLine>,
    pub turns: Listed<TurnLine>,
}

impl FromAnswer for History {
    ghost gives = { IsHistory };

    fn from_answer(alloc: Global, value: &Value) -> Result<Option<History>, AllocError> {
        let summary = IncidentSummary::from_json(value);
        let calls = rows_in(alloc, value, "calls")?;
        let turns = rows_in(alloc, value, "turns")?;
        let members = summary.zip(calls).zip(turns);
        match members {
            Some(((summary, calls), turns)) => Ok(Some(History {
                summary,
                calls,
                turns,
            })),
            None => Ok(None),
        }
    }
}

/// Adds what came of an incident, as it is at a moment.
pub fn put_history(
    alloc: Global,
    page: &mut Page,
    history: &History,
    now: Moment,
) -> Result<(), AllocError>
    ensures { OnOk result (Adds page.old page.new
        (history_lines page.old.colour now history.now)) }
{
    put_summary(alloc, page, &history.summary, now)?;
    put_rows(alloc, page, &history.calls, now)?;
    put_rows(alloc, page, &history.turns, now)
}
