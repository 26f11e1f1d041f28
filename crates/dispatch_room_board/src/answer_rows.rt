//! The rows of one answer.
ghost use Rattle.std.specs.Prelude.{IfOk};
ghost use Rattle.serde_json.specs.View.{items_view, view};
ghost use Rattle.dispatch_room_board.specs.Members.{HasMember, IsRead};
ghost use Rattle.dispatch_room_board.specs.AnswerRows.{AreRows, IsList};

use crate::answer_contents::FromAnswer;
use crate::json_members::FromJson;
use crate::table_layouts::Tabled;
use room_types::answers::Listed;
use serde_json::Value;
use std::alloc::{AllocError, Global};

impl<T: Tabled> FromAnswer for Listed<T> {
    ghost gives = { HasMember (IsList T.says) T.table.name };

    fn from_answer(alloc: Global, value: &Value) -> Result<Option<Listed<T>>, AllocError> {
        rows_in(alloc, value, T::layout().name)
    }
}

/// The rows in the list of a name; none where there is no such list.
pub fn rows_in<T: FromJson>(
    alloc: Global,
    value: &Value,
    name: &str,
) -> Result<Option<Listed<T>>, AllocError>
    ensures { IfOk result (IsRead (HasMember (IsList T.says) name.now (view value.now))) }
{
    let Some(list) = value.get(name) else {
        return Ok(None);
    };
    let Some(items) = list.as_array() else {
        return Ok(None);
    };
    rows_from(alloc, items.as_slice())
}

// The rows that the items say, one each; none where an item says no row.
fn rows_from<T: FromJson>(alloc: Global, items: &[Value]) -> Result<Option<Listed<T>>, AllocError>
    ensures { IfOk result (IsRead (AreRows T.says (items_view items.now))) }
{
    let mut rows = Listed::new(alloc);
    for item in items {
        match T::from_json(item) {
            Some(row) => rows.push(row)?,
            None => return Ok(None),
        }
    }
    Ok(Some(rows))
}
