//! The outcome of each button at each status, and what a button does where it acts: a profile of
//! this project's own.
ghost use Rattle.std.specs.Prelude.{◌≡◌};
ghost use Rattle.room_types.specs.Codes.{acts};
ghost use Rattle.room_model.specs.Reports.{press, status_after, ends_turn, names_order, is_home};

use room_types::codes::{Button, Outcome, Status};

/// The outcome of a button whose report is neither late nor stale: a row for each status. Scene is
/// normal at a mobilised vehicle only where its crew acknowledged the order; else it skips that.
pub fn press(status: Status, button: Button, acknowledged: bool) -> Outcome
    ensures { result ≡ press status button acknowledged }
{
    match status {
        Status::OffDuty => Outcome::Wrong,
        Status::Available | Status::Offered => match button {
            Button::Position | Button::Home => Outcome::Normal,
            _ => Outcome::Wrong,
        },
        Status::Mobilised => match button {
            Button::Position | Button::Mobile => Outcome::Normal,
            Button::Scene if acknowledged => Outcome::Normal,
            _ => Outcome::Skipped,
        },
        Status::AtScene => match button {
            Button::Position | Button::Scene | Button::Leave | Button::Return => Outcome::Normal,
            Button::Hospital | Button::Home => Outcome::Skipped,
            Button::Mobile => Outcome::Wrong,
        },
        Status::Leaving => match button {
            Button::Position | Button::Leave | Button::Hospital => Outcome::Normal,
            Button::Return | Button::Home => Outcome::Skipped,
            Button::Mobile | Button::Scene => Outcome::Wrong,
        },
        Status::AtHospital => match button {
            Button::Position | Button::Hospital | Button::Return => Outcome::Normal,
            Button::Home => Outcome::Skipped,
            Button::Mobile | Button::Scene | Button::Leave => Outcome::Wrong,
        },
        Status::Returning => match button {
            Button::Position | Button::Return | Button::Home => Outcome::Normal,
            _ => Outcome::Wrong,
        },
    }
}

/// Whether a report of this outcome does what its button says, and is not only kept.
pub fn acts(outcome: Outcome) -> bool
    ensures { result ≡ acts outcome }
{
    matches!(outcome, Outcome::Normal | Outcome::Skipped)
}

/// Whether the button, where it acts, ends the vehicle's turn and its assignment.
pub fn ends_turn(button: Button) -> bool
    ensures { result ≡ ends_turn button }
{
    matches!(button, Button::Return | Button::Home)
}

/// The status after a button that acts. An offered vehicle stays reserved at Home.
pub(crate) fn status_after(status: Status, button: Button) -> Status
    ensures { result ≡ status_after status button }
{
    match button {
        Button::Position | Button::Mobile => status,
        Button::Scene => Status::AtScene,
        Button::Leave => Status::Leaving,
        Button::Hospital => Status::AtHospital,
        Button::Return => Status::Returning,
        Button::Home => match status {
            Status::Offered => Status::Offered,
            _ => Status::Available,
        },
    }
}

/// Whether the report has to name the vehicle's last order.
pub(crate) fn names_order(button: Button) -> bool
    ensures { result ≡ names_order button }
{
    !matches!(button, Button::Position | Button::Home)
}

/// Whether the vehicle is at home, where a loan that is due ends.
pub(crate) fn is_home(button: Button) -> bool
    ensures { result ≡ is_home button }
{
    matches!(button, Button::Home)
}
