//! What a vehicle is and does, what its crew presses, what becomes of reports and incidents, and
//! the numbers and names by which these are stored and sent.
ghost use Rattle.std.specs.Prelude.{◌≡◌};
ghost use Rattle.room_types.specs.Codes.{Decodes, kind_number, status_number, is_free, is_busy};
ghost use Rattle.room_types.specs.Codes.{is_off, is_mobilised, button_number, button_name};
ghost use Rattle.room_types.specs.Codes.{outcome_number, outcome_name, state_number, merged_into};
ghost use Rattle.room_types.specs.Codes.{state_columns, is_active};

use crate::numbers::Number;

/// What a vehicle is.
#[derive(Clone, Copy, PartialEq, Eq)]
pub enum Kind {
    Ambulance,
    Car,
    Support,
}

impl Kind {
    /// The number of the kind: 1 to 3.
    pub fn number(self) -> u8
        ensures { result ≡ kind_number self }
    {
        match self {
            Kind::Ambulance => 1,
            Kind::Car => 2,
            Kind::Support => 3,
        }
    }

    /// The kind of this number; none where it is not 1 to 3.
    pub fn from_number(number: u8) -> Option<Kind>
        ensures { Decodes kind_number number result }
    {
        match number {
            1 => Some(Kind::Ambulance),
            2 => Some(Kind::Car),
            3 => Some(Kind::Support),
            _ => None,
        }
    }
}

/// What a vehicle is doing.
#[derive(Clone, Copy, PartialEq, Eq)]
pub enum Status {
    OffDuty,
    Available,
    /// It has an order and is on its way to the scene.
    Mobilised,
    AtScene,
    /// On its way from the scene to a hospital.
    Leaving,
    AtHospital,
    /// Done with its order, and on its way home.
    Returning,
    /// Offered to another division, and reserved until the offer is answered or withdrawn.
    Offered,
}

impl Status {
    /// The number of the status: 0 to 7.
    pub fn number(self) -> u8
        ensures { result ≡ status_number self }
    {
        match self {
            Status::OffDuty => 0,
            Status::Available => 1,
            Status::Mobilised => 2,
            Status::AtScene => 3,
            Status::Leaving => 4,
            Status::AtHospital => 5,
            Status::Returning => 6,
            Status::Offered => 7,
        }
    }

    /// The status of this number; none where it is above 7.
    pub fn from_number(number: u8) -> Option<Status>
        ensures { Decodes status_number number result }
    {
        match number {
            0 => Some(Status::OffDuty),
            1 => Some(Status::Available),
            2 => Some(Status::Mobilised),
            3 => Some(Status::AtScene),
            4 => Some(Status::Leaving),
            5 => Some(Status::AtHospital),
            6 => Some(Status::Returning),
            7 => Some(Status::Offered),
            _ => None,
        }
    }

    /// Whether the vehicle may be sent: available or returning.
    pub fn is_free(self) -> bool
        ensures { result ≡ is_free self }
    {
        matches!(self, Status::Available | Status::Returning)
    }

    /// Whether the vehicle has an order: from mobilised to at hospital.
    pub fn is_busy(self) -> bool
        ensures { result ≡ is_busy self }
    {
        matches!(
            self,
            Status::Mobilised | Status::AtScene | Status::Leaving | Status::AtHospital
        )
    }

    /// Whether the vehicle is off duty.
    pub fn is_off(self) -> bool
        ensures { result ≡ is_off self }
    {
        matches!(self, Status::OffDuty)
    }

    /// Whether the vehicle is on its way to the scene.
    pub fn is_mobilised(self) -> bool
        ensures { result ≡ is_mobilised self }
    {
        matches!(self, Status::Mobilised)
    }
}

/// The buttons of a crew's terminal.
#[derive(Clone, Copy, PartialEq, Eq)]
pub enum Button {
    /// Here we are; nothing else changes.
    Position,
    /// The order is read, and we drive.
    Mobile,
    /// At the scene.
    Scene,
    /// Leaving the scene.
    Leave,
    /// At the hospital.
    Hospital,
    /// Done, and returning.
    Return,
    /// Home, and available.
    Home,
}

impl Button {
    /// The number of the button: 0 to 6.
    pub fn number(self) -> u8
        ensures { result ≡ button_number self }
    {
        match self {
            Button::Position => 0,
            Button::Mobile => 1,
            Button::Scene => 2,
            Button::Leave => 3,
            Button::Hospital => 4,
            Button::Return => 5,
            Button::Home => 6,
        }
    }

    /// The button of this number; none where it is above 6.
    pub fn from_number(number: u8) -> Option<Button>
        ensures { Decodes button_number number result }
    {
        match number {
            0 => Some(Button::Position),
            1 => Some(Button::Mobile),
            2 => Some(Button::Scene),
            3 => Some(Button::Leave),
            4 => Some(Button::Hospital),
            5 => Some(Button::Return),
            6 => Some(Button::Home),
            _ => None,
        }
    }

    /// The name of the button, in small letters.
    pub fn name(self) -> &'static str
        ensures { result.now ≡ button_name self }
    {
        match self {
            Button::Position => "position",
            Button::Mobile => "mobile",
            Button::Scene => "scene",
            Button::Leave => "leave",
            Button::Hospital => "hospital",
            Button::Return => "return",
            Button::Home => "home",
        }
    }

    /// The button of this name; none where no button has it.
    pub fn parse(name: &str) -> Option<Button>
        ensures { Decodes button_name name.now result }
    {
        match name {
            "position" => Some(Button::Position),
            "mobile" => Some(Button::Mobile),
            "scene" => Some(Button::Scene),
            "leave" => Some(Button::Leave),
            "hospital" => Some(Button::Hospital),
            "return" => Some(Button::Return),
            "home" => Some(Button::Home),
            _ => None,
        }
    }
}

/// What became of a report.
#[derive(Clone, Copy, PartialEq, Eq)]
pub enum Outcome {
    Normal,
    /// It acted, though a button before it was left out.
    Skipped,
    /// It doesn't fit the vehicle's status.
    Wrong,
    /// A report with a greater number came before it.
    Late,
    /// It speaks of another order than the vehicle's last.
    Stale,
}

impl Outcome {
    /// The number of the outcome: 0 to 4.
    pub fn number(self) -> u8
        ensures { result ≡ outcome_number self }
    {
        match self {
            Outcome::Normal => 0,
            Outcome::Skipped => 1,
            Outcome::Wrong => 2,
            Outcome::Late => 3,
            Outcome::Stale => 4,
        }
    }

    /// The outcome of this number; none where it is above 4.
    pub fn from_number(number: u8) -> Option<Outcome>
        ensures { Decodes outcome_number number result }
    {
        match number {
            0 => Some(Outcome::Normal),
            1 => Some(Outcome::Skipped),
            2 => Some(Outcome::Wrong),
            3 => Some(Outcome::Late),
            4 => Some(Outcome::Stale),
            _ => None,
        }
    }

    /// The name of the outcome, in small letters.
    pub fn name(self) -> &'static str
        ensures { result.now ≡ outcome_name self }
    {
        match self {
            Outcome::Normal => "normal",
            Outcome::Skipped => "skipped",
            Outcome::Wrong => "wrong",
            Outcome::Late => "late",
            Outcome::Stale => "stale",
        }
    }
}

/// What became of an incident; a merged one names the incident that it went into.
#[derive(Clone, Copy, PartialEq, Eq)]
pub enum State {
    Active,
    Closed,
    Merged(Number),
}

impl State {
    /// The number of the state: 0 active, 1 closed, 2 merged.
    pub fn number(self) -> u8
        ensures { result ≡ state_number self }
    {
        match self {
            State::Active => 0,
            State::Closed => 1,
            State::Merged(_) => 2,
        }
    }

    /// The incident that this one was merged into; none unless it was.
    pub fn merged_into(self) -> Option<Number>
        ensures { result ≡ merged_into self }
    {
        match self {
            State::Merged(into) => Some(into),
            State::Active | State::Closed => None,
        }
    }

    /// The state of this number that was merged into this incident; none where no state is so.
    pub fn from_columns(number: u8, into: Option<Number>) -> Option<State>
        ensures { Decodes state_columns (number, into) result }
    {
        match (number, into) {
            (0, None) => Some(State::Active),
            (1, None) => Some(State::Closed),
            (2, Some(into)) => Some(State::Merged(into)),
            _ => None,
        }
    }

    /// Whether the incident is neither closed nor merged.
    pub fn is_active(self) -> bool
        ensures { result ≡ is_active self }
    {
        matches!(self, State::Active)
    }
}
