//! Offers of vehicles to other divisions, and the loans that come of them.
ghost use Rattle.std.specs.Prelude.{◌≡◌, List, IfErr, MatchResult, None, Some};
ghost use Rattle.room_place.specs.declared.plans.Area.{Area};
ghost use Rattle.room_types.specs.declared.refusal_statuses.Refusal.TheVariants.{NoSuchOffer};
ghost use Rattle.room_model.specs.Loans.{accept, decline, give_back, lend, recall, withdraw};
ghost use Rattle.room_model.specs.Queries.{offered_to};
ghost use Rattle.room_model.specs.RoomSlices.{room_of};

use crate::held_vehicles::{find, find_lent, held};
use room_place::plans::{DivisionNumber, Plan};
use room_types::callsign::Callsign;
use room_types::changes::Change;
use room_types::codes::Status;
use room_types::decisions::Decision;
use room_types::numbers::Moment;
use room_types::refusal_statuses::Refusal;
use room_types::slices::Slice;
use room_types::tables::{Loan, Offer, Vehicle};

/// What a vehicle is offered on: to which division, and until when.
#[derive(Clone, Copy)]
pub struct LoanTerms {
    pub borrower: DivisionNumber,
    pub until: Moment,
}

/// Offers a vehicle to another division of the plan: it is reserved and without its post.
///
/// Refused as `held` refuses, then as `NoSuchDivision` where the borrower is the desk's own or not
/// in the plan, `NotHome` where the vehicle is borrowed, `StillAssigned` where it has an order,
/// `WrongStatus` where it is off duty or offered, `ShiftOver` where its shift is over.
#[tactic(auto, unfolding(room_model::specs::Loans::lend, room_model::specs::Decisions::refuse_if))]
pub fn lend(
    plan: &Plan,
    slice: &Slice,
    callsign: &Callsign,
    terms: LoanTerms,
    at: Moment,
) -> Result<Decision, Refusal>
    ensures { result ≡ lend slice.now.division callsign.now terms.borrower terms.until at
        (room_of plan.now.areas slice.now.rows) }
{
    let vehicle = held(slice, callsign)?;
    if terms.borrower == slice.division || !plan.has(terms.borrower) {
        return Err(Refusal::NoSuchDivision);
    }
    if vehicle.home != slice.division {
        return Err(Refusal::NotHome);
    }
    if vehicle.status.is_busy() {
        return Err(Refusal::StillAssigned);
    }
    if !vehicle.status.is_free() {
        return Err(Refusal::WrongStatus);
    }
    if vehicle.shift_end <= at {
        return Err(Refusal::ShiftOver);
    }
    let reserved = Vehicle {
        status: Status::Offered,
        post: None,
        ..*vehicle
    };
    let offer = Offer {
        callsign: vehicle.callsign,
        lender: slice.division,
        borrower: terms.borrower,
        since: at,
        until: terms.until,
    };
    let changes = [Change::PutVehicle(reserved), Change::PutOffer(offer)];
    Ok(Decision::done(changes))
}

/// Takes back an offer: its vehicle is available.
///
/// Refused as `held` refuses, then as `NoSuchOffer` where the division offers no such vehicle.
#[tactic(auto, unfolding(room_model::specs::Loans::withdraw, room_model::specs::Queries::offered_by))]
pub fn withdraw(slice: &Slice, callsign: &Callsign) -> Result<Decision, Refusal>
    ensures { (plan : List Area)
        → result ≡ withdraw slice.now.division callsign.now (room_of plan slice.now.rows) }
{
    let vehicle = held(slice, callsign)?;
    match slice.rows.offers.get(callsign) {
        Some(offer) if offer.lender == slice.division => {}
        _ => return Err(Refusal::NoSuchOffer),
    }
    let available = Vehicle {
        status: Status::Available,
        ..*vehicle
    };
    let dropped = Change::DropOffer(vehicle.callsign);
    Ok(Decision::done([Change::PutVehicle(available), dropped]))
}

/// Declines an offer: its vehicle is the lender's, and available.
///
/// Refused as `NoSuchOffer` where no such vehicle is offered to the division.
#[tactic(auto, unfolding(room_model::specs::Loans::decline))]
pub fn decline(slice: &Slice, callsign: &Callsign) -> Result<Decision, Refusal>
    ensures { (plan : List Area)
        → result ≡ decline slice.now.division callsign.now (room_of plan slice.now.rows) }
{
    let offer = offered_to(slice, callsign)?;
    let settled = Change::Settle(offer.callsign, offer.lender);
    Ok(Decision::done([settled, Change::DropOffer(offer.callsign)]))
}

/// Accepts an offer, which becomes a loan: its vehicle is the borrower's, and available.
///
/// Refused as `NoSuchOffer` where no such vehicle is offered to the division. Nothing else of the
/// lender's is looked at: the vehicle's shift may be over.
#[tactic(auto, unfolding(room_model::specs::Loans::accept))]
pub fn accept(slice: &Slice, callsign: &Callsign, at: Moment) -> Result<Decision, Refusal>
    ensures { (plan : List Area)
        → result ≡ accept slice.now.division callsign.now at (room_of plan slice.now.rows) }
{
    let offer = offered_to(slice, callsign)?;
    let loan = Loan {
        callsign: offer.callsign,
        lender: offer.lender,
        borrower: offer.borrower,
        since: at,
        until: offer.until,
        recalled: false,
    };
    let settled = Change::Settle(offer.callsign, offer.borrower);
    let dropped = Change::DropOffer(offer.callsign);
    Ok(Decision::done([settled, dropped, Change::PutLoan(loan)]))
}

/// Marks a loan as recalled, which does nothing else; a marked one stays as it is.
///
/// Where the division has lent no such vehicle: refused as `NoSuchLoan` where it holds it, and
/// else as `NoSuchVehicle`.
#[tactic(auto, unfolding(room_model::specs::Loans::recall))]
pub fn recall(slice: &Slice, callsign: &Callsign) -> Result<Decision, Refusal>
    ensures { (plan : List Area)
        → result ≡ recall slice.now.division callsign.now (room_of plan slice.now.rows) }
{
    if let Some(loan) = find_lent(slice, callsign) {
        let recalled = Loan {
            recalled: true,
            ..*loan
        };
        return Ok(Decision::done([Change::PutLoan(recalled)]));
    }
    match find(slice, callsign) {
        Some(_) => Err(Refusal::NoSuchLoan),
        None => Err(Refusal::NoSuchVehicle),
    }
}

/// Gives a borrowed vehicle back, without a post: its lender has it again, and the loan is over.
///
/// Refused as `held` refuses, then as `NoSuchLoan` where the vehicle is at home, `StillAssigned`
/// where it has an order.
#[tactic(auto, unfolding(room_model::specs::Loans::give_back, room_model::specs::Decisions::refuse_if, room_model::specs::Queries::borrowed))]
pub fn give_back(slice: &Slice, callsign: &Callsign) -> Result<Decision, Refusal>
    ensures { (plan : List Area)
        → result ≡ give_back slice.now.division callsign.now (room_of plan slice.now.rows) }
{
    let vehicle = held(slice, callsign)?;
    if vehicle.home == slice.division {
        return Err(Refusal::NoSuchLoan);
    }
    if vehicle.status.is_busy() {
        return Err(Refusal::StillAssigned);
    }
    let lender = match slice.rows.loans.get(callsign) {
        Some(loan) if loan.borrower == slice.division => loan.lender,
        _ => vehicle.home,
    };
    let returned = Vehicle {
        holder: lender,
        post: None,
        ..*vehicle
    };
    let dropped = Change::DropLoan(vehicle.callsign);
    Ok(Decision::done([Change::PutVehicle(returned), dropped]))
}

// The offer of this vehicle to the division.
#[tactic(auto, unfolding(room_model::specs::Queries::offered_to))]
fn offered_to<'a>(slice: &'a Slice, callsign: &Callsign) -> Result<&'a Offer, Refusal>
    ensures there { (plan : List Area) → MatchResult result (λ offer.
        offered_to slice.now.division callsign.now (room_of plan slice.now.rows) ≡ Some
        offer.now) (λ refusal.
        offered_to slice.now.division callsign.now (room_of plan slice.now.rows) ≡ None) }
    ensures refused { IfErr result (λ e. e ≡ NoSuchOffer) }
{
    match slice.rows.offers.get(callsign) {
        Some(offer) if offer.borrower == slice.division => Ok(offer),
        _ => Err(Refusal::NoSuchOffer),
    }
}
