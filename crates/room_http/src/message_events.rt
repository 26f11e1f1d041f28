//! The event that a message asks for, or the first refusal on the way to it.
ghost use Rattle.std.specs.Prelude.{◌≡◌};
ghost use Rattle.std.specs.Option.{option_map};
ghost use Rattle.room_http_messages.specs.Layouts.{Shows};
ghost use Rattle.room_http_messages.specs.Messages.{WholeMessage, terminal_of};
ghost use Rattle.room_http_requests.specs.declared.request_table.Request.TheVariants as request;
ghost use Rattle.room_http.specs.MessageEvents.{IsAskFor, token_of};
ghost use Rattle.room_http.specs.Findings.{FindsMessage, FindsTerminal, LooksOnly};

use crate::handlers::Handler;
use crate::settings::HttpSettings;
use room_http_messages::messages::Message;
use room_http_requests::request_table::{DayAsk, Request, Role, ask_of};
use room_http_time::days::Day;
use room_model::rooms::Room;
use room_types::asks::{Ask, Event, Who};
use room_types::numbers::Moment;
use room_types::refusal_statuses::Refusal;
use room_types::token::Token;
use std::alloc::Global;

/// The token that a message shows, in the value of its only X-Terminal field. It shows none where
/// that value is no token, and where it has no such field or more than one.
pub fn token(message: &Message) -> Option<Token>
    ensures field { result ≡ token_of (option_map (λ text. text.now) message.now.terminal) }
    ensures sent { (m : WholeMessage) → Shows message.now m
        → result ≡ token_of (terminal_of m.head) }
{
    let Some(field) = message.terminal else {
        return None;
    };
    let Ok(text) = str::from_utf8(field) else {
        return None;
    };
    Token::parse(text)
}

/// The terminal that a message names. It names none where it shows no token, or one that the room
/// doesn't know.
fn terminal<M: Room>(alloc: Global, room: &mut M, message: &Message) -> Result<Who, Refusal>
    requires { M.is_ready room.old }
    ensures ready { M.is_ready room.new }
    ensures zone { M.zone room.new ≡ M.zone room.old }
    ensures terminal { FindsTerminal M.is_trusted M.has_failed M.stands room.old room.new
        (option_map (λ text. text.now) message.now.terminal) result }
    ensures looks { LooksOnly M.is_trusted M.is_kept M.stands M.leaves_one_of room.old room.new
        result }
{
    let Some(token) = token(message) else {
        return Err(Refusal::NoTerminal);
    };
    match room.who(alloc, &token) {
        Ok(Some(who)) => Ok(who),
        Ok(None) => Err(Refusal::NoTerminal),
        Err(refusal) => Err(refusal),
    }
}

/// What is asked of a day, which begins and ends in its zone.
fn of_day(setting: &HttpSettings, day: Day, asked: DayAsk) -> Ask
    ensures { IsAskFor setting.now (request.OfDay day asked) result }
{
    let (from, to) = setting
        .zone
        .day(day.year(), day.month(), day.day())
        .unwrap();
    asked.between(from, to)
}

/// A request, as the room is asked.
fn ask_for(setting: &HttpSettings, request: &Request) -> Ask
    ensures { IsAskFor setting.now request.now result }
{
    match request {
        Request::Ask(ask) => *ask,
        Request::OfDay(day, asked) => of_day(setting, *day, *asked),
    }
}

/// The event that a message asks for. The path is looked at first, then the method, the terminal,
/// its role and the body. Whose terminal it is, is noted once it is known.
pub fn event_of<M: Room>(
    handler: &Handler,
    room: &mut M,
    message: &Message,
    at: Moment,
    asker: &mut Option<Who>,
) -> Result<Event, Refusal>
    requires { M.is_ready room.old }
    ensures ready { M.is_ready room.new }
    ensures zone { M.zone room.new ≡ M.zone room.old }
    ensures event { FindsMessage M.is_trusted M.has_failed M.stands room.old room.new
        handler.now.setting message.now at result }
    ensures looks { LooksOnly M.is_trusted M.is_kept M.stands M.leaves_one_of room.old room.new
        result }
{
    let target = match handler
        .routes
        .route(handler.setting.history, message.method, message.target)
    {
        Ok(target) => target,
        Err(refusal) => return Err(refusal),
    };
    let who = match terminal(handler.alloc, room, message) {
        Ok(who) => who,
        Err(refusal) => return Err(refusal),
    };
    *asker = Some(who);
    if !Role::of(&target).is_of(&who) {
        return Err(Refusal::WrongRole);
    }
    match ask_of(handler.alloc, &target, message.body) {
        Ok(request) => Ok(Event {
            who,
            ask: ask_for(&handler.setting, &request),
            at,
        }),
        Err(refusal) => Err(refusal),
    }
}
