//! JSON objects, sent member by member.
#![tactic(auto, unfolding(crate::specs::Objects::Sends, crate::specs::Objects::SendsRest))]

ghost use Rattle.std.specs.Prelude.{◌≡◌, OnOk};
ghost use Rattle.serde_json.specs.Data.{Members, no_members, member, object};
ghost use Rattle.serde_json.specs.Events.{members_len};
ghost use Rattle.room_http.specs.Objects.{AreCountable, Sends, SendsRest};

use crate::json_values::ToJson;
use serde::Serializer;

/// Members of an object, in their order.
pub trait ToMembers {
    // The names and values.
    ghost members: { Self → Members };

    /// How many members there are.
    fn count(&self) -> usize
        requires { AreCountable (members self.now) }
        ensures { result ≡ members_len (members self.now) };

    /// Sends the members and the end of the object.
    fn write_members<S: Serializer>(&self, out: &mut S) -> Result<(), S::Error>
        ensures { OnOk result
            (SendsRest (members self.now) (S.written out.old) (S.written out.new)) };
}

/// No more members.
#[derive(Clone, Copy)]
pub struct End;

impl ToMembers for End {
    ghost members = { λ _. no_members };

    fn count(&self) -> usize {
        0
    }

    fn write_members<S: Serializer>(&self, out: &mut S) -> Result<(), S::Error> {
        out.end_map()
    }
}

/// A member, by its name and its value, and those after it.
#[derive(Drop)]
pub struct Member<'a, T, M>(pub &'a str, pub &'a T, pub M);

impl<T: ToJson, M: ToMembers> ToMembers for Member<'_, T, M> {
    ghost members = { λ it. member it.0.now (T.json it.1.now) (M.members it.2) };

    fn count(&self) -> usize {
        1 + self.2.count()
    }

    fn write_members<S: Serializer>(&self, out: &mut S) -> Result<(), S::Error> {
        let Member(name, value, more) = self;
        out.key(name)?;
        value.write_json(out)?;
        more.write_members(out)
    }
}

/// Sends an object with these members.
pub fn write_object<S: Serializer, M: ToMembers>(out: &mut S, members: &M) -> Result<(), S::Error>
    requires { AreCountable (M.members members.now) }
    ensures { OnOk result
        (Sends (object (M.members members.now)) (S.written out.old) (S.written out.new)) }
{
    out.begin_map(Some(members.count()))?;
    members.write_members(out)
}
