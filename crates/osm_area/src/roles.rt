//! The roles of a relation's ways.

ghost use Rattle.std.specs.Prelude.{◌≡◌};
ghost use Rattle.std.specs.List.{list_any};
ghost use Rattle.osm_elements.specs.Seen.{member_seen};
ghost use Rattle.osm_area.specs.RoleKinds.{role_named, names_a_ring};

use osm_elements::{MemberRef, Members};

/// What a role says about the rings that a way lies in.
#[derive(Clone, Copy)]
pub enum Role {
    Inner,
    Outer,
    Other,
}

/// The role with this name.
#[tactic(auto, unfolding(crate::specs::RoleKinds::role_named))]
pub fn role_named(role: &str) -> Role
    ensures { result ≡ role_named role.now }
{
    if role == "inner" {
        Role::Inner
    } else if role == "outer" {
        Role::Outer
    } else {
        Role::Other
    }
}

/// Whether a member has the role `inner` or `outer`.
fn names_a_ring(member: &MemberRef<'_>) -> bool
    ensures { result ≡ names_a_ring (member_seen member.now) }
{
    member.role == "inner" || member.role == "outer"
}

/// Whether some member has the role `inner` or `outer`.
pub fn any_names_a_ring(members: &Members) -> bool
    ensures { result ≡ list_any names_a_ring members.now }
{
    let mut rest = members.iter();
    while let Some(member) = rest.next() {
        if names_a_ring(&member) {
            return true;
        }
    }
    false
}
