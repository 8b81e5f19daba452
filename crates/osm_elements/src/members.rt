//! The members of a relation: a list of their kinds and ids, and one block with their roles, packed as tags are.

ghost use Rattle.std.specs.Prelude.{◌≡◌, ◌++◌, ◌∷◌, ◌==◌, [], length, IfOk, OnOk, OnErr, MatchOption, IfNone};
ghost use Rattle.osm_elements.specs.Seen.{member_of, member_seen};

use crate::block::Block;
use crate::object::{ObjectKind, ObjectRef};
use crate::packed::{push_text, split_text};
use std::alloc::{AllocError as OutOfMemory, Global};
use std::marker::Model;

/// A member that is lent.
#[derive(Clone, Copy, Debug)]
pub struct MemberRef<'a> {
    pub kind: ObjectKind,
    pub id: i64,
    pub role: &'a str,
}

/// The members of a relation, in the order of its line.
///
/// They take 16 bytes each, and for the role a byte if it is a usual one, or else its text and a byte or five.
#[derive(Debug, Drop)]
pub struct Members {
    targets: Vec<ObjectRef>,
    roles: Block,
}

impl Model for Members {
    ghost use Rattle.std.specs.Prelude.{List};
    ghost use Rattle.osm_elements.specs.declared.object.Member.{Member};

    ghost Value = { List Member };

    ghost use Rattle.osm_elements.specs.Packed.{members_in, HaveRoles};

    ghost view = { λ m. members_in m.targets.items m.roles };

    ghost invariant = { λ m. HaveRoles m.targets.items m.roles };
}

/// An iterator over members.
#[derive(Drop)]
pub struct MemberIter<'a> {
    targets: &'a [ObjectRef],
    roles: &'a [u8],
}

impl<'a> Model for MemberIter<'a> {
    ghost use Rattle.std.specs.Prelude.{List};
    ghost use Rattle.osm_elements.specs.declared.object.Member.{Member};

    ghost Value = { List Member };

    ghost use Rattle.osm_elements.specs.Packed.{members_in, HaveRoles};

    ghost view = { λ m. members_in m.targets.now m.roles.now };

    ghost invariant = { λ m. HaveRoles m.targets.now m.roles.now };
}

impl Members {
    /// The empty list, which takes no memory.
    pub fn new(alloc: Global) -> Members
        ensures { result ≡ [] }
    {
        Members {
            targets: Vec::new(alloc),
            roles: Block::new(alloc),
        }
    }

    /// The empty list, with room for this many members and this many bytes of roles.
    ///
    /// The bytes suffice if they are those of the roles and one for each role of fewer than 192 bytes.
    pub fn with_capacity(
        alloc: Global,
        members: usize,
        bytes: usize,
    ) -> Result<Members, OutOfMemory>
        ensures { IfOk result (λ members. members ≡ []) }
    {
        Ok(Members {
            targets: Vec::with_capacity(alloc, members)?,
            roles: Block::with_capacity(alloc, bytes)?,
        })
    }

    /// A copy without spare room.
    pub fn copy(&self, alloc: Global) -> Result<Members, OutOfMemory>
        ensures { IfOk result (λ members. members ≡ self.now) }
    {
        Ok(Members {
            targets: Vec::from_slice(alloc, &self.targets)?,
            roles: self.roles.copy(alloc)?,
        })
    }

    /// Adds a member at the end, with a copy of its role. After an `Err` the list is unchanged.
    ///
    /// A role of 2^32 or more bytes is refused as out of memory.
    pub fn push(&mut self, target: ObjectRef, role: &str) -> Result<(), OutOfMemory>
        ensures ok { OnOk result (self.new ≡ self.old ++ member_of target role.now ∷ []) }
        ensures err { OnErr result (self.new ≡ self.old) }
    {
        self.targets.push(target)?;
        if let Err(e) = push_text(&mut self.roles, role) {
            self.targets.pop();
            return Err(e);
        }
        Ok(())
    }

    /// How many members there are.
    pub fn len(&self) -> usize
        ensures { result ≡ length self.now }
    {
        self.targets.len()
    }

    /// Whether there are none.
    pub fn is_empty(&self) -> bool
        ensures { result ≡ (length self.now == 0) }
    {
        self.targets.is_empty()
    }

    /// An iterator over the members. It takes no memory.
    pub fn iter(&self) -> MemberIter<'_>
        ensures { result ≡ self.now }
    {
        MemberIter {
            targets: self.targets.as_slice(),
            roles: self.roles.as_slice(),
        }
    }
}

impl<'a> MemberIter<'a> {
    /// The next member. None exactly if none is left.
    pub fn next(&mut self) -> Option<MemberRef<'a>>
        ensures member { MatchOption result (self.old ≡ [])
            (λ m. self.old ≡ member_seen m ∷ self.new) }
        ensures ended { IfNone result (self.new ≡ []) }
    {
        let (target, targets) = self.targets.split_first()?;
        let (role, roles) = split_text(self.roles);
        self.targets = targets;
        self.roles = roles;
        Some(MemberRef {
            kind: target.kind,
            id: target.id,
            role,
        })
    }
}
