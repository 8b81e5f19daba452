//! Why an object isn't added.

ghost use Rattle.std.specs.Prelude.{◌≡◌};
ghost use Rattle.osm_objects.specs.declared.error.AddError.TheVariants.{OutOfMemory};

use osm_elements::ObjectKind;
use std::alloc::{AllocError as OutOfMemory, AllocFailed};

/// Why `Store::add` refuses an object.
#[derive(Debug, Drop)]
pub enum AddError {
    /// A live object of this kind and id is held.
    Duplicate { kind: ObjectKind, id: i64 },
    /// Memory ran out.
    OutOfMemory,
}

impl From<OutOfMemory> for AddError {
    ghost from_gives = { λ _ e. e ≡ OutOfMemory };

    fn from(_e: OutOfMemory) -> AddError {
        AddError::OutOfMemory
    }
}

impl<T: Drop> From<AllocFailed<T>> for AddError {
    ghost from_gives = { λ _ e. e ≡ OutOfMemory };

    fn from(_e: AllocFailed<T>) -> AddError {
        AddError::OutOfMemory
    }
}
