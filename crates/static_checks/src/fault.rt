// Why a program is refused for its static conditions.
use ap_safety::{DomainFault, SafetyFault};
use pref_bind::TypeFault;
use pref_shapes::ShapeFault;
use std::alloc::AllocError;
use std::error::Error;
use thiserror::Error;

/// Why a program is refused for its static conditions. What comes first in this list is told before what comes later. Each of them
/// may be want of memory.
#[derive(Debug, Drop, Error)]
pub enum StaticFault {
    /// A name is not bound, or there is a cycle of naming.
    #[error("{0}")]
    Naming(TypeFault),
    /// All names are bound, and the elements of a statement do not have the shape of its type.
    #[error("{0}")]
    Shape(ShapeFault),
    /// Names are bound and shapes are right, and a variable is not bound, or there is a recursion that its program may not have.
    #[error("{0}")]
    Safety(SafetyFault),
    /// The same without such a fault, and a condition has a predicate that is not definite.
    #[error("{0}")]
    Domain(DomainFault),
    /// There is no memory left.
    #[error("out of memory")]
    Memory,
}

impl From<AllocError> for StaticFault {
    ghost use Rattle.std.specs.Prelude.{◌≡◌};
    ghost use Rattle.static_checks.specs.declared.fault.StaticFault.TheVariants.{Memory};

    ghost from_gives = { λ _ e. e ≡ Memory };

    fn from(_error: AllocError) -> StaticFault {
        StaticFault::Memory
    }
}

impl From<TypeFault> for StaticFault {
    ghost use Rattle.std.specs.Prelude.{◌≡◌};
    ghost use Rattle.static_checks.specs.declared.fault.StaticFault.TheVariants.{Naming};

    ghost from_gives = { λ fault e. e ≡ Naming fault };

    fn from(fault: TypeFault) -> StaticFault {
        StaticFault::Naming(fault)
    }
}

impl From<ShapeFault> for StaticFault {
    ghost use Rattle.std.specs.Prelude.{◌≡◌};
    ghost use Rattle.static_checks.specs.declared.fault.StaticFault.TheVariants.{Shape};

    ghost from_gives = { λ fault e. e ≡ Shape fault };

    fn from(fault: ShapeFault) -> StaticFault {
        StaticFault::Shape(fault)
    }
}

impl From<SafetyFault> for StaticFault {
    ghost use Rattle.std.specs.Prelude.{◌≡◌};
    ghost use Rattle.static_checks.specs.declared.fault.StaticFault.TheVariants.{Safety};

    ghost from_gives = { λ fault e. e ≡ Safety fault };

    fn from(fault: SafetyFault) -> StaticFault {
        StaticFault::Safety(fault)
    }
}

impl From<DomainFault> for StaticFault {
    ghost use Rattle.std.specs.Prelude.{◌≡◌};
    ghost use Rattle.static_checks.specs.declared.fault.StaticFault.TheVariants.{Domain};

    ghost from_gives = { λ fault e. e ≡ Domain fault };

    fn from(fault: DomainFault) -> StaticFault {
        StaticFault::Domain(fault)
    }
}
