// Constants that are declared twice.
ghost use Rattle.std.specs.Prelude.{◌≡◌, IfOk};
ghost use Rattle.small_front.specs.Later.{second_const};

use crate::names::Names;
use crate::place::Place;
use ap_syntax::Statement;
use std::alloc::{AllocError, Global};

/// The first `#const` of a name that has one before it.
pub fn second_const(alloc: Global, statements: &[Statement]) -> Result<Option<Place>, AllocError>
    ensures { IfOk result (λ found. found ≡ second_const statements.now) }
{
    let mut declared = Names::new(alloc);
    for statement in statements {
        if let Statement::Const { file, at, name, .. } = statement {
            if declared.contains(name) {
                return Ok(Some(Place {
                    file: *file,
                    at: *at,
                }));
            }
            declared.insert(alloc, name)?;
        }
    }
    Ok(None)
}
