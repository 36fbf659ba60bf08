//! Copies of elements.
ghost use Rattle.std.specs.Prelude.{◌≡◌, IfOk};

use pg_value::{ElemId, List, copy_key};
use std::alloc::{AllocError, Global};

/// An equal element. Only want of memory refuses it.
pub fn copy_element(alloc: Global, element: &ElemId) -> Result<ElemId, AllocError>
    ensures { IfOk result (λ copy. copy ≡ element.now) }
{
    Ok(ElemId {
        table: element.table,
        key: copy_key(alloc, &element.key)?,
    })
}

/// Equal elements. Only want of memory refuses it.
pub fn copy_elements(alloc: Global, elements: &[ElemId]) -> Result<List<ElemId>, AllocError>
    ensures { IfOk result (λ copies. copies ≡ elements.now) }
{
    let mut copies = List::with_room(alloc, elements.len())?;
    for element in elements {
        copies.push(copy_element(alloc, element)?)?;
    }
    Ok(copies)
}
