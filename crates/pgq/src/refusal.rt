//! How statements that are refused before they read the tables are answered.
ghost use Rattle.std.specs.Prelude.{◌≡◌, None, IfOk, OnErr};
ghost use Rattle.pg_language.specs.Language.{define_refusal, resolve_refusal, query_refusal};
ghost use Rattle.pgq.specs.Refusals.{IsTold};

use pg_rules::{DefineFault, QueryFault, ResolveFault};
use pg_script::{FaultKind, Outcome};
use std::alloc::AllocError;

/// The answer of a statement with a fault of this kind at this place, and an error exactly where there is none, which is want
/// of memory.
pub fn told(refusal: Option<(FaultKind, u32)>) -> Result<Outcome, AllocError>
    ensures told { IfOk result (IsTold refusal) }
    ensures memory { OnErr result (refusal ≡ None) }
{
    match refusal {
        Some((kind, byte)) => Ok(Outcome::AtByte { kind, byte }),
        None => Err(AllocError),
    }
}

/// The kind and the place of a definition's fault; want of memory has none.
pub fn define_refusal(fault: DefineFault) -> Option<(FaultKind, u32)>
    ensures { result ≡ define_refusal fault }
{
    match fault {
        DefineFault::NameTaken { at } => Some((FaultKind::NameTaken, at)),
        DefineFault::NoTable { at } => Some((FaultKind::NoTable, at)),
        DefineFault::NoColumn { at } => Some((FaultKind::NoColumn, at)),
        DefineFault::KeyMismatch { at } => Some((FaultKind::KeyMismatch, at)),
        DefineFault::LabelMismatch { at } => Some((FaultKind::LabelMismatch, at)),
        DefineFault::TypeMismatch { at } => Some((FaultKind::TypeMismatch, at)),
        DefineFault::Limit { at } => Some((FaultKind::Limit, at)),
        DefineFault::Memory => None,
    }
}

/// The kind and the place of a change's fault; want of memory has none.
pub fn resolve_refusal(fault: ResolveFault) -> Option<(FaultKind, u32)>
    ensures { result ≡ resolve_refusal fault }
{
    match fault {
        ResolveFault::NoTable { at } => Some((FaultKind::NoTable, at)),
        ResolveFault::NoColumn { at } => Some((FaultKind::NoColumn, at)),
        ResolveFault::ColumnTwice { at } => Some((FaultKind::ColumnTwice, at)),
        ResolveFault::Count { at } => Some((FaultKind::Count, at)),
        ResolveFault::KeyUpdate { at } => Some((FaultKind::KeyUpdate, at)),
        ResolveFault::Types { at } => Some((FaultKind::Types, at)),
        ResolveFault::Wide { at } => Some((FaultKind::Wide, at)),
        ResolveFault::Memory => None,
    }
}

/// The kind and the place of a query's fault; want of memory has none.
pub fn query_refusal(fault: QueryFault) -> Option<(FaultKind, u32)>
    ensures { result ≡ query_refusal fault }
{
    match fault {
        QueryFault::NoGraph { at } => Some((FaultKind::NoGraph, at)),
        QueryFault::NoLabel { at } => Some((FaultKind::NoLabel, at)),
        QueryFault::NoProperty { at } => Some((FaultKind::NoProperty, at)),
        QueryFault::Unbounded { at } => Some((FaultKind::Unbounded, at)),
        QueryFault::Bounds { at } => Some((FaultKind::Bounds, at)),
        QueryFault::BadVariable { at } => Some((FaultKind::BadVariable, at)),
        QueryFault::GroupUse { at } => Some((FaultKind::GroupUse, at)),
        QueryFault::Types { at } => Some((FaultKind::Types, at)),
        QueryFault::Wide { at } => Some((FaultKind::Wide, at)),
        QueryFault::Limit { at } => Some((FaultKind::Limit, at)),
        QueryFault::Memory => None,
    }
}

/// The answer of a statement that is not run yet, and begins at a place.
pub fn not_yet(at: u32) -> Outcome
    ensures { result ≡ Outcome.AtByte FaultKind.NotYet at }
{
    Outcome::AtByte {
        kind: FaultKind::NotYet,
        byte: at,
    }
}
