//! A vertex with the edges that have it at one end.
ghost use Rattle.std.specs.Prelude.{◌≡◌, IfOk};
ghost use Rattle.pg_value.specs.Order.{key_cmp};
ghost use Rattle.pg_value.specs.Orders.{keys};
ghost use Rattle.pg_snap.specs.Sides.{vertex_key, with_edges, with_edges_fits};

use pg_chunks::{Keyed, Probe};
use pg_shared::{Change, Copied};
use pg_value::{Key, List, Shared, Value, copy_key, order_keys};
use std::alloc::{AllocError, Global};
use std::cmp::Ordering;

/// An edge, as it is seen from one of its ends: its key, and that of the vertex at its other end.
#[derive(Drop)]
pub struct Side {
    pub edge: Key,
    pub other: Key,
}

/// A vertex, and the edges that have it at one end, in order of their keys. Its copies share the edges.
#[derive(Drop)]
pub struct Vertex {
    pub key: Key,
    pub sides: Shared<List<Side>>,
}

/// Vertices are kept in order of their keys.
impl Keyed for Vertex {
    type Key = List<Value>;

    ghost key_of = { vertex_key };

    ghost key_cmp = { key_cmp };

    fn order_item(&self, other: &Vertex) -> Ordering {
        order_keys(&self.key, &other.key)
    }

    ghost exact = { keys };
}

/// A vertex is sought by its key.
impl Probe<Vertex> for Key {
    ghost sought = { λ k. k.values };

    fn order(&self, vertex: &Vertex) -> Ordering {
        order_keys(&vertex.key, self)
    }
}

impl Copied for Vertex {
    fn copied(&self, alloc: Global) -> Result<Vertex, AllocError> {
        Ok(Vertex {
            key: copy_key(alloc, &self.key)?,
            sides: self.sides.share()?,
        })
    }
}

/// A vertex takes the place of the one that has its key; where it has no edges, that one goes.
impl Change<Vertex> for Vertex {
    ghost named = { vertex_key };

    ghost given = { with_edges };

    fn order(&self, vertex: &Vertex) -> Ordering {
        order_keys(&vertex.key, &self.key)
    }

    fn item(&self, alloc: Global) -> Result<Option<Vertex>, AllocError> {
        match self.sides.as_slice() {
            [] => Ok(None),
            [_, ..] => Ok(Some(self.copied(alloc)?)),
        }
    }

    ghost fits = { with_edges_fits };
}
