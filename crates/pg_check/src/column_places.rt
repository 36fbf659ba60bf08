//! The places of the columns of properties, each property looked up once.
ghost use Rattle.std.specs.Prelude.{◌≡◌, ◌++◌, ◌∷◌, [], false, is_some, IfOk, OnOk, map};
ghost use Rattle.std.specs.Map.{lookup};
ghost use Rattle.std.specs.Option.{option_copied};
ghost use Rattle.std.specs.Str.{bytes_eq};
ghost use Rattle.pg_rules.specs.Queries.CheckedQueries as spec;
ghost use Rattle.pg_check.specs.ColumnPlaces.{AreColumns, places_entry};

use crate::columns::columns_of;
use crate::uses::{UseOf, uses};
use indexmap::IndexMap;
use pg_ast::{Expr, Name};
use pg_catalog::Catalog;
use pg_value::{GraphNo, List};
use std::alloc::{AllocError, Global};
use std::marker::Model;

/// For some properties, for each table of the catalog the place of its column for the property.
#[derive(Drop)]
pub struct ColumnPlaces<'a> {
    places: IndexMap<&'a str, List<Option<u32>>>,
}

impl<'a> Model for ColumnPlaces<'a> {
    ghost use Rattle.std.specs.Prelude.{map};
    ghost use Rattle.pg_check.specs.ColumnPlaces.{Places, places_entry};

    ghost Value = { Places };

    ghost view = { λ p. map places_entry p.places.entries };
}

impl<'a> ColumnPlaces<'a> {
    /// None. It takes no memory.
    fn new(alloc: Global) -> ColumnPlaces<'a>
        ensures { result ≡ [] }
    {
        ColumnPlaces {
            places: IndexMap::new(alloc),
        }
    }

    /// The places of a property; None exactly where it was not looked up.
    fn get(&self, name: &Name) -> Option<&List<Option<u32>>>
        ensures { option_copied result ≡ lookup (bytes_eq name.now.text) self.now }
    {
        self.places.get(name.text.as_str())
    }

    /// Adds the places of a property that was not looked up.
    fn insert(&mut self, name: &'a Name, places: List<Option<u32>>) -> Result<(), AllocError>
        requires { is_some (lookup (bytes_eq name.now.text) self.old) ≡ false }
        ensures { OnOk result (self.new ≡ self.old ++ (name.now.text, places) ∷ []) }
    {
        insert_places(&mut self.places, name.text.as_str(), places)
    }

    /// Looks a property up, where that was not done.
    fn add(
        &mut self,
        alloc: Global,
        catalog: &Catalog,
        graph: GraphNo,
        name: &'a Name,
    ) -> Result<(), AllocError>
        requires { AreColumns catalog.now graph self.old }
        ensures { OnOk result (AreColumns catalog.now graph self.new) }
    {
        if self.get(name).is_some() {
            return Ok(());
        }
        let places = columns_of(alloc, catalog, graph, &name.text)?;
        match self.insert(name, places) {
            Ok(()) => Ok(()),
            Err(fault) => Err(fault),
        }
    }

    /// Looks the property of a use up, where it has one.
    fn add_use(
        &mut self,
        alloc: Global,
        catalog: &Catalog,
        graph: GraphNo,
        used: UseOf<'a>,
    ) -> Result<(), AllocError>
        requires { AreColumns catalog.now graph self.old }
        ensures { OnOk result (AreColumns catalog.now graph self.new) }
    {
        match used.property {
            Some(name) => self.add(alloc, catalog, graph, name),
            None => Ok(()),
        }
    }

    /// Looks the properties of some uses up.
    fn add_uses(
        &mut self,
        alloc: Global,
        catalog: &Catalog,
        graph: GraphNo,
        used: &[UseOf<'a>],
    ) -> Result<(), AllocError>
        requires { AreColumns catalog.now graph self.old }
        ensures { OnOk result (AreColumns catalog.now graph self.new) }
    {
        for one in used {
            self.add_use(alloc, catalog, graph, *one)?;
        }
        Ok(())
    }

    /// Looks the properties of an expression up.
    fn add_expression(
        &mut self,
        alloc: Global,
        catalog: &Catalog,
        graph: GraphNo,
        expr: &'a Expr,
    ) -> Result<(), AllocError>
        requires { AreColumns catalog.now graph self.old }
        ensures { OnOk result (AreColumns catalog.now graph self.new) }
    {
        let used = uses(alloc, false, expr)?;
        self.add_uses(alloc, catalog, graph, &used)
    }

    /// Looks the properties of some expressions up.
    pub fn of(
        alloc: Global,
        catalog: &Catalog,
        graph: GraphNo,
        exprs: &[&'a Expr],
    ) -> Result<ColumnPlaces<'a>, AllocError>
        ensures { IfOk result (AreColumns catalog.now graph) }
    {
        let mut places = ColumnPlaces::new(alloc);
        for expr in exprs {
            places.add_expression(alloc, catalog, graph, expr)?;
        }
        Ok(places)
    }

    /// The places of a property, as they were looked up, or else looked up now.
    pub fn places_of(
        &self,
        alloc: Global,
        catalog: &Catalog,
        graph: GraphNo,
        name: &Name,
    ) -> Result<List<Option<u32>>, AllocError>
        requires { AreColumns catalog.now graph self.now }
        ensures { IfOk result (λ r. r ≡ spec.columns_of catalog.now graph name.now.text) }
    {
        match self.get(name) {
            Some(places) => copy_places(alloc, places.as_slice()),
            None => columns_of(alloc, catalog, graph, &name.text),
        }
    }
}

/// A copy of some places.
fn copy_places(alloc: Global, places: &[Option<u32>]) -> Result<List<Option<u32>>, AllocError>
    ensures { IfOk result (λ copy. copy ≡ places.now) }
{
    let mut out = List::new(alloc);
    for place in places {
        out.push(*place)?;
    }
    Ok(out)
}

/// Puts the places of a property that is not there behind the others.
fn insert_places<'a>(
    places: &mut IndexMap<&'a str, List<Option<u32>>>,
    name: &'a str,
    one: List<Option<u32>>,
) -> Result<(), AllocError>
    requires { is_some (lookup (bytes_eq name.now) (map places_entry places.old.entries)) ≡ false }
    ensures { OnOk result (map places_entry places.new.entries ≡ map places_entry places.old.entries ++ (name.now, one) ∷ []) }
{
    match places.insert(name, one) {
        Ok(_) => Ok(()),
        Err(_) => Err(AllocError),
    }
}
