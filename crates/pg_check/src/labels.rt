//! Graphs and labels that do not exist.
ghost use Rattle.std.specs.Prelude.{◌≡◌, ◌++◌};
ghost use Rattle.std.specs.List.{flat_map};
ghost use Rattle.pg_ast.specs.Trees.{label_tree};
ghost use Rattle.pg_rules.specs.Places.{least};
ghost use Rattle.pg_rules.specs.Queries as spec;
ghost use Rattle.pg_rules.specs.Queries.Collections as part_of;
ghost use Rattle.pg_check.specs.Passes as pass;

use pg_ast::{Filler, LabelExpr, Name, Part, PathPattern, Query};
use pg_catalog::NameSet;
use pg_rules::{place_if, sooner};

/// The place of a name that is none of some labels.
fn unlabelled(names: &NameSet<'_>, name: &Name) -> Option<u32>
    ensures { result ≡ least (pass.unlabelled names.now name.now) }
{
    place_if(!names.has(&name.text), name.at)
}

/// The first name in a label expression that is none of some labels.
#[tactic(auto, using(pg_ast::specs::Trees::is_not, pg_ast::specs::Trees::is_and, pg_ast::specs::Trees::is_or, crate::proofs::Names::least_of_two))]
fn unlabelled_expr(names: &NameSet<'_>, label: &LabelExpr) -> Option<u32>
    ensures { result ≡ least (flat_map (pass.unlabelled names.now) (spec.names_in (label_tree label.now))) }
{
    match label {
        LabelExpr::All => None,
        LabelExpr::Is(name) => unlabelled(names, name),
        LabelExpr::Not(inner) => unlabelled_expr(names, inner.get()),
        LabelExpr::And(left, right) => {
            let first = unlabelled_expr(names, left.get());
            let second = unlabelled_expr(names, right.get());
            sooner(first, second)
        }
        LabelExpr::Or(left, right) => {
            let first = unlabelled_expr(names, left.get());
            let second = unlabelled_expr(names, right.get());
            sooner(first, second)
        }
    }
}

/// The first name in the labels of a node or an edge that is none of some labels.
fn unlabelled_filler(names: &NameSet<'_>, filler: &Filler) -> Option<u32>
    ensures { result ≡ least (pass.unlabelled_in names.now filler.now) }
{
    match &filler.label {
        Some(label) => unlabelled_expr(names, label),
        None => None,
    }
}

/// The first such name in some nodes or edges.
#[tactic(auto, using(pg_rules::specs::Places::least_found, pg_rules::specs::Places::sooner_none))]
fn unlabelled_fillers(names: &NameSet<'_>, fillers: &[Filler]) -> Option<u32>
    ensures { result ≡ least (flat_map (pass.unlabelled_in names.now) fillers.now) }
{
    let mut found = None;
    for filler in fillers {
        found = sooner(found, unlabelled_filler(names, filler));
    }
    found
}

/// The first such name in a group.
#[tactic(auto, using(crate::proofs::Names::least_of_two))]
fn unlabelled_group(names: &NameSet<'_>, nodes: &[Filler], edges: &[Filler]) -> Option<u32>
    ensures { result ≡ least (flat_map (pass.unlabelled_in names.now) (nodes.now ++ edges.now)) }
{
    let first = unlabelled_fillers(names, nodes);
    let second = unlabelled_fillers(names, edges);
    sooner(first, second)
}

/// The first such name in a part.
fn unlabelled_part(names: &NameSet<'_>, part: &Part) -> Option<u32>
    ensures { result ≡ least (pass.unlabelled_part names.now part.now) }
{
    match part {
        Part::Node(filler) => unlabelled_filler(names, filler),
        Part::Edge { filler, .. } => unlabelled_filler(names, filler),
        Part::Group { nodes, edges, .. } => {
            unlabelled_group(names, nodes.as_slice(), edges.as_slice())
        }
    }
}

/// The first such name in some parts.
#[tactic(auto, using(pg_rules::specs::Places::least_found, pg_rules::specs::Places::sooner_none))]
fn unlabelled_parts(names: &NameSet<'_>, parts: &[Part]) -> Option<u32>
    ensures { result ≡ least (flat_map (pass.unlabelled_part names.now) parts.now) }
{
    let mut found = None;
    for part in parts {
        found = sooner(found, unlabelled_part(names, part));
    }
    found
}

/// The first such name in a path pattern.
fn unlabelled_path(names: &NameSet<'_>, path: &PathPattern) -> Option<u32>
    ensures { result ≡ least (flat_map (pass.unlabelled_part names.now) path.now.parts) }
{
    unlabelled_parts(names, path.parts.as_slice())
}

/// The first such name in some path patterns.
#[tactic(auto, using(pg_rules::specs::Places::least_found, pg_rules::specs::Places::sooner_none))]
fn unlabelled_paths(names: &NameSet<'_>, paths: &[PathPattern]) -> Option<u32>
    ensures { result ≡ least (flat_map (λ p. flat_map (pass.unlabelled_part names.now) p.parts) paths.now) }
{
    let mut found = None;
    for path in paths {
        found = sooner(found, unlabelled_path(names, path));
    }
    found
}

/// The first label of a query that is none of some names.
pub fn no_label(names: &NameSet<'_>, query: &Query) -> Option<u32>
    ensures { result ≡ least (flat_map (pass.unlabelled_part names.now) (part_of.parts_of query.now)) }
{
    unlabelled_paths(names, query.paths.as_slice())
}
