//! The automaton of a path pattern.
ghost use Rattle.std.specs.Prelude.{◌≡◌, ◌++◌, ◌||◌, IfOk, OnOk, map, option_map};
ghost use Rattle.std.specs.Option.{option_copied};
ghost use Rattle.std.specs.List.{list_any};
ghost use Rattle.pg_meaning.specs.Rounds as rounds;
ghost use Rattle.pg_auto.specs.Stages as spec;
ghost use Rattle.pg_auto.specs.Autos.{leg_view, stage_view, variable_view, pattern};

use crate::auto::{Auto, Leg, Stage, Variable};
use pg_ast::{Arrow, Quant};
use pg_meaning::{CExpr, CFiller, CPart, CheckedPath};
use pg_value::List;
use std::alloc::{AllocError, Global};

/// The least number of rounds of a part.
fn low_of(quant: &Option<Quant>) -> u32
    ensures { result ≡ spec.low_of quant.now }
{
    match quant {
        None => 1,
        Some(quant) => quant.low,
    }
}

/// The greatest number of rounds of a part, where there is one.
fn high_of(quant: &Option<Quant>) -> Option<u32>
    ensures { result ≡ spec.high_of quant.now }
{
    match quant {
        None => Some(1),
        Some(quant) => quant.high,
    }
}

/// A round with a quantifier.
fn counted<'a>(
    node: Option<&'a CFiller>,
    legs: List<Leg<'a>>,
    cond: Option<&'a CExpr>,
    quant: &Option<Quant>,
) -> Stage<'a>
    ensures { stage_view result ≡ spec.counted (record { node = option_copied node.entry; legs = map leg_view legs.entry; cond = option_copied cond.entry }) quant.now }
{
    Stage {
        node,
        legs,
        cond,
        low: low_of(quant),
        high: high_of(quant),
        grouped: quant.is_some(),
    }
}

/// The stage of an edge, between nodes that ask nothing.
fn edge_stage<'a>(
    alloc: Global,
    arrow: Arrow,
    edge: &'a CFiller,
    quant: &Option<Quant>,
) -> Result<Stage<'a>, AllocError>
    ensures { IfOk result (λ stage. stage_view stage ≡ spec.edge_stage arrow edge.now quant.now) }
{
    let mut legs = List::new(alloc);
    legs.push(Leg {
        arrow,
        edge,
        node: None,
    })?;
    Ok(counted(None, legs, None, quant))
}

/// Appends legs, each of an arrow, an edge and a node.
fn push_legs<'a>(
    arrows: &[Arrow],
    edges: &'a [CFiller],
    nodes: &'a [CFiller],
    legs: &mut List<Leg<'a>>,
) -> Result<(), AllocError>
    ensures { OnOk result (map leg_view legs.new ≡ map leg_view legs.old ++ rounds.legs_of arrows.now edges.now nodes.now) }
{
    if let [arrow, arrows @ ..] = arrows {
        if let [edge, edges @ ..] = edges {
            if let [node, nodes @ ..] = nodes {
                legs.push(Leg {
                    arrow: *arrow,
                    edge,
                    node: Some(node),
                })?;
                push_legs(arrows, edges, nodes, legs)?;
            }
        }
    }
    Ok(())
}

/// The legs of a group.
fn legs_of<'a>(
    alloc: Global,
    arrows: &[Arrow],
    edges: &'a [CFiller],
    nodes: &'a [CFiller],
) -> Result<List<Leg<'a>>, AllocError>
    ensures { IfOk result (λ legs. map leg_view legs ≡ rounds.legs_of arrows.now edges.now nodes.now) }
{
    let mut legs = List::new(alloc);
    push_legs(arrows, edges, nodes, &mut legs)?;
    Ok(legs)
}

/// The stage of a group: its first node, and legs of its arrows, edges and other nodes.
fn group_stage<'a>(
    alloc: Global,
    nodes: &'a [CFiller],
    arrows: &[Arrow],
    edges: &'a [CFiller],
    cond: Option<&'a CExpr>,
    quant: &Option<Quant>,
) -> Result<Stage<'a>, AllocError>
    ensures { IfOk result (λ stage. stage_view stage ≡ spec.counted (rounds.group_of nodes.now arrows.now edges.now (option_copied cond.entry)) quant.now) }
{
    match nodes {
        [] => Ok(counted(None, List::new(alloc), cond, quant)),
        [first, rest @ ..] => {
            let legs = legs_of(alloc, arrows, edges, rest)?;
            Ok(counted(Some(first), legs, cond, quant))
        }
    }
}

/// The stage of a part.
fn stage_of<'a>(alloc: Global, part: &'a CPart) -> Result<Stage<'a>, AllocError>
    ensures { IfOk result (λ stage. stage_view stage ≡ spec.stage_of part.now) }
{
    match part {
        CPart::Node(filler) => Ok(counted(Some(filler), List::new(alloc), None, &None)),
        CPart::Edge {
            arrow,
            filler,
            quant,
        } => edge_stage(alloc, *arrow, filler, quant),
        CPart::Group {
            nodes,
            arrows,
            edges,
            cond,
            quant,
        } => group_stage(
            alloc,
            nodes.as_slice(),
            arrows.as_slice(),
            edges.as_slice(),
            cond.as_ref(),
            quant,
        ),
    }
}

/// The stages of some parts.
fn stages_of<'a>(alloc: Global, parts: &'a [CPart]) -> Result<List<Stage<'a>>, AllocError>
    ensures { IfOk result (λ stages. map stage_view stages ≡ map spec.stage_of parts.now) }
{
    let mut stages = List::new(alloc);
    for part in parts {
        let stage = stage_of(alloc, part)?;
        stages.push(stage)?;
    }
    Ok(stages)
}

/// Whether a node or an edge names a variable.
fn is_of(variable: u32, filler: &CFiller) -> bool
    ensures { result ≡ spec.is_of variable filler.now }
{
    match filler.var {
        None => false,
        Some(named) => named == variable,
    }
}

/// Whether a node names a variable.
fn is_of_node(variable: u32, node: Option<&CFiller>) -> bool
    ensures { result ≡ spec.is_of_node variable (option_copied node.entry) }
{
    match node {
        None => false,
        Some(filler) => is_of(variable, filler),
    }
}

/// Whether a leg names a variable.
fn is_of_leg(variable: u32, leg: &Leg<'_>) -> bool
    ensures { result ≡ spec.is_of_leg variable (leg_view leg.now) }
{
    is_of(variable, leg.edge) || is_of_node(variable, leg.node)
}

/// Whether some legs name a variable.
fn are_of(variable: u32, legs: &[Leg<'_>]) -> bool
    ensures { result ≡ list_any (spec.is_of_leg variable) (map leg_view legs.now) }
{
    for leg in legs {
        if is_of_leg(variable, leg) {
            return true;
        }
    }
    false
}

/// Whether a quantified stage mentions a variable.
fn groups(variable: u32, stage: &Stage<'_>) -> bool
    ensures { result ≡ spec.groups variable (stage_view stage.now) }
{
    stage.grouped && (is_of_node(variable, stage.node) || are_of(variable, stage.legs.as_slice()))
}

/// Whether a variable is a group variable.
fn is_grouped(stages: &[Stage<'_>], variable: u32) -> bool
    ensures { result ≡ spec.is_grouped (map stage_view stages.now) variable }
{
    for stage in stages {
        if groups(variable, stage) {
            return true;
        }
    }
    false
}

/// The variables of some stages, by their numbers.
fn variables(
    alloc: Global,
    stages: &[Stage<'_>],
    numbers: &[u32],
) -> Result<List<Variable>, AllocError>
    ensures { IfOk result (λ vars. map variable_view vars ≡ map (spec.variable (map stage_view stages.now)) numbers.now) }
{
    let mut vars = List::new(alloc);
    for number in numbers {
        vars.push(Variable {
            number: *number,
            grouped: is_grouped(stages, *number),
        })?;
    }
    Ok(vars)
}

/// The automaton of a path pattern: its graph, one stage for each of its parts, and its variables.
pub fn compile<'a>(alloc: Global, path: &'a CheckedPath) -> Result<Auto<'a>, AllocError>
    ensures { IfOk result (λ auto. pattern auto ≡ spec.pattern_of path.now) }
{
    let stages = stages_of(alloc, path.parts.as_slice())?;
    let vars = variables(alloc, stages.as_slice(), path.vars.as_slice())?;
    Ok(Auto {
        graph: &path.graph,
        stages,
        vars,
    })
}
