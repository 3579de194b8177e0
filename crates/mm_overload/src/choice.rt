//! The choice of a function.

ghost use Rattle.std.specs.Prelude.{◌≡◌, ◌<◌, ℕ, List, map, length, IfSome, not, ◌||◌, nat_eq};
ghost use Rattle.mm_classes.specs.Classes.{IsClassList};
ghost use Rattle.mm_classes.specs.declared.class.Ty.{Ty};
ghost use Rattle.mm_overload.specs.Choice.{IsChoice, best_of, viable, some_better, better_to, better_function, params_at, meets, champion, beats_all};

use crate::conv::Arg;
use crate::ranks::{conversion, is_better, rank};
use mm_classes::class::Ty;
use mm_paths::graph::Graph;

/// Which candidate a call takes.
#[derive(Clone, Copy, PartialEq, Eq, Debug)]
pub enum Best {
    /// The one of this index.
    One(usize),
    /// No candidate is viable.
    None,
    /// More than one is viable, and none of them is the best.
    Several,
}

// Whether the argument has a better conversion to the first type.
fn is_better_to(graph: &Graph, a: &Arg, p: &Ty, q: &Ty) -> bool
    ensures { result ≡ better_to graph.now a.now p.now q.now }
{
    let Some(x) = conversion(graph, a, p) else {
        return false;
    };
    let Some(y) = conversion(graph, a, q) else {
        return false;
    };
    is_better(graph, &x, &y)
}

fn is_viable(graph: &Graph, args: &[Arg], params: &[Ty]) -> bool
    ensures { result ≡ viable graph.now args.now params.now }
{
    match args {
        [] => params.is_empty(),
        [a, more @ ..] => match params {
            [] => false,
            [p, rest @ ..] => rank(graph, a, p).is_some() && is_viable(graph, more, rest),
        },
    }
}

fn is_some_better(graph: &Graph, args: &[Arg], f: &[Ty], g: &[Ty]) -> bool
    ensures { result ≡ some_better graph.now args.now f.now g.now }
{
    match args {
        [] => false,
        [a, more @ ..] => match f {
            [] => false,
            [p, ps @ ..] => match g {
                [] => false,
                [q, qs @ ..] => {
                    is_better_to(graph, a, p, q) || is_some_better(graph, more, ps, qs)
                }
            },
        },
    }
}

// Whether the first function is better than the second.
fn beats(graph: &Graph, args: &[Arg], f: &[Ty], g: &[Ty]) -> bool
    ensures { result ≡ better_function graph.now args.now f.now g.now }
{
    !is_some_better(graph, args, g, f) && is_some_better(graph, args, f, g)
}

// The candidate that is not beaten, with the next one.
fn met(graph: &Graph, args: &[Arg], all: &[&[Ty]], held: Option<usize>, i: usize) -> Option<usize>
    requires at { i < length all.now }
    requires low { IfSome held (λ w. w < length all.now) }
    ensures is { result ≡ meets graph.now args.now (map (λ c. c.now) all.now) held i (params_at
        (map (λ c. c.now) all.now) i) }
    ensures low { IfSome result (λ w. w < length all.now) }
{
    let params = all[i];
    if !is_viable(graph, args, params) {
        return held;
    }
    let Some(w) = held else {
        return Some(i);
    };
    if beats(graph, args, params, all[w]) {
        return Some(i);
    }
    held
}

// The candidate that is not beaten from left to right.
fn find_champion(graph: &Graph, args: &[Arg], all: &[&[Ty]]) -> Option<usize>
    ensures is { result ≡ champion graph.now args.now (map (λ c. c.now) all.now) None 0 (map (λ c.
        c.now) all.now) }
    ensures low { IfSome result (λ w. w < length all.now) }
{
    let mut held = None;
    for i in 0..all.len() {
        held = met(graph, args, all, held, i);
    }
    held
}

// Whether a candidate is the best one, or not viable, or worse.
fn is_below(graph: &Graph, args: &[Arg], best: &[Ty], w: usize, i: usize, other: &[Ty]) -> bool
    ensures { result ≡ ((nat_eq i w || not (viable graph.now args.now other.now)) ||
        better_function graph.now args.now best.now other.now) }
{
    i == w || !is_viable(graph, args, other) || beats(graph, args, best, other)
}

fn is_over_all(graph: &Graph, args: &[Arg], all: &[&[Ty]], best: &[Ty], w: usize) -> bool
    ensures { result ≡ beats_all graph.now args.now w best.now 0 (map (λ c. c.now) all.now) }
{
    let mut over = true;
    for i in 0..all.len() {
        over &= is_below(graph, args, best, w, i, all[i]);
    }
    over
}

/// The viable candidate that is better than every other viable one, where each candidate is the
/// list of the types of its parameters. It goes over the candidates twice, and takes no memory.
pub fn get_best(graph: &Graph, args: &[Arg], candidates: &[&[Ty]]) -> Best
    ensures is { result ≡ best_of graph.now args.now (map (λ c. c.now) candidates.now) }
    ensures choice { IsChoice graph.now args.now (map (λ c. c.now) candidates.now) result }
{
    // Asked here, so that the graph is known to be a class list.
    let _classes = graph.classes();
    let Some(w) = find_champion(graph, args, candidates) else {
        return Best::None;
    };
    if is_over_all(graph, args, candidates, candidates[w], w) {
        return Best::One(w);
    }
    Best::Several
}
