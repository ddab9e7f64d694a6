// Functions with others in them, which are on the heap.
ghost use Rattle.std.specs.Prelude.{IfOk};
ghost use Rattle.tdl_rows.specs.Arguments.{argument_at};
ghost use Rattle.tdl_combinator.specs.Funs.{fun_at, IsFun, IsNumber};
ghost use Rattle.tdl_combinator.specs.TreeFun as tree;
ghost use Rattle.tdl_prepare.specs.Built.{layer_fun};
ghost use Rattle.tdl_prepare.specs.inside.Views.{cycle_at, Wraps};

use std::alloc::Global;
use tdl_combinator::Fun;
use tdl_command::{CycleFun, LayerFun};
use tdl_control::NoMemory;
use tdl_expr::Arg;
use tdl_fraction::Frac;

pub(crate) fn layer(alloc: Global, name: LayerFun, part: Fun) -> Result<Fun, NoMemory>
    ensures { IfOk result (Wraps (λ nodes. IsFun nodes part) (λ nodes. layer_fun name (fun_at nodes part))) }
{
    let then = Box::new(alloc, part)?;
    match name {
        LayerFun::Superimpose => Ok(Fun::Superimpose { then }),
        LayerFun::Jux => Ok(Fun::Jux { then }),
    }
}

pub(crate) fn every(alloc: Global, n: Arg, part: Fun) -> Result<Fun, NoMemory>
    ensures { IfOk result (Wraps (λ nodes. IsNumber nodes n × IsFun nodes part) (λ nodes. tree.Every (argument_at nodes n) (fun_at nodes part))) }
{
    let then = Box::new(alloc, part)?;
    Ok(Fun::Every { n, then })
}

pub(crate) fn cycle(
    alloc: Global,
    name: CycleFun,
    first: Arg,
    second: Arg,
    part: Fun,
) -> Result<Fun, NoMemory>
    ensures { IfOk result (Wraps (λ nodes. IsNumber nodes first × (IsNumber nodes second × IsFun nodes part)) (cycle_at name first second part)) }
{
    let then = Box::new(alloc, part)?;
    match name {
        CycleFun::EveryAt => Ok(Fun::EveryAt {
            n: first,
            place: second,
            then,
        }),
        CycleFun::WhenMod => Ok(Fun::WhenMod {
            a: first,
            b: second,
            then,
        }),
    }
}

pub(crate) fn off(alloc: Global, by: Arg, part: Fun) -> Result<Fun, NoMemory>
    ensures { IfOk result (Wraps (λ nodes. IsNumber nodes by × IsFun nodes part) (λ nodes. tree.Off (argument_at nodes by) (fun_at nodes part))) }
{
    let then = Box::new(alloc, part)?;
    Ok(Fun::Off { by, then })
}

pub(crate) fn within(alloc: Global, from: Frac, to: Frac, part: Fun) -> Result<Fun, NoMemory>
    ensures { IfOk result (Wraps (λ nodes. IsFun nodes part) (λ nodes. tree.Within from to (fun_at nodes part))) }
{
    let then = Box::new(alloc, part)?;
    Ok(Fun::Within { from, to, then })
}

pub(crate) fn chain(alloc: Global, first: Fun, next: Fun) -> Result<Fun, NoMemory>
    ensures { IfOk result (Wraps (λ nodes. IsFun nodes first × IsFun nodes next) (λ nodes. tree.Chain (fun_at nodes first) (fun_at nodes next))) }
{
    let first = Box::new(alloc, first)?;
    let next = Box::new(alloc, next)?;
    Ok(Fun::Chain { first, next })
}
