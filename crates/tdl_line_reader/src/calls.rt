// Functions with a further argument.
ghost use Rattle.std.specs.Prelude.{◌≡◌, IfOk};
ghost use Rattle.tdl_command.specs.View.{ratio_of, count_of, fun_of};
ghost use Rattle.tdl_line_machine.specs.Machine as machine;
ghost use Rattle.tdl_line_reader.specs.ReaderView.{count_call_of, fun_call_of, called_of};

use crate::stages::{Called, CountCall, FunCall};
use std::alloc::Global;
use tdl_command::{Count, CountFun, CycleFun, Fun, Ratio};
use tdl_control::NoMemory;
use tdl_line_machine::RatioCall;

/// With its ratio.
pub fn with_ratio(call: RatioCall, ratio: Ratio) -> Called
    ensures { called_of result ≡ machine.with_ratio call (ratio_of ratio) }
{
    match call {
        RatioCall::Of(fun) => Called::Whole(Fun::OfRatio { fun, ratio }),
        RatioCall::Off => Called::WantsFun(FunCall::Off { by: ratio }),
    }
}

impl CountCall {
    /// With a further count.
    pub fn with(self, count: Count) -> Called
        ensures { called_of result ≡ machine.with_count (count_call_of self) (count_of count) }
    {
        match self {
            CountCall::Of(fun) => Called::Whole(Fun::OfCount { fun, count }),
            CountCall::Every => Called::WantsFun(FunCall::Every { cycles: count }),
            CountCall::Cycles(fun) => Called::WantsCount(CountCall::From { fun, cycles: count }),
            CountCall::From { fun, cycles } => {
                Called::WantsFun(FunCall::Cycle {
                    fun,
                    cycles,
                    from: count,
                })
            }
            CountCall::Hits => Called::WantsCount(CountCall::Steps { hits: count }),
            CountCall::Steps { hits } => Called::Whole(Fun::Euclid { hits, steps: count }),
            CountCall::OffHits => Called::WantsCount(CountCall::OffSteps { hits: count }),
            CountCall::OffSteps { hits } => {
                Called::WantsCount(CountCall::OffFrom { hits, steps: count })
            }
            CountCall::OffFrom { hits, steps } => {
                Called::Whole(Fun::EuclidOff {
                    hits,
                    steps,
                    from: count,
                })
            }
        }
    }
}

impl FunCall {
    /// With its function.
    pub fn with(self, alloc: Global, then: Fun) -> Result<Fun, NoMemory>
        ensures { IfOk result (λ f. fun_of f ≡ machine.with_fun (fun_call_of self) (fun_of then)) }
    {
        let then = Box::new(alloc, then)?;
        Ok(match self {
            FunCall::Layer(fun) => Fun::Layer { fun, then },
            FunCall::Every { cycles } => Fun::Every { cycles, then },
            FunCall::Cycle { fun, cycles, from } => Fun::Cycle {
                fun,
                cycles,
                from,
                then,
            },
            FunCall::Off { by } => Fun::Off { by, then },
            FunCall::Within(bounds) => Fun::Within {
                from: bounds.from,
                to: bounds.to,
                then,
            },
        })
    }
}
