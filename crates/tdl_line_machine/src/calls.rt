// Functions whose ratio is wanted next.
use tdl_command::RatioFun;

/// A function whose ratio is wanted next.
#[derive(Clone, Copy)]
pub enum RatioCall {
    Of(RatioFun),
    Off,
}
