// The managed parameters of a program in C.

ghost use Rattle.std.specs.Prelude.{◌≡◌};
ghost use Rattle.nodes.specs.Parameters.{default_config, out_of_range};
ghost use Rattle.sedgechisel_nodes.specs.Numbers.{parameter_number, first_number};

use nodes::{Config, Parameter};

fn number_of_parameter(parameter: Parameter) -> u8
    ensures { result ≡ parameter_number parameter }
{
    parameter as u8 + 1
}

#[tactic(auto, using(crate::proofs::Answered::named_again, crate::proofs::Answered::none_again))]
fn first_out_of_range(config: &Config) -> Option<Parameter>
    ensures { result ≡ out_of_range config.now }
{
    match config.fault() {
        Some(name) => Parameter::named(name.as_bytes()),
        None => None,
    }
}

/// Returns the first parameter that is out of range, of `sedge_parameter`; `SEDGE_NO_PARAMETER` for none. A
/// `width` is also out of range if it is odd, and a `window` if it is more than half the width.
#[unsafe(no_mangle)]
#[must_use]
pub extern "C" fn sedge_config_fault(config: &Config) -> u8
    ensures { result ≡ first_number (out_of_range config.now) }
{
    match first_out_of_range(config) {
        Some(parameter) => number_of_parameter(parameter),
        None => 0,
    }
}

/// Writes the default of each parameter. A program begins with the defaults, and sets the parameters that
/// differ in its mission.
#[unsafe(no_mangle)]
pub extern "C" fn sedge_config_default(config: &mut Config)
    ensures { config.new ≡ default_config }
{
    *config = Config::default();
}
