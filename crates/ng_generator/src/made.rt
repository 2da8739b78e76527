ghost use Rattle.std.specs.Prelude.{◌≡◌, map, IfOk};
ghost use Rattle.ng_mtrace.specs.Reads.{IsWithinLimits};
ghost use Rattle.ng_generator.specs.Generated.{made};

use crate::generator::Generator;
use ng_mtrace::Logs;
use ng_terms::Host;
use std::alloc::{AllocError, Global};

/// The steps that make the logs.
const STEPS: u64 = 8000;

/// The four logs that a seed makes.
pub fn made_logs(alloc: Global, seed: u64) -> Result<Logs, Host>
    ensures logs { IfOk result (λ logs. map (λ log. log.lines) logs.logs ≡ made seed) }
    ensures limits { IfOk result IsWithinLimits }
{
    match run(alloc, seed) {
        Ok(logs) => Ok(logs),
        Err(_) => Err(Host),
    }
}

/// The logs after all steps.
#[tactic(auto, using(crate::proofs::StepLemmas::steps))]
fn run(alloc: Global, seed: u64) -> Result<Logs, AllocError>
    ensures { IfOk result (λ logs. map (λ log. log.lines) logs.logs ≡ made seed) }
{
    let mut generator = Generator::new(alloc, seed);
    for number in 0..STEPS {
        generator.step(number)?;
    }
    generator.into_logs(alloc)
}
