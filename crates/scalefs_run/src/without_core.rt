// Workers for which there is no core.
ghost use Rattle.std.specs.Prelude.{◌≡◌, None, Some};
ghost use Rattle.sfs_image.specs.Super.{InRange};
ghost use Rattle.scalefs_run.specs.WithoutCore.{worker_without_core, worker_without_core_in};

use fmt_super::Layout;
use script::Phase;

/// How many cores a layout has.
pub fn cores_of(layout: &Layout) -> u8
    requires { InRange layout.now }
    ensures { result ≡ layout.now.cores }
{
    layout.cores as u8
}

/// The worker of the first line of a script that has no core, where there are so many.
pub fn first_worker_without_core(phases: &[Phase], cores: u8) -> Option<u16>
    ensures { result ≡ worker_without_core cores phases.now }
{
    for phase in phases {
        if let Some(worker) = worker_without_core_in(phase, cores) {
            return Some(worker);
        }
    }
    None
}

// The same of a phase.
fn worker_without_core_in(phase: &Phase, cores: u8) -> Option<u16>
    ensures { result ≡ worker_without_core_in cores phase.now }
{
    match phase
        .lines()
        .iter()
        .find(|line| line.worker >= u16::from(cores))
    {
        Some(line) => Some(line.worker),
        None => None,
    }
}
