//! A vouched image is run.

ghost use Rattle.std.specs.Prelude.{◌≡◌, ℕ, ◌-◌, ◌<◌, ◌^◌, Option, IfSome};
ghost use Rattle.image80.specs.Image.{memory_of};
ghost use Rattle.machine80.specs.Ports.{has_refused};
ghost use Rattle.machine80.specs.Step.{PortsAfter, with_ports};
ghost use Rattle.machine80.specs.World.{world_at_start, IsProperEnd};
ghost use Rattle.machine80.specs.Run.{IsRun, Agrees};

use machine80::{Bus, Cpu, End, Ports};
use machine80_quick::laws::images_that_never_go_wrong_stay_right;
use machine80_quick::quick_advance;
use verify80::Vouched;

/// How a run ended, or was stopped.
#[derive(Clone, Copy, Debug, PartialEq, Eq)]
pub struct Ended {
    /// How the run ended; `None` if the steps were used up.
    pub end: Option<End>,
    /// The number of steps that were made, the ending one counted.
    pub steps: u64,
    /// The processor after the last step; at an end, before the ending step.
    pub cpu: Cpu,
}

/// Runs a vouched image from its start, for at most `steps` steps.
///
/// Each step is a [quick step](machine80_quick::quick_step), which leaves out the checks that the verifier has made needless.
///
/// The bus must hold the image's memory, and the count of refused outputs be below the greatest `u64`. It is one higher
/// after [`End::OutputRefused`], and stays otherwise.
///
/// # Example
/// ```
/// let inputs = read_inputs(rt.alloc(), b"02 41FF\n")?;
/// let mut bus = FlatBus::new(rt.alloc(), vouched.image())?;
/// let mut ports = ListPorts::new(rt.alloc(), inputs, 65_536);
/// let ended = run(&vouched, &mut bus, &mut ports, 1_000_000);
/// assert_eq!(rt; ended.end, Some(End::Halt));
/// assert_eq!(rt; ended.steps, 11);
/// ```
pub fn run<B: Bus, P: Ports>(vouched: &Vouched, bus: &mut B, ports: &mut P, steps: u64) -> Ended
    requires content { B.memory bus.old ≡ memory_of vouched.now.image.chunks }
    requires count { (P.lists ports.old).refused < 2 ^ 64 - 1 }
    ensures run { let start = world_at_start vouched.now.image (P.lists ports.old).inputs (P.lists ports.old).outputs in
        let after = with_ports result.cpu (B.memory bus.new) (P.lists ports.new) in
        (most : Option ℕ) → Agrees (has_refused (P.lists ports.old) (P.lists ports.new)) most (P.lists ports.new).outputs →
        IsRun vouched.now.image.regions most start steps result.steps after result.end }
    ensures proper { IfSome result.end IsProperEnd }
    ensures ports { PortsAfter result.end (P.lists ports.old) (P.lists ports.new) }
{
    images_that_never_go_wrong_stay_right();
    let image = vouched.image();
    let mut cpu = Cpu::start(image.start, &image.regions);
    let advanced = quick_advance(&mut cpu, bus, ports, &image.regions, vouched.map(), steps);
    Ended {
        end: advanced.end,
        steps: advanced.steps,
        cpu,
    }
}
