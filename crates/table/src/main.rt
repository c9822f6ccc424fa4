// Prints the table of weights, one line for each phase: the phase, x and y.
#![tactic(auto)]

use weight::Weight;

fn main(rt: HostRuntime) {
    for e in 0..turn::TURN {
        let Weight { x, y } = lookup::weight_at(e);
        // Says nothing where it could not be written.
        let _ = println!(rt; "{e} {x} {y}");
    }
}
