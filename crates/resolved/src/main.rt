// Reads a sheet without lengths from standard input and prints the direct fit of its tree, or `refused`, the
// number and the place. Where reading fails it prints nothing.
#![tactic(auto)]

use programs::Print;

fn main(rt: HostRuntime) {
    programs::show(&rt, Print::Resolved);
}
