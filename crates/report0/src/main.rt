// Reads a sheet from standard input and prints its report where no length may be negative, or `refused`, the number
// and the place. Where reading fails it prints nothing.
#![tactic(auto)]

use programs::Print;

fn main(rt: HostRuntime) {
    programs::show(&rt, Print::Report0);
}
