// Reads a long sheet from standard input and prints its report, or `refused`, the number and the place. Where
// reading fails it prints nothing.
#![tactic(auto)]

use verdict::Rule;

fn main(rt: HostRuntime) {
    long_programs::show(&rt, Rule::Plain);
}
