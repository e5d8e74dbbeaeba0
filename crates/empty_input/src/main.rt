// Has each program's answer to an input that is empty: RULES, The print, "An empty sheet prints".
#![tactic(auto)]

use programs::Print;

fn main(rt: HostRuntime) {
    programs::show(&rt, Print::Report);
    programs::show(&rt, Print::Report0);
    programs::show(&rt, Print::Resolved);
}
