// Reads a sheet with names from standard input and prints the text of its fitted tree, or `refused`, the number and the place. Where reading
// fails it prints nothing.
#![tactic(auto)]

ghost use Rattle.std.specs.Prelude.{◌≡◌, ◌+◌, length};
ghost use Rattle.records.specs.Form.{max_named};

use records::Layout;

fn main(rt: HostRuntime) {
    let mut space: [u8; Layout::MAX_NAMED + 1] = arrays::filled(0);
    if let Ok(count) = streams::take_in(&rt, &mut space) {
        let mut out: [u8; newick_pages::PAGE] = arrays::filled(0);
        streams::put_out(
            &rt,
            newick_pages::newick_print(&space[..count], &mut out),
            &out,
        );
    }
}
