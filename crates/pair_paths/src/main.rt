// Reads a sheet, with names or without, from standard input and prints its pairs, a line for each, or `refused`, the number and the place.
// Where reading fails it prints nothing.
#![tactic(auto)]

ghost use Rattle.std.specs.Prelude.{◌≡◌, ◌+◌, length};
ghost use Rattle.records.specs.Form.{max_named};

use records::Layout;

fn main(rt: HostRuntime) {
    let mut space: [u8; Layout::MAX_NAMED + 1] = arrays::filled(0);
    if let Ok(count) = streams::take_in(&rt, &mut space) {
        let mut out: [u8; pair_lines::PAGE] = arrays::filled(0);
        streams::put_out(
            &rt,
            paths_pages::paths_print(&space[..count], &mut out),
            &out,
        );
    }
}
