#![tactic(auto)]
// Reads a request from standard input, plans it and prints a line for each job of the cycle, in planning order: its task, job, release, due time and frame. The
// last line is `busy B`, the sum of C over the jobs. Without a plan it prints `refused N`.

// A request has at most 164 bytes: what longer input is refused with is decided by its first 165. Every timeline has room in 4,096 bytes.
fn main(rt: HostRuntime) {
    let Some(request) = streams::input(&rt, 4096) else {
        return;
    };
    let mut out = [0u8; 4096];
    let length = timeline_listing::list(&request, &mut out);
    streams::print(&rt, &out[..length]);
}
