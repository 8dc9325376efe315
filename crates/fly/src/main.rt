#![tactic(auto)]
// Reads a request from standard input, plans it and serves three cycles of the plan frame by frame. For each frame it prints a line
// `frame m start t` with the entries served as task.job@q, where q is the cycle of the job. Without a plan it prints `refused N`.

// A request has at most 164 bytes: what longer input is refused with is decided by its first 165. Every flight has room in 65,536 bytes.
fn main(rt: HostRuntime) {
    let Some(request) = streams::input(&rt, 4096) else {
        return;
    };
    let mut out = [0u8; 65536];
    let length = fly_listing::list(&request, &mut out);
    streams::print(&rt, &out[..length]);
}
