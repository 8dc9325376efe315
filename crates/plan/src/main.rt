#![tactic(auto)]
// Reads a request from standard input and prints its plan: a line `frame f cycle H rows F`, and a line for each row with its number,
// its busy ticks and its entries as task.job, a carried one followed by `+`. Without a plan it prints `refused N`.

// A request has at most 164 bytes: what longer input is refused with is decided by its first 165. Every listing has room in 4,096 bytes.
fn main(rt: HostRuntime) {
    let Some(request) = streams::input(&rt, 4096) else {
        return;
    };
    let mut out = [0u8; 4096];
    let length = plan_listing::plan(&request, &mut out);
    streams::print(&rt, &out[..length]);
}
