#![tactic(auto)]
// The heater link: a command goes out with each served entry of task a, a reply with each of task b, and either may be lost. It stands above the dispatcher
// and the check, and knows only their promises.
ghost use Rattle.std.specs.Prelude.{◌≡◌, not, cond, ◌&&◌, ◌≤◌};
ghost use Rattle.heater_link.specs.Machine.{differ};
ghost use Rattle.dispatcher.specs.Numbered.{frame_ok};
ghost use Rattle.heater_link.specs.Exchange.{fresh_link, arrives, exchanged, served_in, is_pair, exchange};
ghost use Rattle.heater_link.specs.Numbered.{exchange_ok, exchange_said};

use dispatcher::{Frame, State};
use refusal::Refusal;
use request::Pair;

// The dispatcher's state; the bit that the master sends, and the bit that the board last obeyed: false is 0, true is 1.
#[derive(Clone, Copy)]
pub struct Link {
    pub state: State,
    pub master: bool,
    pub obeyed: bool,
}

// Which of the two are lost in a frame, where they are served.
#[derive(Clone, Copy)]
pub struct Losses {
    pub command: bool,
    pub reply: bool,
}

// The entries served, as next-frame answers them; whether the board toggled and whether the command was answered in this call; and the link for the next
// one.
#[derive(Clone, Copy)]
pub struct Exchange {
    pub count: usize,
    pub tasks: [u8; 16],
    pub jobs: [u8; 16],
    pub toggled: bool,
    pub answered: bool,
    pub link: Link,
}

// The master sends 0 first, and the board takes 1 for the bit that it obeyed last.
pub fn fresh() -> Link
    ensures { result ≡ fresh_link }
{
    Link {
        state: dispatcher::fresh(),
        master: false,
        obeyed: true,
    }
}

// Whether a, b is one of the pairs. A loop: with `any` the goal stayed open, twice.
fn is_pair(pairs: &[Pair], a: u8, b: u8) -> bool
    ensures { result ≡ is_pair a b pairs.now }
{
    for pair in pairs {
        if pair.a == a && pair.b == b {
            return true;
        }
    }
    false
}

// What is served arrives unless it is lost.
fn arrives(served: bool, lost: bool) -> bool
    ensures { result ≡ arrives served lost }
{
    served && !lost
}

// The board toggles if a bit arrives that differs from the one that it obeyed last.
fn board_toggles(command: bool, master: bool, obeyed: bool) -> bool
    ensures { result ≡ command && differ master obeyed }
{
    command && master != obeyed
}

// The bit that the board obeyed last, after a command that arrived or did not.
fn board_obeys(command: bool, master: bool, obeyed: bool) -> bool
    ensures { result ≡ cond command master obeyed }
{
    if command { master } else { obeyed }
}

// A reply that arrives answers the command if it shows the master's bit.
fn answers(reply: bool, shown: bool, master: bool) -> bool
    ensures { result ≡ reply && not (differ shown master) }
{
    reply && shown == master
}

// A frame was served, and in it a command and a reply arrived, or did not. The command goes before the reply.
fn exchanged(command: bool, reply: bool, frame: Frame, link: Link) -> Exchange
    ensures { exchange_ok result ≡ exchanged command reply (frame_ok frame) link }
{
    let toggled = board_toggles(command, link.master, link.obeyed);
    let obeyed = board_obeys(command, link.master, link.obeyed);
    let answered = answers(reply, obeyed, link.master);
    let master = answered != link.master;
    let Frame {
        count,
        tasks,
        jobs,
        state,
    } = frame;
    Exchange {
        count,
        tasks,
        jobs,
        toggled,
        answered,
        link: Link {
            state,
            master,
            obeyed,
        },
    }
}

// What comes of a frame that next-frame answered, with what is lost in it.
fn in_frame(frame: Frame, a: u8, b: u8, lost: Losses, link: Link) -> Exchange
    requires { frame.count ≤ 16 }
    ensures { exchange_ok result ≡ served_in a b lost (frame_ok frame) link }
{
    let served = &frame.tasks[..frame.count];
    let command = arrives(served.contains(&a), lost.command);
    let reply = arrives(served.contains(&b), lost.reply);
    exchanged(command, reply, frame, link)
}

// One frame of the table is served for the pair a, b of the request. Or the check's refusal, 30 where a, b is no pair of the request, or 15: on a refusal
// the caller keeps its link.
pub fn serve(
    request: &[u8],
    table: &[u8],
    a: u8,
    b: u8,
    lost: Losses,
    link: Link,
) -> Result<Exchange, Refusal>
    ensures { exchange_said link result ≡ exchange a b lost request.now table.now link }
{
    let read = checker::read_plan(request, table)?;
    read.plan?;
    let cycle = read.cycle;
    if !is_pair(&cycle.pairs[..cycle.m], a, b) {
        return Err(Refusal::NoSuchPair);
    }
    let frame = dispatcher::next_frame(table, link.state)?;
    Ok(in_frame(frame, a, b, lost, link))
}
