#![tactic(auto)]
// The bus timer: the dispatcher shown as eight registers. It stands above the dispatcher.
ghost use Rattle.std.specs.Prelude.{◌≡◌, ◌<◌};
ghost use Rattle.request.specs.Request.{reading};
ghost use Rattle.table.specs.Table.{decode};
ghost use Rattle.timer.specs.Registers.{is_set, fresh_timer, control_byte, status_byte, sum_of, sum_shown, register_read};
ghost use Rattle.timer.specs.Registers.{control_of, status_of, cleared_by, after_write, due_or_missed, after_event};
ghost use Rattle.timer.specs.Registers.{served_once, none_served, serving, marked, reporting, line_on};
ghost use Rattle.timer.specs.Numbered.{read_said, changed_said, served_ok, served_said};

use dispatcher::{Frame, State};
use refusal::Refusal;

// Register 0: bit 0 run, bit 1 interrupt enable.
#[derive(Clone, Copy)]
pub struct Control {
    pub run: bool,
    pub enable: bool,
}

// Register 1: bit 0 frame due, bit 1 overrun, bit 2 frame missed.
#[derive(Clone, Copy)]
pub struct Status {
    pub due: bool,
    pub overrun: bool,
    pub missed: bool,
}

#[derive(Clone, Copy)]
pub struct Timer {
    pub state: State,
    pub control: Control,
    pub status: Status,
}

// The entries to serve in 16 places, filled from the first, as task bytes and job bytes; and the timer for the next call.
#[derive(Clone, Copy)]
pub struct FrameServed {
    pub count: usize,
    pub tasks: [u8; 16],
    pub jobs: [u8; 16],
    pub timer: Timer,
}

// The dispatcher is fresh, and no bit is set.
pub fn fresh() -> Timer
    ensures { result ≡ fresh_timer }
{
    Timer {
        state: dispatcher::fresh(),
        control: control_of(0),
        status: status_of(0),
    }
}

// Control as register 0 shows it.
pub fn control_byte(control: Control) -> u8
    ensures { result ≡ control_byte control }
{
    (control.run as u8) + 2 * (control.enable as u8)
}

// Status as register 1 shows it.
pub fn status_byte(status: Status) -> u8
    ensures { result ≡ status_byte status }
{
    (status.due as u8) + 2 * (status.overrun as u8) + 4 * (status.missed as u8)
}

// The sum of 16 counts needs more than 16 bits.
fn sum_of(counts: [u16; 16]) -> u32
    ensures { result ≡ sum_of counts }
{
    let mut sum: u32 = 0;
    for count in counts {
        sum += u32::from(count);
    }
    sum
}

// The smaller of 65,535 and the sum of all counts.
fn sum_shown(counts: [u16; 16]) -> u16
    ensures { result ≡ sum_shown counts }
{
    sum_of(counts).min(65535) as u16
}

// The byte at an address: 29 where it is above 7.
pub fn read(address: u8, timer: Timer) -> Result<u8, Refusal>
    ensures { read_said result ≡ register_read address timer }
{
    let state = timer.state;
    let value = match address {
        0 => control_byte(timer.control),
        1 => status_byte(timer.status),
        2 => (state.row % 256) as u8,
        3 => (state.row / 256) as u8,
        4 => (sum_shown(state.counts) % 256) as u8,
        5 => (sum_shown(state.counts) / 256) as u8,
        6 | 7 => 0,
        _ => return Err(Refusal::NoSuchRegister),
    };
    Ok(value)
}

// Whether a bit of a byte is set: weight 1 is bit 0, weight 2 bit 1, weight 4 bit 2.
fn is_set(weight: u8, byte: u8) -> bool
    requires { 0 < weight }
    ensures { result ≡ is_set weight byte }
{
    byte / weight % 2 == 1
}

// The bits of a byte as control; unnamed bits are dropped.
pub fn control_of(value: u8) -> Control
    ensures { result ≡ control_of value }
{
    Control {
        run: is_set(1, value),
        enable: is_set(2, value),
    }
}

// The bits of a byte as status, where it is kept in bytes. No register is written so.
pub fn status_of(value: u8) -> Status
    ensures { result ≡ status_of value }
{
    Status {
        due: is_set(1, value),
        overrun: is_set(2, value),
        missed: is_set(4, value),
    }
}

// A 1 clears bit 1 or 2; bit 0 stays as it is.
fn cleared_by(value: u8, status: Status) -> Status
    ensures { result ≡ cleared_by value status }
{
    Status {
        overrun: status.overrun && !is_set(2, value),
        missed: status.missed && !is_set(4, value),
        ..status
    }
}

// Control takes its two bits, status is cleared where a 1 is written, and bytes 2 to 7 stay: 29 where the address is above 7.
// On a refusal the caller keeps its timer, here as in a serving and a report.
pub fn write(address: u8, value: u8, timer: Timer) -> Result<Timer, Refusal>
    ensures { changed_said timer result ≡ after_write address value timer }
{
    match address {
        0 => Ok(Timer {
            control: control_of(value),
            ..timer
        }),
        1 => Ok(Timer {
            status: cleared_by(value, timer.status),
            ..timer
        }),
        2..=7 => Ok(timer),
        _ => Err(Refusal::NoSuchRegister),
    }
}

// A frame is due now; if one was due already, it is missed.
fn due_or_missed(status: Status) -> Status
    ensures { result ≡ due_or_missed status }
{
    Status {
        due: true,
        missed: status.due || status.missed,
        ..status
    }
}

// A timer event: with run set a frame is due, or missed if one was due already.
pub fn event(timer: Timer) -> Timer
    ensures { result ≡ after_event timer }
{
    if !timer.control.run {
        return timer;
    }
    Timer {
        status: due_or_missed(timer.status),
        ..timer
    }
}

// No frame is due: no entries, and nothing changes.
fn none_served(timer: Timer) -> FrameServed
    ensures { served_ok result ≡ none_served timer }
{
    FrameServed {
        count: 0,
        tasks: [0; 16],
        jobs: [0; 16],
        timer,
    }
}

// The dispatcher's answer, with the timer for the next call.
fn frame_served(frame: Frame, timer: Timer) -> FrameServed
    ensures { result ≡ record { count = frame.count; tasks = frame.tasks; jobs = frame.jobs; timer = timer } }
{
    let Frame {
        count,
        tasks,
        jobs,
        ..
    } = frame;
    FrameServed {
        count,
        tasks,
        jobs,
        timer,
    }
}

// The frame was served: it is no longer due.
fn served_once(state: State, timer: Timer) -> Timer
    ensures { result ≡ served_once state timer }
{
    let status = Status {
        due: false,
        ..timer.status
    };
    Timer {
        state,
        status,
        ..timer
    }
}

// Serves the frame that is due, by one next-frame call: 12 or 15, and the frame stays due. With none due nothing is refused, whatever the table.
pub fn serve(table: &[u8], timer: Timer) -> Result<FrameServed, Refusal>
    ensures { served_said timer result ≡ serving (decode table.now) timer }
{
    if !timer.status.due {
        return Ok(none_served(timer));
    }
    let frame = dispatcher::next_frame(table, timer.state)?;
    let after = served_once(frame.state, timer);
    Ok(frame_served(frame, after))
}

// The status after a report: bit 1 is set by one above C.
fn marked_if(over: bool, status: Status) -> Status
    ensures { result ≡ marked over status }
{
    Status {
        overrun: over || status.overrun,
        ..status
    }
}

// The ticks that a task used: more than C set bit 1, and its count rises. 1 to 6 or 17 where the bytes are no request, 16 where it has no such task.
pub fn report(request: &[u8], task: u8, ticks: u32, timer: Timer) -> Result<Timer, Refusal>
    ensures { changed_said timer result ≡ reporting (reading request.now) task ticks timer }
{
    let reported = dispatcher::report(request, task, ticks, timer.state)?;
    Ok(Timer {
        state: reported.state,
        status: marked_if(reported.over, timer.status),
        ..timer
    })
}

// The interrupt line is on exactly if it is enabled and a status bit is set.
pub fn line(timer: Timer) -> bool
    ensures { result ≡ line_on timer }
{
    let status = timer.status;
    timer.control.enable && (status.due || status.overrun || status.missed)
}
