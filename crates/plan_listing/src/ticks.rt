// The ticks of a transfer, as they are added up to busy ticks.
ghost use Rattle.std.specs.Prelude.{◌≡◌};
ghost use Rattle.plan_listing.specs.Answers.{ticks_in};

use request::Task;

// C of a task; 0 where there is no such task.
pub fn cost(tasks: [Task; 16], task: u8) -> u16
    ensures { result ≡ ticks_in tasks task }
{
    let i = task as usize;
    if i < 16 {
        return tasks[i].c;
    }
    0
}
