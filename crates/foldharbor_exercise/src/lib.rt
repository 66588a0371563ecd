// The calls on an exercise that a host program links: crate `foldharbor_exercise_c` exports them.
#![tactic(auto)]

ghost use Rattle.std.specs.Prelude.{◌≡◌, length};
ghost use Rattle.file.specs.Read.{read_outcome};
ghost use Rattle.exercise.specs.Run.{exercise_outcome, exercise_buffer};
ghost use Rattle.foldharbor_exercise.specs.Exercise.{host_number};

use file::Counts;

// An exercise that is refused gives this plus the number of the refusal.
const REFUSED: u32 = 10000;

pub fn foldharbor_read_exercise(exercise: &[u8]) -> Counts
    ensures { result ≡ read_outcome exercise.now }
{
    file::read(exercise)
}

// One number for the host program: the ticks, or 10,000 and more. `exercise::run` answers a `Total`, of which the demands speak (`Demand1.exercise`).
#[tactic(auto, unfolding(crate::specs::Exercise::host_number))]
pub fn foldharbor_run_exercise(exercise: &[u8], card: u32, answers: &mut [u8]) -> u32
    ensures number { result ≡ host_number (exercise_outcome exercise.now card (length answers.old)) }
    ensures answers { answers.new ≡ exercise_buffer exercise.now card answers.old }
{
    let ran = exercise::run(exercise, card, answers);
    if ran.refusal != 0 {
        return REFUSED + (ran.refusal as u32);
    }
    ran.ticks as u32
}
