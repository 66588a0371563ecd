// What the archive exports of crate `foldharbor_exercise`, in an object of its own, as the step back is.
#![tactic(auto)]

ghost use Rattle.std.specs.Prelude.{◌≡◌, length};
ghost use Rattle.file.specs.Read.{read_outcome};
ghost use Rattle.exercise.specs.Run.{exercise_outcome, exercise_buffer};
ghost use Rattle.foldharbor_exercise.specs.Exercise.{host_number};

use file::Counts;

#[unsafe(no_mangle)]
pub extern "C" fn foldharbor_read_exercise(exercise: &[u8]) -> Counts
    ensures { result ≡ read_outcome exercise.now }
{
    foldharbor_exercise::foldharbor_read_exercise(exercise)
}

#[unsafe(no_mangle)]
pub extern "C" fn foldharbor_run_exercise(exercise: &[u8], card: u32, answers: &mut [u8]) -> u32
    ensures number { result ≡ host_number (exercise_outcome exercise.now card (length answers.old)) }
    ensures answers { answers.new ≡ exercise_buffer exercise.now card answers.old }
{
    foldharbor_exercise::foldharbor_run_exercise(exercise, card, answers)
}
