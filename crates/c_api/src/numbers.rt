// Answers as numbers: 0 and what there is, or a refusal's number and place; zeros behind.
ghost use Rattle.std.specs.Prelude.{◌≡◌, [], ◌∷◌, ◌≤◌};
ghost use Rattle.model.specs.Answers.{number_of, answer, count_of};
ghost use Rattle.recover_line.specs.Progress.{progress_from};
ghost use Rattle.c_api.specs.Numbers.{padded, count_numbers};
ghost use Rattle.c_api.specs.Progress.{progress_numbers};

use model::refusal::Refusal;
use recover_line::Progress;

// A refusal's number and place, in so many numbers.
pub fn refusal_numbers<const N: usize>(refusal: Refusal) -> [usize; N]
    requires { 2 ≤ N }
    ensures { result ≡ padded N (number_of refusal.kind ∷ refusal.place ∷ []) }
{
    let mut numbers = [0; N];
    numbers[0] = refusal.kind.number();
    numbers[1] = refusal.place;
    numbers
}

// 0 and the count.
pub fn count_numbers(counted: Result<usize, Refusal>) -> [usize; 2]
    ensures { result ≡ count_numbers (count_of counted) }
{
    match counted {
        Ok(count) => [0, count],
        Err(refusal) => refusal_numbers(refusal),
    }
}

// 0 and the progress.
pub fn progress_numbers(stepped: Result<Progress, Refusal>) -> [usize; 5]
    ensures { result ≡ progress_numbers (answer progress_from stepped) }
{
    match stepped {
        Ok(p) => [0, p.lines, usize::from(p.state), p.entries, p.bytes],
        Err(refusal) => refusal_numbers(refusal),
    }
}
